//! From texts to a session and what its script asks for.
ghost use Rattle.std.specs.Prelude.{◌≡◌, ◌≤◌, ◌<◌, length, min, All, Err, IfErr, IfOk, MatchResult, None, Ok, Some};
ghost use Rattle.sq_tree.specs.Schema.{schema_tokens, schema_depth};
ghost use Rattle.sq_tree.specs.Module.{module_tokens, module_depth};
ghost use Rattle.sq_tree.specs.Script.{script_tokens, script_depth};
ghost use Rattle.sq_bound.specs.Fits.{keys_of_bases};
ghost use Rattle.sq_meaning.specs.ModuleRefusal.{first_module_refusal};
ghost use Rattle.sq_module.specs.FirstRefusal.{IsFaultFor, refusal_of};
ghost use Rattle.sq_module.specs.Refusal.{IsOfSomeModule};
ghost use Rattle.sq_perform.specs.Fault.{IsModuleFault, IsOfItem, IsOpeningFault, IsSchemaFault, IsScriptFault, IsScriptRefusal, IsUntaken, SomeRefused, run_fault};
ghost use Rattle.sq_binding.specs.Declaring.{catalog_of};
ghost use Rattle.sq_catalog.specs.Catalog.{declared_tables, known};
ghost use Rattle.sq_catalog.specs.Declares.{Declares};
ghost use Rattle.sq_catalog.specs.Exact.{declared};
ghost use Rattle.sq_catalog.specs.Fault.{refusal_seen};
ghost use Rattle.sq_catalog.specs.UserTables.{NamesStand, names_in};
ghost use Rattle.sq_module.specs.Program.{declared_procedures};
ghost use Rattle.sq_session.specs.Schemas.{schemas_of};
ghost use Rattle.sq_session.specs.Session.{IsOfModules, names_of};
ghost use Rattle.sq_store.specs.Content.{no_rows};
ghost use Rattle.sq_perform.specs.Opened.{Defined, Holds, Opened};
ghost use Rattle.sq_perform.specs.Read.{module_rule, schema_rule};
ghost use Rattle.sq_perform.specs.Refusal.{refused_part, refused_start};
ghost use Rattle.sq_perform.specs.Items.{IsTaken};
ghost use Rattle.sq_perform.specs.Run.{IsStart};
ghost use Rattle.sq_perform.specs.Texts.{AllSpell, SpellsTree, texts};
ghost use Rattle.sq_perform.specs.Asked.{AreActions, AreAsked};
ghost use Rattle.sq_perform.specs.Steps.{IsPrepared};

use crate::action::Action;
use crate::items::{ItemFault, action_of};
use crate::limits::Limits;
use crate::long_script::actions_by_parts;
use crate::refusal::{RefusalName, RunFault};
use crate::texts::{TextFault, read_all, read_text, refused_again, refused_text};
use sq_catalog::{Catalog, CatalogFault, SchemaRefusal};
use sq_session::{ModuleRefusal, Session, SessionFault};
use sq_spell::{module_item_start, schema_element_start, schema_start, script_item_start};
use sq_store::{MOST_ROW_NUMBERS, Store};
use sq_tree::{ModuleText, SchemaText, ScriptText};
use std::alloc::{AllocError, Global};

/// The session that the schema and module texts open. All schemas are read and defined before the first module is read.
#[tactic(auto, using(crate::proofs::Opened::opened_by, crate::proofs::Opened::declared_by_defined))]
pub fn open_session<S: Store>(
    alloc: Global,
    schemas: &[Vec<u8>],
    modules: &[Vec<u8>],
    limits: Limits,
) -> Result<Session<S>, RunFault>
    requires numbers { limits.row_numbers ≤ MOST_ROW_NUMBERS }
    ensures opened { IfOk result (Opened limits.row_numbers (texts schemas.now) (texts modules.now)) }
    ensures refused { IfErr result (IsOpeningFault (texts schemas.now) (texts modules.now)) }
{
    let catalog = match read_schemas(alloc, schemas) {
        Ok(catalog) => catalog,
        Err(fault) => return Err(schema_fault(fault)),
    };
    match session_of(alloc, catalog, modules, limits) {
        Ok(session) => Ok(session),
        Err(fault) => Err(module_fault(fault)),
    }
}

/// The actions that the script asks of a session.
pub fn read_script<S: Store>(
    alloc: Global,
    session: &Session<S>,
    script: &[u8],
) -> Result<Vec<Action>, RunFault>
    ensures asked { IfOk result (λ actions. AreAsked session.now script.now actions.items) }
    ensures prepared { IfOk result (λ actions. All (IsPrepared session.now) actions.items) }
    ensures refused { IfErr result (IsScriptFault session.now script.now) }
{
    match actions_of(alloc, session, script) {
        Ok(actions) => Ok(actions),
        Err(fault) => Err(script_fault(fault)),
    }
}

/// What the schema texts define.
#[tactic(auto, using(crate::proofs::Opened::defined_if))]
fn read_schemas(alloc: Global, schemas: &[Vec<u8>]) -> Result<Catalog, TextFault>
    ensures defined { IfOk result (Defined (texts schemas.now)) }
    ensures refused { IfErr result (SomeRefused schema_rule schema_tokens schema_depth (texts schemas.now)) }
    ensures first { IfErr result (IsSchemaFault (texts schemas.now)) }
{
    let trees = read_all::<SchemaText>(alloc, schemas)?;
    let answer = build_catalog(alloc, schemas, trees.as_slice());
    drop(trees);
    answer
}

/// The catalog that the trees of the schema texts define, or the first text that is refused.
pub(crate) fn build_catalog(
    alloc: Global,
    schemas: &[Vec<u8>],
    trees: &[SchemaText],
) -> Result<Catalog, TextFault>
    requires spelled { AllSpell schema_tokens schema_depth (texts schemas.now) trees.now }
    ensures tables { IfOk result (λ c. c.tables ≡ declared_tables trees.now) }
    ensures declares { IfOk result (λ c. Declares trees.now (known c) c.bases c.views) }
    ensures exact { IfOk result (λ c. catalog_of trees.now ≡ Ok (declared c)) }
    ensures names { IfOk result NamesStand }
    ensures refused { IfErr result (SomeRefused schema_rule schema_tokens schema_depth (texts schemas.now)) }
    ensures first { IfErr result (IsSchemaFault (texts schemas.now)) }
{
    match Catalog::build(alloc, trees) {
        Ok(catalog) => {
            catalog.names_stand();
            Ok(catalog)
        }
        Err(CatalogFault::NoMemory) => Err(TextFault::NoMemory),
        Err(CatalogFault::Refused(refusal)) => Err(refused_schema(alloc, schemas, trees, refusal)),
    }
}

/// The refusal of a schema definition, or of one of its elements, at its first token.
fn refused_schema(
    alloc: Global,
    schemas: &[Vec<u8>],
    trees: &[SchemaText],
    refusal: SchemaRefusal,
) -> TextFault
    requires spelled { AllSpell schema_tokens schema_depth (texts schemas.now) trees.now }
    requires there { refusal.text < length trees.now }
    requires first { catalog_of trees.now ≡ Err (refusal_seen refusal) }
    ensures refused { SomeRefused schema_rule schema_tokens schema_depth (texts schemas.now) result }
    ensures first { IsSchemaFault (texts schemas.now) result }
{
    let SchemaRefusal {
        name,
        text,
        schema,
        element,
    } = refusal;
    let token = refused_part(&trees[text], schema, element);
    refused_text::<SchemaText>(alloc, schemas, text, token, RefusalName::Schema(name))
}

/// The first token of what is refused in a schema text.
fn refused_part(tree: &SchemaText, schema: usize, element: Option<usize>) -> usize
    ensures { result ≡ min (refused_part tree.now schema element) usize.MAX }
{
    match element {
        Some(element) => schema_element_start(tree, schema, element),
        None => schema_start(tree, schema),
    }
}

/// A session of the modules over the tables of a catalog.
fn session_of<S: Store>(
    alloc: Global,
    catalog: Catalog,
    modules: &[Vec<u8>],
    limits: Limits,
) -> Result<Session<S>, TextFault>
    requires numbers { limits.row_numbers ≤ MOST_ROW_NUMBERS }
    ensures holds { IfOk result (Holds limits.row_numbers catalog (texts modules.now)) }
    ensures refused { IfErr result (SomeRefused module_rule module_tokens module_depth (texts modules.now)) }
    ensures first { IfErr result (IsModuleFault (texts modules.now)) }
{
    let trees = match read_all::<ModuleText>(alloc, modules) {
        Ok(trees) => trees,
        Err(fault) => {
            drop(catalog);
            return Err(fault);
        }
    };
    let answer = session_from(alloc, catalog, modules, trees.as_slice(), limits);
    drop(trees);
    answer
}

/// A session of the trees of the module texts.
fn session_from<S: Store>(
    alloc: Global,
    catalog: Catalog,
    modules: &[Vec<u8>],
    trees: &[ModuleText],
    limits: Limits,
) -> Result<Session<S>, TextFault>
    requires numbers { limits.row_numbers ≤ MOST_ROW_NUMBERS }
    requires spelled { AllSpell module_tokens module_depth (texts modules.now) trees.now }
    ensures holds { IfOk result (Holds limits.row_numbers catalog (texts modules.now)) }
    ensures refused { IfErr result (SomeRefused module_rule module_tokens module_depth (texts modules.now)) }
    ensures first { IfErr result (IsModuleFault (texts modules.now)) }
{
    match session_over(alloc, catalog, trees, limits) {
        Ok(session) => Ok(session),
        Err(SessionFault::NoMemory) => Err(TextFault::NoMemory),
        Err(SessionFault::Refused(refusal)) => Err(refused_module(alloc, modules, trees, refusal)),
    }
}

/// A session of modules over a new store.
#[tactic(auto, using(sq_session::proofs::Lasting::Holding::no_rows_hold, sq_session::proofs::Lasting::Holding::no_rows_obey))]
fn session_over<S: Store>(
    alloc: Global,
    catalog: Catalog,
    modules: &[ModuleText],
    limits: Limits,
) -> Result<Session<S>, SessionFault>
    requires numbers { limits.row_numbers ≤ MOST_ROW_NUMBERS }
    ensures tables { IfOk result (λ s. s.tables ≡ catalog.tables) }
    ensures procedures { IfOk result (λ s. names_of s.procedures ≡ declared_procedures modules.now) }
    ensures schemas { IfOk result (λ s. s.schemas ≡ schemas_of catalog) }
    ensures written { IfOk result (IsOfModules (known catalog) (names_in catalog) modules.now) }
    ensures start { IfOk result (IsStart limits.row_numbers) }
    ensures refused { IfErr result (IsOfSomeModule (length modules.now)) }
    ensures first { MatchResult result (λ _. first_module_refusal modules.now ≡ None)
        (IsFaultFor (first_module_refusal modules.now)) }
{
    match store_of::<S>(alloc, &catalog, limits) {
        Ok(store) => Session::new(alloc, catalog, modules, store),
        Err(_) => {
            drop(catalog);
            Err(SessionFault::NoMemory)
        }
    }
}

/// A new store for the base tables of a catalog, their keys and references.
#[tactic(auto, using(sq_session::proofs::Lasting::Holding::keys_count))]
fn store_of<S: Store>(alloc: Global, catalog: &Catalog, limits: Limits) -> Result<S, AllocError>
    requires numbers { limits.row_numbers ≤ MOST_ROW_NUMBERS }
    ensures now { IfOk result (λ store. S.content_now store ≡ no_rows (length catalog.now.bases)) }
    ensures committed { IfOk result (λ store. S.committed store ≡ no_rows (length catalog.now.bases)) }
    ensures keys { IfOk result (λ store. S.key_columns store ≡ keys_of_bases catalog.now.bases) }
    ensures numbers { IfOk result (λ store. S.row_numbers store ≡ limits.row_numbers) }
{
    let lookups = catalog.lookups(alloc)?;
    S::new(
        alloc,
        catalog.keys(),
        lookups.as_slice(),
        limits.row_numbers,
    )
}

/// The refusal of a module, or of one of its cursors or procedures, at its first token.
pub(crate) fn refused_module(
    alloc: Global,
    modules: &[Vec<u8>],
    trees: &[ModuleText],
    refusal: ModuleRefusal,
) -> TextFault
    requires spelled { AllSpell module_tokens module_depth (texts modules.now) trees.now }
    requires there { refusal.text < length trees.now }
    requires first { first_module_refusal trees.now ≡ Some (refusal_of refusal) }
    ensures refused { SomeRefused module_rule module_tokens module_depth (texts modules.now) result }
    ensures first { IsModuleFault (texts modules.now) result }
{
    let ModuleRefusal { fault, text, item } = refusal;
    let token = refused_start(&trees[text], item);
    refused_text::<ModuleText>(alloc, modules, text, token, RefusalName::Module(fault))
}

/// The first token of what is refused in a module.
fn refused_start(tree: &ModuleText, item: Option<usize>) -> usize
    ensures { result ≡ min (refused_start tree.now item) usize.MAX }
{
    match item {
        Some(item) => module_item_start(tree, item),
        None => 0,
    }
}

/// What the items of a script ask a session for. It is read part by part; only where a part is refused is its whole text read, which
/// tells the first refusal.
fn actions_of<S: Store>(
    alloc: Global,
    session: &Session<S>,
    script: &[u8],
) -> Result<Vec<Action>, TextFault>
    ensures asked { IfOk result (λ actions. AreAsked session.now script.now actions.items) }
    ensures prepared { IfOk result (λ actions. All (IsPrepared session.now) actions.items) }
    ensures refused { IfErr result (IsScriptRefusal session.now script.now) }
{
    match actions_by_parts(alloc, session, script)? {
        Some(actions) => Ok(actions),
        None => actions_at_once(alloc, session, script),
    }
}

/// What the items of a script ask a session for, from its one tree.
#[tactic(auto, using(crate::proofs::Taken::untaken_is_refused, crate::proofs::Refused::script_without))]
pub(crate) fn actions_at_once<S: Store>(
    alloc: Global,
    session: &Session<S>,
    script: &[u8],
) -> Result<Vec<Action>, TextFault>
    ensures asked { IfOk result (λ actions. AreAsked session.now script.now actions.items) }
    ensures prepared { IfOk result (λ actions. All (IsPrepared session.now) actions.items) }
    ensures refused { IfErr result (IsScriptRefusal session.now script.now) }
{
    let tree = read_text::<ScriptText>(alloc, 0, script)?;
    let answer = actions_in(alloc, session, script, &tree);
    drop(tree);
    answer
}

/// What the items of a script's tree ask a session for, or the refusal of the first item that the session does
/// not take.
#[tactic(auto, using(crate::proofs::Taken::taken_more))]
fn actions_in<S: Store>(
    alloc: Global,
    session: &Session<S>,
    script: &[u8],
    tree: &ScriptText,
) -> Result<Vec<Action>, TextFault>
    requires { SpellsTree script_tokens script_depth script.now tree.now }
    ensures actions { IfOk result (λ actions. AreActions session.now tree.now.items actions.items) }
    ensures prepared { IfOk result (λ actions. All (IsPrepared session.now) actions.items) }
    ensures taken { IfOk result (λ _. All (IsTaken session.now) tree.now.items) }
    ensures refused { IfErr result (IsUntaken session.now script.now) }
{
    let mut actions = Vec::new(alloc);
    let items = tree.items.as_slice();
    for (place, item) in items.iter().enumerate() {
        match action_of(alloc, session, item) {
            Ok(action) => actions.push(action)?,
            Err(fault) => {
                drop(actions);
                return Err(refused_item(alloc, script, tree, place, fault));
            }
        }
    }
    Ok(actions)
}

/// The refusal of a script item at its first token.
fn refused_item(
    alloc: Global,
    script: &[u8],
    tree: &ScriptText,
    place: usize,
    fault: ItemFault,
) -> TextFault
    requires spelled { SpellsTree script_tokens script_depth script.now tree.now }
    requires there { place < length tree.now.items }
    ensures { IsOfItem script.now tree.now place fault result }
{
    match fault {
        ItemFault::NoMemory => TextFault::NoMemory,
        ItemFault::Refused(what) => {
            refused_again(alloc, script, 0, script_item_start(tree, place), what)
        }
    }
}

pub(crate) fn schema_fault(fault: TextFault) -> RunFault
    ensures { result ≡ run_fault RunFault.SchemaRefused fault }
{
    match fault {
        TextFault::NoMemory => RunFault::NoMemory(0),
        TextFault::Refused(refusal) => RunFault::SchemaRefused(refusal),
    }
}

pub(crate) fn module_fault(fault: TextFault) -> RunFault
    ensures { result ≡ run_fault RunFault.ModuleRefused fault }
{
    match fault {
        TextFault::NoMemory => RunFault::NoMemory(0),
        TextFault::Refused(refusal) => RunFault::ModuleRefused(refusal),
    }
}

fn script_fault(fault: TextFault) -> RunFault
    ensures { result ≡ run_fault RunFault.ScriptRefused fault }
{
    match fault {
        TextFault::NoMemory => RunFault::NoMemory(0),
        TextFault::Refused(refusal) => RunFault::ScriptRefused(refusal),
    }
}
