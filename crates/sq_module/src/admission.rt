//! Which modules are refused (ISO/IEC 9075:1992, 12.1 to 12.3 and 13.1; that exactly one procedure opens each cursor is an
//! own rule).

ghost use Rattle.std.specs.Prelude.{◌≡◌, [], ◌∷◌, ◌++◌, true, false, IfErr, IfOk, MatchResult, None, OnOk, Some, filter_map, flat_map, length, map, not, position};
ghost use Rattle.std.specs.List.{AllByRecursion, list_any};
ghost use Rattle.sq_meaning.specs.Environment.{same_name};
ghost use Rattle.sq_module.specs.declared.admission.AdmittedModule.{AdmittedModule as Admitted};
ghost use Rattle.sq_module.specs.Admitted.{AreAdmitted, OpensEachOnce, admitted_procedures, admitted_written, module_keys, opening_in, openings, procedure_names};
ghost use Rattle.sq_module.specs.Program.{AreNew, HaveNames, declared_procedures, module_procedures, name_in, names_in};
ghost use Rattle.sq_meaning.specs.Module.{procedure_in};
ghost use Rattle.sq_meaning.specs.ModuleRefusal.{first_module_refusal, first_repeated, has_status_fault, module_refusal, procedure_name};
ghost use Rattle.sq_meaning.specs.Schema.{is_among};
ghost use Rattle.sq_meaning.specs.Words.{is_some_and};
ghost use Rattle.sq_module.specs.FirstRefusal.{IsFaultFor, item_refusal, procedure_refusal};
ghost use Rattle.sq_module.specs.Written.{AreOfTexts, IsOfText, IsProcedureOf};
ghost use Rattle.sq_module.specs.Refusal.{AreAdmissible, IsAdmissible, IsOfModule, IsOfSomeModule, has_open_count};

use crate::declared::{has_bad_status, is_new, list_declarations};
use crate::items::{cursors_of, procedures_of};
use crate::opener::Openers;
use crate::refusal::{ModuleRefusal, SessionFault, refused_at};
use indexmap::{IndexMap, IndexSet};
use sq_bound::ParameterDesc;
use sq_items::Items;
use sq_lex::Name;
use sq_meaning::ModuleFault;
use sq_tree::{Cursor, ModuleItem, ModuleText, Procedure};
use std::alloc::{AllocError, Global};

/// A module that is not refused.
#[derive(Drop)]
pub struct AdmittedModule<'a> {
    pub name: Name,
    pub user: Name,
    /// Each of its cursors, by its name.
    pub cursors: IndexMap<Name, &'a Cursor>,
    pub procedures: Vec<AdmittedProcedure<'a>>,
}

/// A procedure, and its named parameters with their domains.
#[derive(Drop)]
pub struct AdmittedProcedure<'a> {
    pub procedure: &'a Procedure,
    pub parameters: Items<ParameterDesc>,
}

/// The modules, or the first refusal: module by module, and within a module in the order of `ModuleFault`.
pub fn admit<'a>(
    alloc: Global,
    modules: &'a [ModuleText],
) -> Result<Vec<AdmittedModule<'a>>, SessionFault>
    ensures names { IfOk result (λ _. HaveNames [] modules.now) }
    ensures declared { IfOk result
        (λ admitted. admitted_procedures admitted.items ≡ declared_procedures modules.now) }
    ensures written { IfOk result (λ admitted. AreOfTexts modules.now admitted.items) }
    ensures admitted { IfOk result (λ admitted. AreAdmitted [] admitted.items) }
    ensures admissible { IfOk result (λ _. AreAdmissible modules.now) }
    ensures refused { IfErr result (IsOfSomeModule (length modules.now)) }
    ensures taken { IfOk result (λ _. first_module_refusal modules.now ≡ None) }
    ensures first { IfErr result (IsFaultFor (first_module_refusal modules.now)) }
{
    let mut names = IndexSet::new(alloc);
    let admitted = admit_all(alloc, &mut names, modules);
    drop(names);
    admitted
}

/// The modules, whose names are added to those of earlier ones.
fn admit_all<'a>(
    alloc: Global,
    names: &mut IndexSet<Name>,
    modules: &'a [ModuleText],
) -> Result<Vec<AdmittedModule<'a>>, SessionFault>
    requires { names.old.keys ≡ [] }
    ensures names { IfOk result (λ _. HaveNames [] modules.now) }
    ensures declared { IfOk result
        (λ admitted. admitted_procedures admitted.items ≡ declared_procedures modules.now) }
    ensures written { IfOk result (λ admitted. AreOfTexts modules.now admitted.items) }
    ensures admitted { IfOk result (λ admitted. AreAdmitted [] admitted.items) }
    ensures admissible { IfOk result (λ _. AreAdmissible modules.now) }
    ensures refused { IfErr result (IsOfSomeModule (length modules.now)) }
    ensures first { MatchResult result (λ _. first_module_refusal modules.now ≡ None)
        (IsFaultFor (first_module_refusal modules.now)) }
{
    let mut admitted = Vec::new(alloc);
    for (text, module) in modules.iter().enumerate() {
        if let Err(fault) = admit_next(alloc, names, &mut admitted, text, module) {
            drop(admitted);
            return Err(fault);
        }
    }
    Ok(admitted)
}

/// Admits a module behind others of these names.
#[tactic(auto, using(crate::proofs::Names::admitted_more))]
fn admit_next<'a>(
    alloc: Global,
    names: &mut IndexSet<Name>,
    admitted: &mut Vec<AdmittedModule<'a>>,
    text: usize,
    module: &'a ModuleText,
) -> Result<(), SessionFault>
    ensures new { OnOk result ((list_any (same_name «module».now.name) names.old.keys ≡ false)
        × (names.new.keys ≡ names.old.keys ++ «module».now.name ∷ [])) }
    ensures names { OnOk result (AreNew [] (names_in «module».now.items)) }
    ensures declared { OnOk result
        (admitted_procedures admitted.new.items ≡ admitted_procedures admitted.old.items ++ module_procedures
        «module».now) }
    ensures written { OnOk result
        ((one : Admitted) × (admitted.new.items ≡ admitted.old.items ++ one ∷ []) × IsOfText «module».now
        one × OpensEachOnce one) }
    ensures admissible { OnOk result (IsAdmissible «module».now.items) }
    ensures refused { IfErr result (IsOfModule text) }
    ensures taken { OnOk result (module_refusal names.old.keys text «module».now ≡ None) }
    ensures first { IfErr result (IsFaultFor (module_refusal names.old.keys text «module».now)) }
{
    if !is_new(names, module.name)? {
        return Err(SessionFault::Refused(ModuleRefusal {
            fault: ModuleFault::TwoModules,
            text,
            item: None,
        }));
    }
    let one = admit_module(alloc, text, module)?;
    admitted.push(one)?;
    Ok(())
}

/// A module, or its first refusal: each one is looked for over the whole module before the next.
#[tactic(auto, using(crate::proofs::Names::admitted_of_module))]
fn admit_module<'a>(
    alloc: Global,
    text: usize,
    module: &'a ModuleText,
) -> Result<AdmittedModule<'a>, SessionFault>
    ensures names { IfOk result (λ _. AreNew [] (names_in «module».now.items)) }
    ensures declared { IfOk result (λ admitted. module_keys admitted ≡ module_procedures «module».now) }
    ensures written { IfOk result (IsOfText «module».now) }
    ensures once { IfOk result OpensEachOnce }
    ensures admissible { IfOk result (λ _. IsAdmissible «module».now.items) }
    ensures refused { IfErr result (IsOfModule text) }
    ensures taken { IfOk result (λ _. item_refusal text «module».now.items ≡ None) }
    ensures first { IfErr result (IsFaultFor (item_refusal text «module».now.items)) }
{
    let items = module.items.as_slice();
    let place = second_procedure(alloc, items)?;
    refused_at(ModuleFault::TwoProcedures, text, place)?;
    let cursors = cursors_of(alloc, text, items)?;
    match admit_procedures(alloc, text, items) {
        Ok(procedures) => Ok(AdmittedModule {
            name: module.name,
            user: module.authorization,
            cursors,
            procedures,
        }),
        Err(fault) => {
            drop(cursors);
            Err(fault)
        }
    }
}

/// The procedures of a module, whose cursors each have one opener.
fn admit_procedures<'a>(
    alloc: Global,
    text: usize,
    items: &'a [ModuleItem],
) -> Result<Vec<AdmittedProcedure<'a>>, SessionFault>
    ensures declared { IfOk result (λ admitted. procedure_names admitted.items ≡ names_in items.now) }
    ensures written { IfOk result (λ admitted. AllByRecursion (IsProcedureOf items.now) admitted.items) }
    ensures listed { IfOk result
        (λ admitted. admitted_written admitted.items ≡ filter_map procedure_in items.now) }
    ensures openings { IfOk result (λ admitted. openings admitted.items ≡ flat_map opening_in items.now) }
    ensures admissible { IfOk result (λ _. IsAdmissible items.now) }
    ensures refused { IfErr result (IsOfModule text) }
    ensures taken { IfOk result (λ _. procedure_refusal text items.now ≡ None) }
    ensures first { IfErr result (IsFaultFor (procedure_refusal text items.now)) }
{
    let place = without_one_opener(alloc, items)?;
    refused_at(ModuleFault::OpenCount, text, place)?;
    let place = with_bad_status(alloc, items)?;
    refused_at(ModuleFault::StatusParameter, text, place)?;
    procedures_of(alloc, text, items)
}

/// The first procedure that has the name of an earlier one.
fn second_procedure(alloc: Global, items: &[ModuleItem]) -> Result<Option<usize>, AllocError>
    ensures new { IfOk result (λ place. place ≡ None → AreNew [] (names_in items.now)) }
    ensures first { IfOk result (λ place. place ≡ first_repeated (map procedure_name items.now)) }
{
    let mut names = IndexSet::new(alloc);
    for (place, item) in items.iter().enumerate() {
        if !is_new_procedure(&mut names, item)? {
            return Ok(Some(place));
        }
    }
    Ok(None)
}

/// Adds the name of an item that is a procedure and returns whether it was new.
fn is_new_procedure(names: &mut IndexSet<Name>, item: &ModuleItem) -> Result<bool, AllocError>
    ensures new { IfOk result
        (λ is. is ≡ true
        → AllByRecursion (λ n. list_any (same_name n) names.old.keys ≡ false) (name_in item.now)) }
    ensures last { IfOk result (λ is. is ≡ true → names.new.keys ≡ names.old.keys ++ name_in item.now) }
    ensures repeated { IfOk result
        (λ is. not is ≡ is_some_and (is_among names.old.keys) (procedure_name item.now)) }
{
    match item {
        ModuleItem::Procedure(procedure) => is_new(names, procedure.name),
        ModuleItem::Cursor(_) => Ok(true),
    }
}

/// The first cursor that is opened by no procedure or by several.
fn without_one_opener(alloc: Global, items: &[ModuleItem]) -> Result<Option<usize>, AllocError>
    ensures { IfOk result (λ place. place ≡ position (has_open_count items.now) items.now) }
{
    let openers = Openers::of(alloc, items)?;
    let place = openers.first_without_one(items);
    drop(openers);
    Ok(place)
}

/// The first procedure without a status parameter, or with one twice.
fn with_bad_status(alloc: Global, items: &[ModuleItem]) -> Result<Option<usize>, AllocError>
    ensures { IfOk result (λ place. place ≡ position has_status_fault items.now) }
{
    for (place, item) in items.iter().enumerate() {
        if is_of_bad_status(alloc, item)? {
            return Ok(Some(place));
        }
    }
    Ok(None)
}

/// Whether the item is a procedure without a status parameter, or with one twice.
fn is_of_bad_status(alloc: Global, item: &ModuleItem) -> Result<bool, AllocError>
    ensures { IfOk result (λ is. is ≡ has_status_fault item.now) }
{
    match item {
        ModuleItem::Procedure(procedure) => {
            let declarations = list_declarations(alloc, &procedure.declarations)?;
            Ok(has_bad_status(declarations.as_slice()))
        }
        ModuleItem::Cursor(_) => Ok(false),
    }
}
