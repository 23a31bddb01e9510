//! The remarks on modules (ISO/IEC 9075:1992, 12.1).

ghost use Rattle.std.specs.Prelude.{◌≡◌, IfErr, IfOk, MatchResult, None, OnOk, length};
ghost use Rattle.std.specs.List.{AllZip};
ghost use Rattle.std.specs.Map.{keys_of};
ghost use Rattle.sq_catalog.specs.Catalog.{column_kinds, known};
ghost use Rattle.sq_module.specs.FirstRefusal.{IsFaultFor};
ghost use Rattle.sq_module.specs.Program.{ProgramIsWellFormed, declared_procedures};
ghost use Rattle.sq_module.specs.Refusal.{IsOfSomeModule};
ghost use Rattle.sq_module.specs.Written.{IsOfTexts};
ghost use Rattle.sq_meaning.specs.ModuleRefusal.{first_module_refusal};
ghost use Rattle.sq_check.specs.Modules.{AreChecked, AreMarks, AreOpeners, IsMarkAdded};
ghost use Rattle.sq_check.specs.Remark.{IsCursorRemark, procedure_remark};

use crate::cursor::cursor_remark;
use crate::mark::Mark;
use crate::opener::{Openers, openers_of, parameters_for};
use crate::remark::Remark;
use sq_catalog::Catalog;
use sq_items::Items;
use sq_lex::Name;
use sq_module::{ProcedureName, Program, SessionFault, admit};
use sq_spell::{module_item_start, token_count};
use sq_tree::{Cursor, ModuleItem, ModuleText};
use std::alloc::{AllocError, Global};

/// The remarks on each item of modules, or their first refusal.
#[tactic(auto, using(crate::proofs::Modules::are_checked))]
pub fn check_modules(
    alloc: Global,
    catalog: &Catalog,
    modules: &[ModuleText],
) -> Result<Vec<Items<Mark>>, SessionFault>
    ensures checked { IfOk result (λ marks. AreChecked catalog.now modules.now marks.items) }
    ensures refused { IfErr result (IsOfSomeModule (length modules.now)) }
    ensures first { MatchResult result (λ _. first_module_refusal modules.now ≡ None)
        (IsFaultFor (first_module_refusal modules.now)) }
{
    let program = program_of(alloc, catalog, modules)?;
    let marks = all_marks(alloc, catalog, &program, modules);
    drop(program);
    match marks {
        Ok(marks) => Ok(marks),
        Err(_) => Err(SessionFault::NoMemory),
    }
}

/// The procedures of modules as they are bound, or the first refusal.
#[tactic(auto, using(sq_module::proofs::Names::all_declared))]
fn program_of(
    alloc: Global,
    catalog: &Catalog,
    modules: &[ModuleText],
) -> Result<Program, SessionFault>
    ensures procedures { IfOk result
        (λ program. keys_of program.procedures.entries ≡ declared_procedures modules.now) }
    ensures written { IfOk result (IsOfTexts (known catalog.now) modules.now) }
    ensures well_formed { IfOk result (ProgramIsWellFormed (column_kinds catalog.now)) }
    ensures refused { IfErr result (IsOfSomeModule (length modules.now)) }
    ensures first { MatchResult result (λ _. first_module_refusal modules.now ≡ None)
        (IsFaultFor (first_module_refusal modules.now)) }
{
    let admitted = admit(alloc, modules)?;
    let program = Program::bind(alloc, catalog, admitted.as_slice());
    drop(admitted);
    Ok(program?)
}

fn all_marks(
    alloc: Global,
    catalog: &Catalog,
    program: &Program,
    modules: &[ModuleText],
) -> Result<Vec<Items<Mark>>, AllocError>
    ensures { IfOk result (λ marks. AllZip (AreMarks catalog.now program.now) modules.now marks.items) }
{
    let mut marks = Vec::new(alloc);
    for text in modules {
        marks.push(module_marks(alloc, catalog, program, text)?)?;
    }
    Ok(marks)
}

fn module_marks(
    alloc: Global,
    catalog: &Catalog,
    program: &Program,
    module: &ModuleText,
) -> Result<Items<Mark>, AllocError>
    ensures { IfOk result (AreMarks catalog.now program.now «module».now) }
{
    let openers = openers_of(alloc, program, module)?;
    let marks = item_marks(alloc, catalog, program, module, &openers);
    drop(openers);
    marks
}

/// The items of a module, one after the other.
fn item_marks(
    alloc: Global,
    catalog: &Catalog,
    program: &Program,
    module: &ModuleText,
    openers: &Openers<'_>,
) -> Result<Items<Mark>, AllocError>
    requires { AreOpeners program.now «module».now openers.now.entries }
    ensures { IfOk result (AreMarks catalog.now program.now «module».now) }
{
    let mut marks = Items::new(alloc);
    let mut token = module_item_start(module, 0);
    for item in module.items.as_slice() {
        add_mark(
            alloc, catalog, program, module, openers, token, item, &mut marks,
        )?;
        token = token.saturating_add(token_count(item));
    }
    Ok(marks)
}

/// Adds the mark of an item of a module that begins at this token.
fn add_mark(
    alloc: Global,
    catalog: &Catalog,
    program: &Program,
    module: &ModuleText,
    openers: &Openers<'_>,
    token: usize,
    item: &ModuleItem,
    marks: &mut Items<Mark>,
) -> Result<(), AllocError>
    requires { AreOpeners program.now «module».now openers.now.entries }
    ensures { OnOk result
        (IsMarkAdded catalog.now program.now «module».now token item.now marks.old marks.new) }
{
    match item {
        ModuleItem::Procedure(procedure) => marks.push(Mark {
            token,
            owner: module.name,
            name: procedure.name,
            remark: procedure_remark(program, module.name, procedure.name),
        }),
        ModuleItem::Cursor(cursor) => marks.push(Mark {
            token,
            owner: module.name,
            name: cursor.name,
            remark: Some(opened_remark(alloc, catalog, program, module, openers, cursor)?),
        }),
    }
}

/// The fault of a procedure, if its statement has one.
fn procedure_remark(program: &Program, module: Name, name: Name) -> Option<Remark>
    ensures { result ≡ procedure_remark program.now «module» name }
{
    let procedure = program.procedures.get(&ProcedureName { module, name })?;
    match &procedure.statement {
        Ok(_) => None,
        Err(fault) => Some(Remark::Fault(*fault)),
    }
}

/// The remark on a cursor of a module, for the parameters of the procedure that opens it.
#[tactic(auto, using(crate::proofs::Cursors::where_opened))]
fn opened_remark(
    alloc: Global,
    catalog: &Catalog,
    program: &Program,
    module: &ModuleText,
    openers: &Openers<'_>,
    cursor: &Cursor,
) -> Result<Remark, AllocError>
    requires { AreOpeners program.now «module».now openers.now.entries }
    ensures { IfOk result (IsCursorRemark catalog.now program.now «module».now cursor.now) }
{
    let parameters = parameters_for(openers, cursor.name);
    match cursor_remark(alloc, catalog, module.authorization, parameters, cursor) {
        Ok(remark) => Ok(remark),
        Err(error) => Err(error),
    }
}
