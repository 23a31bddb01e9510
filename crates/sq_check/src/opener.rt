//! The procedures that open the cursors of a module (ISO/IEC 9075:1992, 13.2).

ghost use Rattle.std.specs.Prelude.{◌≡◌, IfOk, OnOk};
ghost use Rattle.std.specs.List.{IsAmong};
ghost use Rattle.indexmap.specs.IndexMap.{insert_entry};
ghost use Rattle.sq_tree.specs.declared.module.ModuleText.{ModuleText as AnyModule};
ghost use Rattle.sq_meaning.specs.Environment.{same_name};
ghost use Rattle.sq_module.specs.declared.program.Program.{Program as AnyProgram};
ghost use Rattle.sq_check.specs.Modules.{AreOpeners};
ghost use Rattle.sq_check.specs.Remark.{AreParametersFor};

use indexmap::IndexMap;
use sq_bound::ParameterDesc;
use sq_lex::Name;
use sq_module::{BoundProcedure, ProcedureName, Program};
use sq_tree::{ModuleItem, ModuleText, Statement};
use std::alloc::{AllocError, Global};

/// For each cursor that a procedure of a module opens, that bound procedure.
pub(crate) type Openers<'p> = IndexMap<Name, &'p BoundProcedure>;

pub(crate) fn openers_of<'p>(
    alloc: Global,
    program: &'p Program,
    module: &ModuleText,
) -> Result<Openers<'p>, AllocError>
    ensures { IfOk result (λ openers. AreOpeners program.now «module».now openers.entries) }
{
    let mut openers = IndexMap::new(alloc);
    for item in module.items.as_slice() {
        add_opener(&mut openers, program, module.name, item)?;
    }
    Ok(openers)
}

/// Adds an item of a module, if it is a procedure that opens a cursor.
fn add_opener<'p>(
    openers: &mut Openers<'p>,
    program: &'p Program,
    module: Name,
    item: &ModuleItem,
) -> Result<(), AllocError>
    ensures { (m : AnyModule) → m.name ≡ «module» → IsAmong m.items item.now
        → AreOpeners program.now m openers.old.entries
        → OnOk result (AreOpeners program.now m openers.new.entries) }
{
    let ModuleItem::Procedure(procedure) = item else {
        return Ok(());
    };
    let Statement::Open(cursor) = &procedure.statement else {
        return Ok(());
    };
    let name = ProcedureName {
        module,
        name: procedure.name,
    };
    match program.procedures.get(&name) {
        Some(bound) => insert(openers, *cursor, bound),
        None => Ok(()),
    }
}

fn insert<'p>(
    openers: &mut Openers<'p>,
    cursor: Name,
    bound: &'p BoundProcedure,
) -> Result<(), AllocError>
    ensures { OnOk result
        (openers.new.entries ≡ insert_entry same_name openers.old.entries cursor bound.entry) }
{
    match openers.insert(cursor, bound) {
        Ok(_) => Ok(()),
        Err(_) => Err(AllocError),
    }
}

/// The parameters of the procedure that opens a cursor.
pub(crate) fn parameters_for<'p>(openers: &Openers<'p>, cursor: Name) -> &'p [ParameterDesc]
    ensures { (p : AnyProgram) (m : AnyModule) → AreOpeners p m openers.now.entries
        → AreParametersFor p m cursor result.now }
{
    match openers.get(&cursor) {
        Some(procedure) => procedure.parameters.as_slice(),
        None => &[],
    }
}
