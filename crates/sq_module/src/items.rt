//! The cursors and the procedures of a module, or the first of them that is refused (ISO/IEC 9075:1992, 12.3 and 13.1).

ghost use Rattle.std.specs.Prelude.{◌≡◌, [], ◌∷◌, ◌++◌, true, false, IfErr, IfOk, List, None, OnOk, Some, filter_map, flat_map, map, option_to_list, position};
ghost use Rattle.std.specs.List.{AllByRecursion, IsAmong};
ghost use Rattle.std.specs.Map.{keys_of};
ghost use Rattle.sq_tree.specs.declared.module.ModuleItem.TheVariants.{Cursor as CursorItem};
ghost use Rattle.sq_tree.specs.declared.module.ModuleItem.{ModuleItem as AnyItem};
ghost use Rattle.sq_module.specs.Admitted.{admitted_written, cursors_written, opening_in, openings, procedure_names};
ghost use Rattle.sq_module.specs.Program.{name_in, names_in};
ghost use Rattle.sq_meaning.specs.Module.{cursor_in, declarations_of, parameter_declarations, procedure_in};
ghost use Rattle.sq_meaning.specs.ModuleRefusal.{at_item, cursor_name, first_repeated, has_bad_declared, has_bad_parameter};
ghost use Rattle.sq_meaning.specs.Schema.{is_among};
ghost use Rattle.sq_meaning.specs.Words.{is_some_and};
ghost use Rattle.sq_meaning.specs.declared.refusal.ModuleFault.TheVariants as fault;
ghost use Rattle.sq_module.specs.FirstRefusal.{IsFaultFor, IsFaultAt};
ghost use Rattle.sq_module.specs.Written.{Declare, IsCursorIn, IsProcedureOf};
ghost use Rattle.sq_module.specs.Refusal.{IsOfModule};

use crate::admission::AdmittedProcedure;
use crate::declared::{list_declarations, parameters_of};
use crate::refusal::{SessionFault, refusal_at};
use indexmap::IndexMap;
use sq_lex::Name;
use sq_meaning::ModuleFault;
use sq_tree::{Cursor, ModuleItem, Procedure};
use std::alloc::Global;

/// The cursors by their names, none of which has the name of an earlier one.
pub(crate) fn cursors_of<'a>(
    alloc: Global,
    text: usize,
    items: &'a [ModuleItem],
) -> Result<IndexMap<Name, &'a Cursor>, SessionFault>
    ensures refused { IfErr result (IsOfModule text) }
    ensures written { IfOk result (λ cursors. AllByRecursion (IsCursorIn items.now) cursors.entries) }
    ensures listed { IfOk result
        (λ cursors. cursors_written cursors.entries ≡ filter_map cursor_in items.now) }
    ensures taken { IfOk result (λ _. first_repeated (map cursor_name items.now) ≡ None) }
    ensures first { IfErr result
        (IsFaultFor (at_item text fault.TwoCursors (first_repeated (map cursor_name items.now)))) }
{
    let mut cursors = IndexMap::new(alloc);
    for (place, item) in items.iter().enumerate() {
        if let Err(fault) = add_item(&mut cursors, text, place, item) {
            drop(cursors);
            return Err(fault);
        }
    }
    Ok(cursors)
}

/// Adds an item, if it is a cursor.
fn add_item<'a>(
    cursors: &mut IndexMap<Name, &'a Cursor>,
    text: usize,
    place: usize,
    item: &'a ModuleItem,
) -> Result<(), SessionFault>
    ensures refused { IfErr result (IsOfModule text) }
    ensures written { (items : List AnyItem) → IsAmong items item.now
        → AllByRecursion (IsCursorIn items) cursors.old.entries
        → OnOk result (AllByRecursion (IsCursorIn items) cursors.new.entries) }
    ensures listed { OnOk result (cursors_written cursors.new.entries
        ≡ cursors_written cursors.old.entries ++ option_to_list (cursor_in item.now)) }
    ensures keys { OnOk result
        (keys_of cursors.new.entries ≡ keys_of cursors.old.entries ++ option_to_list (cursor_name item.now)) }
    ensures new { OnOk result
        (is_some_and (is_among (keys_of cursors.old.entries)) (cursor_name item.now) ≡ false) }
    ensures repeated { IfErr result (IsFaultAt text place fault.TwoCursors
        (is_some_and (is_among (keys_of cursors.old.entries)) (cursor_name item.now) ≡ true)) }
{
    match item {
        ModuleItem::Cursor(cursor) => add_cursor(cursors, text, place, cursor),
        ModuleItem::Procedure(_) => Ok(()),
    }
}

fn add_cursor<'a>(
    cursors: &mut IndexMap<Name, &'a Cursor>,
    text: usize,
    place: usize,
    cursor: &'a Cursor,
) -> Result<(), SessionFault>
    ensures refused { IfErr result (IsOfModule text) }
    ensures written { (items : List AnyItem) → IsAmong items (CursorItem cursor.now)
        → AllByRecursion (IsCursorIn items) cursors.old.entries
        → OnOk result (AllByRecursion (IsCursorIn items) cursors.new.entries) }
    ensures listed { OnOk result
        (cursors_written cursors.new.entries ≡ cursors_written cursors.old.entries ++ cursor.now ∷ []) }
    ensures keys { OnOk result
        (keys_of cursors.new.entries ≡ keys_of cursors.old.entries ++ cursor.now.name ∷ []) }
    ensures new { OnOk result (is_among (keys_of cursors.old.entries) cursor.now.name ≡ false) }
    ensures repeated { IfErr result (IsFaultAt text place fault.TwoCursors
        (is_among (keys_of cursors.old.entries) cursor.now.name ≡ true)) }
{
    match cursors.insert(cursor.name, cursor) {
        Ok(None) => Ok(()),
        Ok(Some(_)) => Err(refusal_at(ModuleFault::TwoCursors, text, place)),
        Err(_) => Err(SessionFault::NoMemory),
    }
}

/// The procedures with their parameters, or the refusal of the first that has a parameter declared twice or of a bad type,
/// or too many.
pub(crate) fn procedures_of<'a>(
    alloc: Global,
    text: usize,
    items: &'a [ModuleItem],
) -> Result<Vec<AdmittedProcedure<'a>>, SessionFault>
    ensures declared { IfOk result (λ admitted. procedure_names admitted.items ≡ names_in items.now) }
    ensures written { IfOk result (λ admitted. AllByRecursion (IsProcedureOf items.now) admitted.items) }
    ensures listed { IfOk result
        (λ admitted. admitted_written admitted.items ≡ filter_map procedure_in items.now) }
    ensures openings { IfOk result (λ admitted. openings admitted.items ≡ flat_map opening_in items.now) }
    ensures refused { IfErr result (IsOfModule text) }
    ensures taken { IfOk result (λ _. position has_bad_parameter items.now ≡ None) }
    ensures first { IfErr result
        (IsFaultFor (at_item text fault.BadParameter (position has_bad_parameter items.now))) }
{
    let mut procedures = Vec::new(alloc);
    for (place, item) in items.iter().enumerate() {
        if let Err(fault) = add_procedure(alloc, &mut procedures, text, place, item) {
            drop(procedures);
            return Err(fault);
        }
    }
    Ok(procedures)
}

/// Adds an item, if it is a procedure.
fn add_procedure<'a>(
    alloc: Global,
    procedures: &mut Vec<AdmittedProcedure<'a>>,
    text: usize,
    place: usize,
    item: &'a ModuleItem,
) -> Result<(), SessionFault>
    ensures names { OnOk result
        (procedure_names procedures.new.items ≡ procedure_names procedures.old.items ++ name_in item.now) }
    ensures openings { OnOk result
        (openings procedures.new.items ≡ openings procedures.old.items ++ opening_in item.now) }
    ensures written { (items : List AnyItem) → IsAmong items item.now
        → AllByRecursion (IsProcedureOf items) procedures.old.items
        → OnOk result (AllByRecursion (IsProcedureOf items) procedures.new.items) }
    ensures listed { OnOk result (admitted_written procedures.new.items
        ≡ admitted_written procedures.old.items ++ option_to_list (procedure_in item.now)) }
    ensures refused { IfErr result (IsOfModule text) }
    ensures good { OnOk result (has_bad_parameter item.now ≡ false) }
    ensures bad { IfErr result (IsFaultAt text place fault.BadParameter (has_bad_parameter item.now ≡ true)) }
{
    match item {
        ModuleItem::Procedure(procedure) => {
            let one = admit_procedure(alloc, text, place, procedure)?;
            procedures.push(one)?;
            Ok(())
        }
        ModuleItem::Cursor(_) => Ok(()),
    }
}

/// Checks the parameters of a procedure.
fn admit_procedure<'a>(
    alloc: Global,
    text: usize,
    place: usize,
    procedure: &'a Procedure,
) -> Result<AdmittedProcedure<'a>, SessionFault>
    ensures same { IfOk result (λ admitted. admitted.procedure.now ≡ procedure.now) }
    ensures parameters { IfOk result
        (λ admitted. Declare (declarations_of procedure.now.declarations) admitted.parameters) }
    ensures refused { IfErr result (IsOfModule text) }
    ensures good { IfOk result (λ _. has_bad_declared (parameter_declarations procedure.now) ≡ false) }
    ensures bad { IfErr result (IsFaultAt text place fault.BadParameter
        (has_bad_declared (parameter_declarations procedure.now) ≡ true)) }
{
    let declarations = list_declarations(alloc, &procedure.declarations)?;
    let parameters = parameters_of(alloc, declarations.as_slice());
    drop(declarations);
    match parameters? {
        Some(parameters) => Ok(AdmittedProcedure {
            procedure,
            parameters,
        }),
        None => Err(refusal_at(ModuleFault::BadParameter, text, place)),
    }
}
