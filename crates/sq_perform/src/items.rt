//! From a script's items to calls and tables that are there.
ghost use Rattle.std.specs.Prelude.{◌≡◌, map, IfErr, IfOk};
ghost use Rattle.sq_tree.specs.declared.script.ScriptItem.TheVariants as script;
ghost use Rattle.sq_meaning.specs.Spelled.{listed};
ghost use Rattle.sq_meaning.specs.Script as model;
ghost use Rattle.sq_meaning.specs.Run.{item_of_script};
ghost use Rattle.sq_perform.specs.Action.{item_of};
ghost use Rattle.sq_perform.specs.Fault.{IsItemFault};
ghost use Rattle.sq_perform.specs.Items.{IsTaken, item_fault};
ghost use Rattle.sq_perform.specs.Steps.{IsPrepared};

use crate::action::{Action, CallAction, ShowAction};
use crate::fault::Fault;
use crate::refusal::RefusalName;
use sq_binder::{signed_value, text_value};
use sq_items::Items;
use sq_lex::Name;
use sq_session::Session;
use sq_store::Store;
use sq_tree::{Argument, Arguments, CommaList, ScriptItem};
use sq_value::Value;
use std::alloc::{AllocError, Global};

/// Why an item is not taken.
pub(crate) type ItemFault = Fault<RefusalName>;

/// An item with its names looked up.
pub(crate) fn action_of<S: Store>(
    alloc: Global,
    session: &Session<S>,
    item: &ScriptItem,
) -> Result<Action, ItemFault>
    ensures action { IfOk result
        (λ action. item_of session.now.procedures session.now.tables action ≡ item_of_script item.now) }
    ensures prepared { IfOk result (IsPrepared session.now) }
    ensures taken { IfOk result (λ _. IsTaken session.now item.now) }
    ensures refused { IfErr result (IsItemFault (item_fault session.now item.now)) }
{
    match item {
        ScriptItem::Call {
            module,
            procedure,
            arguments,
        } => find_call(alloc, session, *module, *procedure, arguments),
        ScriptItem::Table { schema, table } => find_table(session, *schema, *table),
    }
}

/// An item CALL with its procedure looked up.
#[tactic(auto, using(crate::proofs::Taken::call_of_known))]
fn find_call<S: Store>(
    alloc: Global,
    session: &Session<S>,
    module: Name,
    name: Name,
    arguments: &Arguments,
) -> Result<Action, ItemFault>
    ensures action { IfOk result
        (λ action. item_of session.now.procedures session.now.tables action
        ≡ item_of_script (script.Call «module» name arguments.now)) }
    ensures prepared { IfOk result (IsPrepared session.now) }
    ensures taken { IfOk result (λ _. IsTaken session.now (script.Call «module» name arguments.now)) }
    ensures refused { IfErr result
        (IsItemFault (item_fault session.now (script.Call «module» name arguments.now))) }
{
    let Some(procedure) = session.procedure(module, name) else {
        return Err(ItemFault::Refused(RefusalName::UnknownProcedure));
    };
    let values = values_of(alloc, arguments)?;
    if !session.fits(procedure, values.as_slice()) {
        return Err(ItemFault::Refused(RefusalName::BadArguments));
    }
    Ok(Action::Call(CallAction { procedure, values }))
}

/// An item TABLE with its table looked up.
fn find_table<S: Store>(session: &Session<S>, user: Name, name: Name) -> Result<Action, ItemFault>
    ensures action { IfOk result
        (λ action. item_of session.now.procedures session.now.tables action
        ≡ item_of_script (script.Table user name)) }
    ensures prepared { IfOk result (IsPrepared session.now) }
    ensures taken { IfOk result (λ _. IsTaken session.now (script.Table user name)) }
    ensures refused { IfErr result (IsItemFault (item_fault session.now (script.Table user name))) }
{
    match session.table(user, name) {
        Some(table) => Ok(Action::Show(ShowAction { table })),
        None => Err(ItemFault::Refused(RefusalName::UnknownTable)),
    }
}

/// The values of a call's arguments.
fn values_of(alloc: Global, arguments: &Arguments) -> Result<Items<Value>, AllocError>
    ensures { IfOk result (λ values. values ≡ model.argument_values arguments.now) }
{
    match arguments {
        Arguments::Unwritten | Arguments::Empty => Ok(Items::new(alloc)),
        Arguments::Listed(arguments) => listed_values(alloc, arguments),
    }
}

fn listed_values(alloc: Global, arguments: &CommaList<Argument>) -> Result<Items<Value>, AllocError>
    ensures { IfOk result (λ values. values ≡ map model.argument_value (listed arguments.now)) }
{
    let rest = arguments.rest.as_slice();
    let count = rest.len().saturating_add(1);
    let mut values = Items::from_vec(Vec::with_capacity(alloc, count)?);
    values.push(value_of(alloc, &arguments.first)?)?;
    for argument in rest {
        values.push(value_of(alloc, argument)?)?;
    }
    Ok(values)
}

fn value_of(alloc: Global, argument: &Argument) -> Result<Value, AllocError>
    ensures { IfOk result (λ v. v ≡ model.argument_value argument.now) }
{
    match argument {
        Argument::Null => Ok(Value::Null),
        Argument::Number(number) => Ok(Value::Num(signed_value(*number))),
        Argument::Text(characters) => text_value(alloc, characters),
    }
}
