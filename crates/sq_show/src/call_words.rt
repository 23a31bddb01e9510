//! A call, as a script writes it.
ghost use Rattle.std.specs.Prelude.{◌≡◌, ◌++◌, OnOk, codes, flat_map};
ghost use Rattle.sq_show.specs.CallWords as spec;
ghost use Rattle.sq_perform.specs.Action.{named_call};

use sq_perform::write_value;
use sq_session::ProcedureName;
use sq_value::Value;
use std::alloc::{AllocError, Global};

/// Adds a call of a procedure with these values as a script writes it, with `*` for a value that is not given.
pub(crate) fn push_call(
    alloc: Global,
    procedure: ProcedureName,
    values: &[Value],
    notes: &mut Vec<u8>,
) -> Result<(), AllocError>
    ensures { OnOk result (notes.new.items ≡ notes.old.items
        ++ spec.call_words (named_call procedure values.now)) }
{
    notes.extend_from_slice(b"CALL ")?;
    notes.extend_from_slice(procedure.module.codes())?;
    notes.push(b'.')?;
    notes.extend_from_slice(procedure.name.codes())?;
    push_arguments(alloc, values, notes)
}

/// Adds the values of a call in brackets, if there are any.
fn push_arguments(alloc: Global, values: &[Value], notes: &mut Vec<u8>) -> Result<(), AllocError>
    ensures { OnOk result (notes.new.items ≡ notes.old.items ++ spec.arguments values.now) }
{
    match values {
        [] => Ok(()),
        [first, others @ ..] => {
            notes.extend_from_slice(b" (")?;
            push_argument(alloc, first, notes)?;
            push_others(alloc, others, notes)?;
            notes.extend_from_slice(b")")
        }
    }
}

/// Adds the values behind the first, each behind a comma.
fn push_others(alloc: Global, values: &[Value], notes: &mut Vec<u8>) -> Result<(), AllocError>
    ensures { OnOk result (notes.new.items ≡ notes.old.items ++ flat_map spec.other_argument values.now) }
{
    for value in values {
        notes.extend_from_slice(b", ")?;
        push_argument(alloc, value, notes)?;
    }
    Ok(())
}

fn push_argument(alloc: Global, value: &Value, notes: &mut Vec<u8>) -> Result<(), AllocError>
    ensures { OnOk result (notes.new.items ≡ notes.old.items ++ spec.argument value.now) }
{
    match value {
        Value::Null => notes.extend_from_slice(b"*"),
        Value::Num(_) | Value::Chars(_) => write_value(alloc, value, notes),
    }
}
