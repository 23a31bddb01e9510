//! The parameters of a call: which values they take, and at which they start (ISO/IEC 9075:1992, 12.3).

ghost use Rattle.std.specs.Prelude.{◌≡◌, ◌==◌, false, true, map, IfOk, OnOk};
ghost use Rattle.std.specs.List.{list_all};
ghost use Rattle.sq_value.specs.Memory.{takes_memory};
ghost use Rattle.sq_value.specs.Text.{only_blanks_past};
ghost use Rattle.sq_meaning.specs.Parameter.{started};
ghost use Rattle.sq_meaning.specs.Script.{fit, fits_in};
ghost use Rattle.sq_bound.specs.WellFormed.{kinds_of_parameters};
ghost use Rattle.sq_session.specs.Parameter.{AreGiven, declared, started_values};

use sq_bound::{ParameterDesc, fits_kind};
use sq_items::Items;
use sq_value::{Domain, StoreFault, Value, start_value, store};
use std::alloc::{AllocError, Global};

/// Whether there are as many values as parameters, each null or one that its parameter can store.
pub(crate) fn all_fit(alloc: Global, parameters: &[ParameterDesc], values: &[Value]) -> bool
    ensures { result ≡ fit (map declared parameters.now) values.now }
{
    if parameters.len() != values.len() {
        return false;
    }
    for (place, parameter) in parameters.iter().enumerate() {
        if !fits(alloc, *parameter, &values[place]) {
            return false;
        }
    }
    true
}

/// Whether the value is null or one that the parameter can store.
#[tactic(auto, using(crate::proofs::Parameters::Fitting::text_kept, crate::proofs::Parameters::Fitting::text_cut))]
fn fits(alloc: Global, parameter: ParameterDesc, value: &Value) -> bool
    ensures { result ≡ fits_in parameter.domain value.now }
{
    match value {
        Value::Null => true,
        Value::Num(_) => number_fits(alloc, parameter, value),
        Value::Chars(text) => match parameter.domain {
            Domain::Char(length) | Domain::VarChar(length) => {
                has_only_blanks_past(text.codes(), length as usize)
            }
            Domain::Small | Domain::Int | Domain::Numeric(..) => false,
        },
    }
}

/// Whether the parameter can store the number.
#[tactic(auto, using(crate::proofs::Parameters::Fitting::number_stored, crate::proofs::Parameters::Fitting::number_unfit))]
fn number_fits(alloc: Global, parameter: ParameterDesc, number: &Value) -> bool
    requires { takes_memory number.now ≡ false }
    ensures { result ≡ fits_in parameter.domain number.now }
{
    fits_kind(parameter.domain, number) && store(alloc, number, parameter.domain).is_ok()
}

/// Whether only blanks come after the first `length` codes.
fn has_only_blanks_past(codes: &[u8], length: usize) -> bool
    ensures { result ≡ only_blanks_past length codes.now }
{
    codes.len() <= length || are_blanks(&codes[length..])
}

fn are_blanks(codes: &[u8]) -> bool
    ensures { result ≡ list_all (λ c. c == 32) codes.now }
{
    codes.iter().all(|code| *code == b' ')
}

/// The values at which the parameters start.
pub fn started_values(
    alloc: Global,
    parameters: &[ParameterDesc],
    values: &[Value],
) -> Result<Items<Value>, AllocError>
    requires { fit (map declared parameters.now) values.now ≡ true }
    ensures started { IfOk result (λ started. started ≡ started_values parameters.now values.now) }
    ensures given { IfOk result (AreGiven (kinds_of_parameters parameters.now)) }
{
    let mut started = Vec::new(alloc);
    start_values(alloc, parameters, values, &mut started)?;
    Ok(Items::from_vec(started))
}

/// Puts the values at which the parameters start into a list, in the place of what it has.
pub(crate) fn start_values(
    alloc: Global,
    parameters: &[ParameterDesc],
    values: &[Value],
    started: &mut Vec<Value>,
) -> Result<(), AllocError>
    requires { fit (map declared parameters.now) values.now ≡ true }
    ensures started { OnOk result (started.new.items ≡ started_values parameters.now values.now) }
    ensures given { OnOk result (AreGiven (kinds_of_parameters parameters.now) started.new.items) }
{
    started.clear();
    started.reserve(parameters.len())?;
    for (parameter, value) in parameters.iter().zip(values) {
        started.push(started_value(alloc, *parameter, value)?)?;
    }
    Ok(())
}

/// What is handed in, stored; null starts a parameter at zero, at blanks or at the empty text (own rule).
#[tactic(auto, using(crate::proofs::Parameters::Started::starts_null, crate::proofs::Parameters::Started::starts_stored, crate::proofs::Parameters::Fitting::kind_fits, crate::proofs::Parameters::Fitting::is_stored))]
fn started_value(
    alloc: Global,
    parameter: ParameterDesc,
    value: &Value,
) -> Result<Value, AllocError>
    requires { fits_in parameter.domain value.now ≡ true }
    ensures { IfOk result (λ v. v ≡ started parameter.domain value.now) }
{
    match value {
        Value::Null => start_value(alloc, parameter.domain),
        _ => match store(alloc, value, parameter.domain) {
            Ok(stored) => Ok(stored),
            Err(StoreFault::NoMemory) => Err(AllocError),
            Err(StoreFault::Range | StoreFault::TooLong) => unreachable!(),
        },
    }
}
