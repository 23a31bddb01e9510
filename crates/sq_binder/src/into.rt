//! The targets of INTO: the parameters that get the values of a row, and their indicator parameters (ISO/IEC 9075:1992, 6.2,
//! 13.3 and 13.5).

ghost use Rattle.std.specs.Prelude.{◌≡◌, false, is_some, map, nat_eq};
ghost use Rattle.sq_meaning.specs.Spelled.{listed};
ghost use Rattle.sq_meaning.specs.Words.{has_twice};
ghost use Rattle.sq_binding.specs.Targets.{target_bound, targets_bound};
ghost use Rattle.sq_binder.specs.Binds.{Binds};
ghost use Rattle.sq_binder.specs.Scope.{declared_of};
ghost use Rattle.sq_binder.specs.Target.{all_set, indicator_again, is_set_again, is_set_in, kinds_shown, set_unless, sets, target_step};
ghost use Rattle.sq_binding.specs.SeenQuery.{output_seen};

use crate::{Stop, are_comparable, indicator_of, parameter_of, push_item};
use sq_bound::{Output, ParameterDesc, ResultColumn};
use sq_items::Items;
use sq_lex::Name;
use sq_meaning::BindingFault;
use sq_tree::{CommaList, Parameter};
use sq_value::Kind;
use std::alloc::Global;

/// The targets of columns: as many, each of a kind that agrees, and no parameter is set twice.
pub fn targets_of(
    alloc: Global,
    targets: &CommaList<Parameter>,
    columns: &[ResultColumn],
    parameters: &[ParameterDesc],
) -> Result<Items<Output>, Stop>
    ensures { Binds (map output_seen) (targets_bound (map declared_of parameters.now) (listed targets.now)
        (kinds_shown columns.now)) result }
{
    let Some((first, others)) = columns.split_first() else {
        return Err(Stop::broken(BindingFault::CountMismatch));
    };
    let rest = targets.rest.as_slice();
    if rest.len() != others.len() {
        return Err(Stop::broken(BindingFault::CountMismatch));
    }
    let mut outputs = with_target(Items::new(alloc), &targets.first, first.kind, parameters)?;
    for (number, target) in rest.iter().enumerate() {
        match with_target(outputs, target, others[number].kind, parameters) {
            Ok(more) => outputs = more,
            Err(stop) => return Err(stop),
        }
    }
    Ok(outputs)
}

/// The targets with a further one, for a column of this kind.
fn with_target(
    outputs: Items<Output>,
    target: &Parameter,
    kind: Kind,
    parameters: &[ParameterDesc],
) -> Result<Items<Output>, Stop>
    requires { has_twice nat_eq (all_set (map output_seen outputs)) ≡ false }
    ensures { Binds (map output_seen) (target_step (map declared_of parameters.now) (map output_seen outputs)
        (target.now, kind)) result }
{
    match target_of(target, kind, parameters) {
        Ok(output) => {
            let again = set_again(outputs.as_slice(), target, output);
            with_output(outputs, output, again)
        }
        Err(stop) => {
            drop(outputs);
            Err(stop)
        }
    }
}

/// A parameter whose kind agrees with the kind of its column.
fn target_of(target: &Parameter, kind: Kind, parameters: &[ParameterDesc]) -> Result<Output, Stop>
    ensures { Binds output_seen
        (target_bound (map declared_of parameters.now) (target.now, kind)) result }
{
    let (position, parameter) = parameter_of(parameters, target.name)?;
    let indicator = indicator_of(parameters, target.indicator)?;
    if are_comparable(parameter.domain.kind(), kind) {
        Ok(Output {
            parameter: position,
            indicator,
        })
    } else {
        Err(Stop::broken(BindingFault::KindMismatch))
    }
}

/// The targets and a further one, if it sets no parameter again.
fn with_output(
    outputs: Items<Output>,
    output: Output,
    again: Option<Name>,
) -> Result<Items<Output>, Stop>
    ensures { Binds (map output_seen)
        (set_unless (is_some again) (map output_seen outputs) (output_seen output)) result }
{
    if let Some(name) = again {
        drop(outputs);
        return Err(Stop::about(BindingFault::TargetTwice, name));
    }
    Ok(push_item(outputs, output)?)
}

/// The parameter that a target sets though one before it sets it, or though it is its own indicator.
fn set_again(outputs: &[Output], target: &Parameter, output: Output) -> Option<Name>
    ensures { is_some result ≡ is_set_again outputs.now output }
{
    if is_set(outputs, output.parameter) {
        return Some(target.name);
    }
    if is_indicator_set(outputs, output.parameter, output.indicator) {
        return Some(indicator_name(target));
    }
    None
}

/// The name of a target's indicator, or of the target if it has none.
fn indicator_name(target: &Parameter) -> Name {
    match target.indicator {
        Some(indicator) => indicator.name,
        None => target.name,
    }
}

fn is_indicator_set(outputs: &[Output], parameter: usize, indicator: Option<usize>) -> bool
    ensures { result ≡ indicator_again outputs.now parameter indicator }
{
    match indicator {
        Some(indicator) => parameter == indicator || is_set(outputs, indicator),
        None => false,
    }
}

/// Whether a parameter is among targets or their indicators.
fn is_set(outputs: &[Output], parameter: usize) -> bool
    ensures { result ≡ is_set_in outputs.now parameter }
{
    outputs.iter().any(|output| sets(output, parameter))
}

fn sets(output: &Output, parameter: usize) -> bool
    ensures { result ≡ sets parameter output.now }
{
    output.parameter == parameter || output.indicator == Some(parameter)
}
