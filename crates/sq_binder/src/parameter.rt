//! Parameters and their indicators (ISO/IEC 9075:1992, 6.2).

ghost use Rattle.std.specs.Prelude.{◌≡◌, map};
ghost use Rattle.std.specs.List.{position};
ghost use Rattle.sq_meaning.specs.Environment.{same_name};
ghost use Rattle.sq_meaning.specs.Binding.{is_indicator_domain};
ghost use Rattle.sq_binding.specs.Expression as spec;
ghost use Rattle.sq_binder.specs.Binds.{Binds};
ghost use Rattle.sq_binder.specs.Bound.{bound_of};
ghost use Rattle.sq_binder.specs.Scope.{declared_of, named_of};

use crate::bound::{Bound, ExprResult};
use crate::findings::Findings;
use crate::stop::Stop;
use sq_bound::{BoundExpr, Input, ParameterDesc};
use sq_lex::Name;
use sq_meaning::BindingFault;
use sq_tree::{Indicator, Parameter};
use sq_value::Domain;
use std::alloc::Global;

/// The position of the parameter of a name.
fn position_of(parameters: &[ParameterDesc], name: Name) -> Option<usize>
    ensures { result ≡ position (λ p. same_name p.name name) parameters.now }
{
    parameters
        .iter()
        .position(|parameter| parameter.name == name)
}

/// The parameter of a name, and its position.
#[tactic(auto, using(crate::proofs::OneByOne::Positions::seen))]
pub fn parameter_of(
    parameters: &[ParameterDesc],
    name: Name,
) -> Result<(usize, ParameterDesc), Stop>
    ensures { Binds named_of (spec.parameter_named (map declared_of parameters.now) name) result }
{
    let Some(position) = position_of(parameters, name) else {
        return Err(Stop::about(BindingFault::UnknownParameter, name));
    };
    match parameters.get(position).copied() {
        Some(parameter) => Ok((position, parameter)),
        None => Err(Stop::about(BindingFault::UnknownParameter, name)),
    }
}

/// Whether an indicator parameter may have the domain: SMALLINT, INTEGER, or NUMERIC(p, 0) with p at least 3 (own rule).
fn is_indicator_domain(domain: Domain) -> bool
    ensures { result ≡ is_indicator_domain domain }
{
    match domain {
        Domain::Small | Domain::Int => true,
        Domain::Numeric(precision, scale) => precision >= 3 && scale == 0,
        Domain::Char(_) | Domain::VarChar(_) => false,
    }
}

/// The position of an indicator parameter, if one is written.
pub fn indicator_of(
    parameters: &[ParameterDesc],
    indicator: Option<Indicator>,
) -> Result<Option<usize>, Stop>
    ensures { Binds (λ at. at) (spec.indicator_bound (map declared_of parameters.now) indicator) result }
{
    let Some(indicator) = indicator else {
        return Ok(None);
    };
    let (position, parameter) = parameter_of(parameters, indicator.name)?;
    if is_indicator_domain(parameter.domain) {
        Ok(Some(position))
    } else {
        Err(Stop::about(BindingFault::BadIndicator, indicator.name))
    }
}

/// A parameter whose value is read.
pub fn parameter_value(
    alloc: Global,
    parameters: &[ParameterDesc],
    parameter: Parameter,
) -> ExprResult
    ensures { Binds bound_of (spec.parameter_bound (map declared_of parameters.now) parameter) result }
{
    let (position, named) = parameter_of(parameters, parameter.name)?;
    let indicator = indicator_of(parameters, parameter.indicator)?;
    Ok(input(alloc, position, named, indicator))
}

#[tactic(auto, using(crate::proofs::Expressions::Images::images))]
fn input(alloc: Global, position: usize, named: ParameterDesc, indicator: Option<usize>) -> Bound
    ensures { bound_of result ≡ spec.parameter_as (named_of (position, named)) indicator }
{
    let input = Input {
        parameter: position,
        indicator,
    };
    Bound::plain(
        alloc,
        BoundExpr::Parameter(input),
        named.domain.kind(),
        Findings::NONE,
    )
}
