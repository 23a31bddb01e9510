//! Fetch orientations (ISO/IEC 9075:1992, 13.3).

ghost use Rattle.std.specs.Prelude.{◌≡◌, [], map};
ghost use Rattle.sq_meaning.specs.Binding.{is_whole_domain};
ghost use Rattle.sq_meaning.specs.WellFormedStatement.{orientation_of};
ghost use Rattle.sq_binding.specs.Orientation as spec;
ghost use Rattle.sq_binder.specs.Binds.{Binds};
ghost use Rattle.sq_binder.specs.Scope.{declared_of};
ghost use Rattle.sq_tree.specs.declared.statement.Position.TheVariants as position_of;

use crate::{Stop, is_whole, parameter_of, signed_value};
use sq_bound::{Distance, FetchOrientation, ParameterDesc};
use sq_lex::Name;
use sq_meaning::BindingFault;
use sq_tree::{Fetch, Orientation, Position, SignedNumber};
use sq_value::Domain;

/// The orientation of a fetch statement. Any other than NEXT needs a cursor that scrolls.
pub fn bind_orientation(
    fetch: &Fetch,
    scrolls: bool,
    parameters: &[ParameterDesc],
) -> Result<FetchOrientation, Stop>
    ensures { Binds (λ orientation. orientation)
        (spec.fetched (map declared_of parameters.now) scrolls (orientation_of fetch.now)) result }
{
    let orientation = orientation_if(read_orientation(fetch), parameters)?;
    if scrolls || is_next(orientation) {
        Ok(orientation)
    } else {
        Err(Stop::broken(BindingFault::BadOrientation))
    }
}

/// The orientation that is written, if one is.
fn read_orientation(fetch: &Fetch) -> Option<Orientation>
    ensures { result ≡ orientation_of fetch.now }
{
    match fetch.from {
        Some(from) => from.orientation,
        None => None,
    }
}

fn is_next(orientation: FetchOrientation) -> bool
    ensures { result ≡ spec.is_next orientation }
{
    matches!(orientation, FetchOrientation::Next)
}

/// The orientation that is written, or else NEXT.
fn orientation_if(
    written: Option<Orientation>,
    parameters: &[ParameterDesc],
) -> Result<FetchOrientation, Stop>
    ensures { Binds (λ orientation. orientation)
        (spec.orientation_bound (map declared_of parameters.now) written) result }
{
    match written {
        Some(orientation) => orientation_written(orientation, parameters),
        None => Ok(FetchOrientation::Next),
    }
}

fn orientation_written(
    orientation: Orientation,
    parameters: &[ParameterDesc],
) -> Result<FetchOrientation, Stop>
    ensures { Binds (λ orientation. orientation)
        (spec.written_bound (map declared_of parameters.now) orientation) result }
{
    match orientation {
        Orientation::Next => Ok(FetchOrientation::Next),
        Orientation::Prior => Ok(FetchOrientation::Prior),
        Orientation::First => Ok(FetchOrientation::First),
        Orientation::Last => Ok(FetchOrientation::Last),
        Orientation::Absolute(position) => match distance(position, parameters) {
            Ok(distance) => Ok(FetchOrientation::Absolute(distance)),
            Err(stop) => Err(stop),
        },
        Orientation::Relative(position) => match distance(position, parameters) {
            Ok(distance) => Ok(FetchOrientation::Relative(distance)),
            Err(stop) => Err(stop),
        },
    }
}

/// The number of an orientation: written without a point, or a parameter of scale 0.
fn distance(position: Position, parameters: &[ParameterDesc]) -> Result<Distance, Stop>
    ensures { Binds (λ distance. distance)
        (spec.distance_bound (map declared_of parameters.now) position) result }
{
    match position {
        Position::Number(number) => number_distance(number),
        Position::Parameter(name) => parameter_distance(name, parameters),
    }
}

fn number_distance(number: SignedNumber) -> Result<Distance, Stop>
    ensures { Binds (λ distance. distance) (spec.distance_bound [] (position_of.Number number)) result }
{
    if is_whole(number.number) {
        Ok(Distance::Number(signed_value(number).unscaled()))
    } else {
        Err(Stop::broken(BindingFault::BadOrientation))
    }
}

fn parameter_distance(name: Name, parameters: &[ParameterDesc]) -> Result<Distance, Stop>
    ensures { Binds (λ distance. distance)
        (spec.distance_bound (map declared_of parameters.now) (position_of.Parameter name)) result }
{
    let (position, parameter) = parameter_of(parameters, name)?;
    if is_whole_domain(parameter.domain) {
        Ok(Distance::Parameter(position))
    } else {
        Err(Stop::broken(BindingFault::BadOrientation))
    }
}

/// Whether a domain is of numbers of scale 0.
fn is_whole_domain(domain: Domain) -> bool
    ensures { result ≡ is_whole_domain domain }
{
    match domain {
        Domain::Small | Domain::Int => true,
        Domain::Numeric(_, scale) => scale == 0,
        Domain::Char(_) | Domain::VarChar(_) => false,
    }
}
