//! Where a query specification stands, and what has a value on each of its lines for that reason.

ghost use Rattle.std.specs.Prelude.{◌≡◌, true, false, IfErr, IfOk, IfSome, Ok};
ghost use Rattle.sq_value.specs.SetFunctions.{is_null};
ghost use Rattle.sq_query.specs.Around.{HasValueBeneath, IsAroundGroups, IsSameAround, IsSameBeneath};
ghost use Rattle.sq_query.specs.declared.around.Standing.TheVariants as at_standing;
ghost use Rattle.sq_expression.specs.Frame.{scopes_beyond};

use crate::key::unless_null;
use sq_bound::BoundExpr;
use sq_expression::{Context, Fault, Frame, line_frame, owned_value};
use sq_value::Value;

/// What is known of where a query specification or a condition is evaluated.
#[derive(Clone, Copy)]
pub(crate) enum Standing {
    /// Which the lines around are.
    Within,
    /// Nothing.
    OnSomeLine,
    /// That there is none on which it could be.
    OnNoLine,
}

/// What is around a query specification or a condition: the lines of the queries in which it stands, where they are known. Outside every
/// query there is none.
#[derive(Clone, Copy)]
pub(crate) struct Around<'l, 'r> {
    pub standing: Standing,
    pub lines: Option<&'l Frame<'r>>,
}

impl<'l, 'r> Around<'l, 'r> {
    /// Whether there is nothing that the query specification could be evaluated for.
    pub(crate) fn is_no_line(&self) -> bool
        ensures { result ≡ true → self.now.standing ≡ at_standing.OnNoLine }
    {
        match self.standing {
            Standing::OnNoLine => true,
            _ => false,
        }
    }

    /// What is around the HAVING clause of a query specification that stands here: of the group nothing is known but that there is none.
    pub(crate) fn on_groups(&self) -> Around<'l, 'r>
        ensures { IsAroundGroups self.now result }
    {
        match self.standing {
            Standing::OnNoLine => Around {
                standing: Standing::OnNoLine,
                lines: None,
            },
            _ => Around {
                standing: Standing::OnSomeLine,
                lines: None,
            },
        }
    }
}

/// The value of an expression, where it is the same on each line of a query specification, and not null.
pub(crate) fn value_around(
    expr: &BoundExpr,
    around: &Around<'_, '_>,
    call: &Context<'_>,
) -> Result<Option<Value>, Fault>
    ensures known { IfOk result (λ known. IfSome known
        (IsSameAround around.now call.now.parameters.now call.now.user expr.now)) }
    ensures memory { IfErr result (λ fault. fault ≡ Fault.NoMemory) }
{
    match around.standing {
        Standing::Within => value_beneath(expr, around.lines, call),
        _ => value_beneath(expr, None, call),
    }
}

/// The value that an expression has beneath these lines, whatever row stands there, if it is not null.
fn value_beneath(
    expr: &BoundExpr,
    lines: Option<&Frame<'_>>,
    call: &Context<'_>,
) -> Result<Option<Value>, Fault>
    ensures known { IfOk result (λ known. IfSome known
        (IsSameBeneath (scopes_beyond lines.entry) call.now.parameters.now call.now.user expr.now)) }
    ensures memory { IfErr result (λ fault. fault ≡ Fault.NoMemory) }
{
    if_known(value_within(expr, lines, call))
}

/// The value of an expression on no row beneath these lines.
fn value_within(
    expr: &BoundExpr,
    lines: Option<&Frame<'_>>,
    call: &Context<'_>,
) -> Result<Value, Fault>
    ensures { HasValueBeneath result expr.now
        (scopes_beyond lines.entry) call.now.parameters.now call.now.user }
{
    owned_value(expr, &line_frame(&[], lines), call)
}

/// A value that is there, and not null.
pub(crate) fn if_known(value: Result<Value, Fault>) -> Result<Option<Value>, Fault>
    ensures known { IfOk result (λ known. IfSome known (λ w. (value ≡ Ok w) × (is_null w ≡ false))) }
    ensures memory { IfErr result (λ fault. fault ≡ Fault.NoMemory) }
{
    match value {
        Ok(value) => Ok(unless_null(value)),
        Err(Fault::NoMemory) => Err(Fault::NoMemory),
        Err(Fault::Status(_)) => Ok(None),
    }
}
