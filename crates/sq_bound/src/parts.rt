//! Parts, one of which may have a fault.

ghost use Rattle.std.specs.Prelude.{◌≡◌, IfErr, IfOk, Ok, is_ok, true};
ghost use Rattle.sq_bound.specs.Parts.{IsFaultOf};

/// Both values, or the left error before the right one.
pub fn pair_of<T: Drop, U: Drop, E: Drop>(
    left: Result<T, E>,
    right: Result<U, E>,
) -> Result<(T, U), E>
    ensures values { IfOk result (λ parts. (left ≡ Ok parts.0) × (right ≡ Ok parts.1)) }
    ensures fault { IfErr result (IsFaultOf left right) }
{
    match (left, right) {
        (Ok(left), Ok(right)) => Ok((left, right)),
        (Ok(left), Err(fault)) => {
            drop(left);
            Err(fault)
        }
        (Err(fault), right) => {
            drop(right);
            Err(fault)
        }
    }
}

/// The value, if the check passed.
pub fn value_if<T: Drop, E: Drop>(value: T, check: Result<(), E>) -> Result<T, E>
    ensures value { IfOk result (λ v. v ≡ value) }
    ensures check { IfOk result (λ v. is_ok check ≡ true) }
{
    match check {
        Ok(()) => Ok(value),
        Err(fault) => {
            drop(value);
            Err(fault)
        }
    }
}
