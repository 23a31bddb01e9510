//! Parts that are bound by themselves, in no query. Their subqueries are numbered from 0, and a missing privilege is a fault if
//! there is no other.

ghost use Rattle.std.specs.Prelude.{◌≡◌, Err, Ok, if◌then◌else◌};
ghost use Rattle.sq_meaning.specs.declared.fault.BindingFault.TheVariants.{PrivilegeMissing};
ghost use Rattle.sq_binder.specs.Binds.{broken};

use crate::{Counts, Found, Stop};
use sq_meaning::BindingFault;

/// The counts at the start of a text, before any set function and subquery.
pub fn at_first() -> Counts
    ensures { result ≡ record { functions = 0; subqueries = 0 } }
{
    Counts {
        functions: 0,
        subqueries: 0,
    }
}

/// The part, if no privilege is missing.
pub fn take_permitted<T: Drop>(found: Found<T>) -> Result<T, Stop>
    ensures { result ≡ (if found.brought.findings.lacks_privilege
        then Err (broken PrivilegeMissing)
        else Ok found.part) }
{
    let Found { part, brought } = found;
    let lacks_privilege = brought.findings.lacks_privilege;
    drop(brought);
    if lacks_privilege {
        drop(part);
        Err(Stop::broken(BindingFault::PrivilegeMissing))
    } else {
        Ok(part)
    }
}
