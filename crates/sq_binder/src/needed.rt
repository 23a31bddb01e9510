//! Privileges that statements need (ISO/IEC 9075:1992, 13.6 to 13.10).

ghost use Rattle.std.specs.Prelude.{◌≡◌};
ghost use Rattle.sq_binding.specs.Whole.{needed};
ghost use Rattle.sq_binder.specs.Found.{brought_of, query_findings_of};
ghost use Rattle.sq_binder.specs.Needed.{Permits, reading, requiring};

use crate::{Brought, Found, QueryFindings, Stop, take_permitted};

/// The findings in a part that needs a privilege.
fn need_privilege(is_held: bool) -> QueryFindings
    ensures { query_findings_of result ≡ needed is_held }
{
    QueryFindings {
        lacks_privilege: !is_held,
        ..QueryFindings::NOTHING
    }
}

/// The additions of a part that needs a privilege.
pub fn require_privilege(brought: Brought, is_held: bool) -> Brought
    ensures { (brought_of result ≡ requiring is_held (brought_of brought)) × (result.next ≡ brought.next) }
{
    Brought {
        findings: brought.findings.and(need_privilege(is_held)),
        ..brought
    }
}

/// The additions of a part that needs SELECT if it reads a column of the table that is changed (own rule).
pub fn require_select_if_read(brought: Brought, may_select: bool) -> Brought
    ensures { (brought_of result ≡ reading may_select (brought_of brought)) × (result.next ≡ brought.next) }
{
    let reads = brought.findings.values.reads_outermost;
    require_privilege(brought, !reads || may_select)
}

/// A part that is bound by itself, if no privilege is missing.
pub fn take_whole<T: Drop>(found: Result<Found<T>, Stop>) -> Result<T, Stop>
    ensures { Permits found result }
{
    take_permitted(found?)
}
