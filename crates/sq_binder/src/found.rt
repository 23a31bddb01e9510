//! Parts of a query that are bound one after the other. Each brings along its additions to the query.

ghost use Rattle.std.specs.Prelude.{◌≡◌, ◌++◌, ◌∷◌, [], IfOk, Ok};
ghost use Rattle.sq_binding.specs.Found.{joined as both_joined};
ghost use Rattle.sq_binding.specs.QueryFindings.{a_status};
ghost use Rattle.sq_binder.specs.Found.{Begins, Continues, Pairs, brought_of, failing, nothing, outward};

use crate::operation::join_lists;
use crate::query_findings::QueryFindings;
use crate::stop::Stop;
use sq_bound::SetFunctionCall;
use sq_items::Items;
use std::alloc::{AllocError, Global};

/// The number of the query's set functions before a part, and the number of the next subquery of the statement.
#[derive(Clone, Copy)]
pub struct Counts {
    pub functions: usize,
    pub subqueries: usize,
}

/// The additions of a part to its query.
#[derive(Drop)]
pub struct Brought {
    /// The set functions that it adds to its query, in the order of the text.
    pub calls: Items<SetFunctionCall>,
    /// Whether computing one of these set functions may answer a status.
    pub calls_can_fail: bool,
    pub findings: QueryFindings,
    /// The counts after the part.
    pub next: Counts,
}

/// A bound part, and its additions to the query.
#[derive(Drop)]
pub struct Found<T> {
    pub part: T,
    pub brought: Brought,
}

impl Brought {
    /// The additions of this part and the next one.
    pub fn and(self, next: Brought) -> Result<Brought, AllocError>
        ensures { IfOk result (λ all. (brought_of all ≡ both_joined (brought_of self) (brought_of next))
            × (all.next ≡ next.next)) }
    {
        let calls_can_fail = self.calls_can_fail || next.calls_can_fail;
        let findings = self.findings.and(next.findings);
        Ok(Brought {
            calls: join_lists(self.calls, next.calls)?,
            calls_can_fail,
            findings,
            next: next.next,
        })
    }

    /// The additions of a part whose evaluation may answer a status.
    pub fn failing(self) -> Brought
        ensures { (brought_of result ≡ failing (brought_of self)) × (result.next ≡ self.next) }
    {
        Brought {
            findings: self.findings.failing(),
            ..self
        }
    }

    /// The additions of a subquery, seen from the query around it.
    pub fn of_subquery(self) -> Brought
        ensures { (brought_of result ≡ outward (brought_of self)) × (result.next ≡ self.next) }
    {
        Brought {
            findings: self.findings.of_subquery(),
            ..self
        }
    }
}

/// A part that brings nothing along.
pub fn bring_nothing<T>(alloc: Global, part: T, before: Counts) -> Found<T>
    ensures { result ≡ record { part = part; brought = nothing before } }
{
    Found {
        part,
        brought: Brought {
            calls: Items::new(alloc),
            calls_can_fail: false,
            findings: QueryFindings::NOTHING,
            next: before,
        },
    }
}

/// A part and the one after it.
pub fn pair_parts<A: Drop, B: Drop>(
    left: Found<A>,
    right: Result<Found<B>, Stop>,
) -> Result<Found<(A, B)>, Stop>
    ensures { Pairs left right result }
{
    match right {
        Ok(right) => pair_bound(left, right),
        Err(stop) => {
            drop(left);
            Err(stop)
        }
    }
}

fn pair_bound<A: Drop, B: Drop>(left: Found<A>, right: Found<B>) -> Result<Found<(A, B)>, Stop>
    ensures { Pairs left (Ok right) result }
{
    match left.brought.and(right.brought) {
        Ok(brought) => Ok(Found {
            part: (left.part, right.part),
            brought,
        }),
        Err(_) => {
            drop(left.part);
            drop(right.part);
            Err(Stop::NoMemory)
        }
    }
}

/// The first of a list.
pub fn begin_list<T: Drop>(
    alloc: Global,
    first: Result<Found<T>, Stop>,
) -> Result<Found<Items<T>>, Stop>
    ensures { Begins first result }
{
    let Found { part, brought } = first?;
    let mut parts = Items::new(alloc);
    match parts.push(part) {
        Ok(()) => Ok(Found {
            part: parts,
            brought,
        }),
        Err(_) => {
            drop(parts);
            drop(brought);
            Err(Stop::NoMemory)
        }
    }
}

/// The parts of a list that are bound so far, and the next one.
pub fn with_next<T: Drop>(
    parts: Found<Items<T>>,
    next: Result<Found<T>, Stop>,
) -> Result<Found<Items<T>>, Stop>
    ensures { Continues parts next result }
{
    match next {
        Ok(next) => continue_list(parts, next),
        Err(stop) => {
            drop(parts);
            Err(stop)
        }
    }
}

fn continue_list<T: Drop>(parts: Found<Items<T>>, next: Found<T>) -> Result<Found<Items<T>>, Stop>
    ensures { Continues parts (Ok next) result }
{
    match (
        push_item(parts.part, next.part),
        parts.brought.and(next.brought),
    ) {
        (Ok(part), Ok(brought)) => Ok(Found { part, brought }),
        (part, brought) => {
            drop(part);
            drop(brought);
            Err(Stop::NoMemory)
        }
    }
}

/// The list with a further element.
pub fn push_item<T: Drop>(list: Items<T>, item: T) -> Result<Items<T>, AllocError>
    ensures { IfOk result (λ longer. longer ≡ list ++ item ∷ []) }
{
    let mut list = list;
    match list.push(item) {
        Ok(()) => Ok(list),
        Err(error) => {
            drop(list);
            Err(error)
        }
    }
}
