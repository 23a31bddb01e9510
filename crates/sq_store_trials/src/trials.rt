//! Trials of the two stores: the same actions on each, with the content, the ways to find rows and the
//! numbers left printed after each action. Where an `apply` is refused memory, the store must show what it
//! showed before, and the `apply` is made once more; so the report is the same, and a rollback behind it
//! shows what is committed. `tools/refuse_allocations.py` refuses each allocation in turn.

use crate::action::{Action, Step, changes_of};
use crate::shown::{content_of, found_in, show};
use sq_heap::HeapStore;
use sq_store::{ApplyFault, Change, ListStore, Store, can_apply};
use std::alloc::{AllocError, Global};
use std::io;

const NONE: Step = Step::Nothing;

/// What is done to each store, one after the other.
const ACTIONS: [Action; 19] = [
    Action::Apply([
        Step::Insert(1, 10),
        Step::Insert(2, 20),
        Step::Insert(3, 30),
    ]),
    Action::Apply([Step::Insert(4, 10), NONE, NONE]),
    Action::Attempt([Step::Insert(2, 40), Step::Remove(2), NONE]),
    Action::Commit,
    Action::Apply([Step::Replace(3, 3, 10), Step::Replace(1, 1, 30), NONE]),
    Action::Apply([
        Step::Replace(3, 3, 30),
        Step::Replace(3, 3, 10),
        Step::Replace(2, 2, 11),
    ]),
    Action::Apply([Step::Replace(1, 2, 11), Step::Replace(2, 1, 21), NONE]),
    Action::Apply([Step::Replace(9, 9, 9), Step::Remove(9), NONE]),
    Action::Apply([
        Step::Remove(2),
        Step::Insert(5, 50),
        Step::Replace(5, 6, 60),
    ]),
    Action::Apply([Step::Replace(1, 3, 11), NONE, NONE]),
    Action::Rollback,
    Action::Apply([Step::Remove(1), Step::Remove(2), Step::Insert(1, 10)]),
    Action::Commit,
    Action::Apply([Step::Remove(3), Step::Insert(7, 70), Step::Insert(8, 80)]),
    Action::Attempt([
        Step::Replace(5, 8, 81),
        Step::Replace(6, 7, 71),
        Step::Insert(9, 90),
    ]),
    Action::Apply([Step::Insert(7, 99), NONE, NONE]),
    Action::Rollback,
    Action::Apply([
        Step::Insert(2, 20),
        Step::Insert(3, 30),
        Step::Insert(4, 40),
    ]),
    Action::Rollback,
];

/// Makes the trials of both stores.
pub(crate) fn make<R: Print + AllocGlobal>(rt: &R) -> io::Result<()> {
    println!(rt; "ListStore")?;
    trial::<ListStore>(rt, rt.alloc())?;
    println!(rt; "HeapStore")?;
    trial::<HeapStore>(rt, rt.alloc())
}

/// Does all actions to a store without rows, and prints what it shows after each.
fn trial<S: Store>(rt: &impl Print, alloc: Global) -> io::Result<()> {
    let keys = two_keys(alloc)?;
    let lookups = one_lookup(alloc)?;
    let mut store: S = S::new(alloc, keys.as_slice(), lookups.as_slice(), 12)?;
    for action in ACTIONS {
        println!(rt; "{}", act(alloc, &mut store, action)?)?;
        show(rt, alloc, &store)?;
    }
    Ok(())
}

/// One table with two keys: its first column, and both columns.
fn two_keys(alloc: Global) -> Result<Vec<Vec<Vec<usize>>>, AllocError> {
    let mut keys = Vec::new(alloc);
    keys.push(Vec::from_slice(alloc, &[0])?)?;
    keys.push(Vec::from_slice(alloc, &[0, 1])?)?;
    let mut tables = Vec::new(alloc);
    tables.push(keys)?;
    Ok(tables)
}

/// A lookup of the one table by its second column.
fn one_lookup(alloc: Global) -> Result<Vec<Vec<Vec<usize>>>, AllocError> {
    let mut lookups = Vec::new(alloc);
    lookups.push(Vec::from_slice(alloc, &[1])?)?;
    let mut tables = Vec::new(alloc);
    tables.push(lookups)?;
    Ok(tables)
}

/// Does an action, and says what came of it.
fn act<S: Store>(alloc: Global, store: &mut S, action: Action) -> Result<&'static str, AllocError> {
    match action {
        Action::Apply(steps) => apply(alloc, store, steps, false),
        Action::Attempt(steps) => apply(alloc, store, steps, true),
        Action::Commit => {
            store.commit();
            Ok("commit")
        }
        Action::Rollback => {
            store.rollback();
            Ok("rollback")
        }
    }
}

/// Makes changes, once more where memory is refused at first, and then takes them back if that is wanted.
fn apply<S: Store>(
    alloc: Global,
    store: &mut S,
    steps: [Step; 3],
    back: bool,
) -> Result<&'static str, AllocError> {
    let content = content_of(alloc, store)?;
    let found = found_in(alloc, store)?;
    if let Some(came) = apply_once(alloc, store, changes_of(alloc, steps)?, back) {
        return Ok(came);
    }
    if content_of(alloc, store)?.as_slice() != content.as_slice()
        || found_in(alloc, store)?.as_slice() != found.as_slice()
    {
        return Ok("refused and changed");
    }
    let came = apply_once(alloc, store, changes_of(alloc, steps)?, back);
    Ok(came.unwrap_or("refused twice"))
}

/// Makes changes; `None` where memory is refused.
fn apply_once<S: Store>(
    alloc: Global,
    store: &mut S,
    changes: Vec<Change>,
    back: bool,
) -> Option<&'static str> {
    if !can_apply(store, 0, changes.as_slice()) {
        return Some("not admitted");
    }
    match store.apply(alloc, 0, changes) {
        Ok(()) if back => {
            store.take_back();
            Some("made and taken back")
        }
        Ok(()) => Some("made"),
        Err(ApplyFault::Duplicate) => Some("duplicate"),
        Err(ApplyFault::NoMemory) => None,
    }
}
