//! The pieces of work.

use crate::rows::{key, row};
use sq_store::{ApplyFault, Change, Meter, Store, can_apply};
use std::alloc::{AllocError, Global};
use std::io;
use std::time::{Clock, Instant};

/// How much work there is.
#[derive(Clone, Copy)]
pub(crate) struct Bench {
    pub(crate) rows: u32,
    pub(crate) changes: u32,
    pub(crate) keys: usize,
    pub(crate) task: Task,
}

/// What is asked for.
#[derive(Clone, Copy)]
pub(crate) enum Task {
    /// All work.
    All,
    /// All work, with its microseconds.
    Timed,
    /// Only rows that are inserted and committed.
    Fill,
}

/// A piece of work.
#[derive(Clone, Copy)]
enum Work {
    /// Inserts the rows, each by an `apply` of its own.
    Insert,
    /// Inserts the rows, each by an `apply` of its own, with a commit after each.
    Fill,
    /// Commits.
    Commit,
    /// Finds each row by its first key, in mixed order.
    FindKey,
    /// Gives rows other keys, each by an `apply` of its own, and takes it back.
    Attempt,
    /// Gives rows other keys, each by an `apply` of its own.
    Replace,
    /// Rolls back.
    Rollback,
    /// Removes every second row.
    RemoveHalf,
    /// Goes over the table by `next_from`.
    Walk,
    /// Removes the other rows.
    RemoveRest,
    /// Looks for a first row, again and again.
    LookFirst,
}

/// What is done, one after the other.
const ALL: [(Work, &str); 13] = [
    (Work::Insert, "insert"),
    (Work::Commit, "commit"),
    (Work::FindKey, "find_key"),
    (Work::Attempt, "attempt"),
    (Work::Replace, "replace"),
    (Work::Rollback, "rollback"),
    (Work::Walk, "walk"),
    (Work::RemoveHalf, "remove half"),
    (Work::Commit, "commit"),
    (Work::Walk, "walk half"),
    (Work::RemoveRest, "remove rest"),
    (Work::Commit, "commit"),
    (Work::LookFirst, "look in none"),
];

/// Does what is asked for, and prints a line for each piece of it.
pub(crate) fn run<S: Store, R: Print + Clock + AllocGlobal>(
    rt: &R,
    bench: &Bench,
    store: &mut S,
) -> io::Result<()> {
    if let Task::Fill = bench.task {
        return run_one(rt, bench, store, Work::Fill, "fill");
    }
    for (work, name) in ALL {
        run_one(rt, bench, store, work, name)?;
    }
    Ok(())
}

/// Does a piece of work, and prints its line.
fn run_one<S: Store, R: Print + Clock + AllocGlobal>(
    rt: &R,
    bench: &Bench,
    store: &mut S,
    work: Work,
    name: &str,
) -> io::Result<()> {
    let start = Instant::now(rt)?;
    let count = perform(rt.alloc(), bench, store, work)?;
    let time = start.elapsed(rt)?.as_micros();
    match bench.task {
        Task::Timed => println!(rt; "{name} {count} {time}"),
        Task::All | Task::Fill => println!(rt; "{name} {count}"),
    }
}

/// Does a piece of work, and says how many calls did what they should.
fn perform<S: Store>(
    alloc: Global,
    bench: &Bench,
    store: &mut S,
    work: Work,
) -> Result<u64, AllocError> {
    match work {
        Work::Insert => insert(alloc, store, bench.rows, false),
        Work::Fill => insert(alloc, store, bench.rows, true),
        Work::Commit => {
            store.commit();
            Ok(0)
        }
        Work::FindKey => find_key(alloc, store, bench.rows),
        Work::Attempt => replace(alloc, store, bench, true),
        Work::Replace => replace(alloc, store, bench, false),
        Work::Rollback => {
            store.rollback();
            Ok(0)
        }
        Work::RemoveHalf => remove(alloc, store, 2, bench.rows),
        Work::RemoveRest => remove(alloc, store, 1, bench.rows),
        Work::Walk => Ok(walk(store, bench.rows)),
        Work::LookFirst => Ok(look_first(store, bench.changes)),
    }
}

/// Makes a change, and takes it back if that is wanted. Says how many changes were made.
fn make<S: Store>(
    alloc: Global,
    store: &mut S,
    change: Change,
    back: bool,
) -> Result<u64, AllocError> {
    let mut changes = Vec::with_capacity(alloc, 1)?;
    changes.push(change)?;
    if !can_apply(store, 0, changes.as_slice()) {
        drop(changes);
        return Ok(0);
    }
    match store.apply(alloc, 0, changes) {
        Ok(()) => {
            if back {
                store.take_back();
            }
            Ok(1)
        }
        Err(ApplyFault::Duplicate) => Ok(0),
        Err(ApplyFault::NoMemory) => Err(AllocError),
    }
}

fn insert<S: Store>(
    alloc: Global,
    store: &mut S,
    rows: u32,
    commits: bool,
) -> Result<u64, AllocError> {
    let mut made: u64 = 0;
    for value in 0..rows {
        let new = Change::Insert(row(alloc, value)?);
        made = made.saturating_add(make(alloc, store, new, false)?);
        if commits {
            store.commit();
        }
    }
    Ok(made)
}

/// Gives rows keys that no row has.
fn replace<S: Store>(
    alloc: Global,
    store: &mut S,
    bench: &Bench,
    back: bool,
) -> Result<u64, AllocError> {
    let mut made: u64 = 0;
    for at in 0..bench.changes.min(bench.rows) {
        let other = Change::Replace(at as u64 + 1, row(alloc, bench.rows.saturating_add(at))?);
        made = made.saturating_add(make(alloc, store, other, back)?);
    }
    Ok(made)
}

/// Removes every second row, from a number on.
fn remove<S: Store>(
    alloc: Global,
    store: &mut S,
    first: u64,
    rows: u32,
) -> Result<u64, AllocError> {
    let mut made: u64 = 0;
    for at in 0..rows as u64 / 2 {
        let gone = Change::Remove((2 * at).saturating_add(first));
        made = made.saturating_add(make(alloc, store, gone, false)?);
    }
    Ok(made)
}

/// How many rows the first key finds. They are looked for in mixed order.
fn find_key<S: Store>(alloc: Global, store: &S, rows: u32) -> Result<u64, AllocError> {
    let mut meter = Meter::new();
    if store.table_count() == 0 || store.keys(0).is_empty() {
        return Ok(0);
    }
    for at in 0..rows {
        let value = (at as u64 * 7919 % rows as u64) as u32;
        let key = key(alloc, value)?;
        let _ = store.find_key(0, 0, &key, &mut meter);
    }
    Ok(meter.count())
}

/// How many rows `next_from` finds, one after the other, up to `rows`.
fn walk<S: Store>(store: &S, rows: u32) -> u64 {
    let mut meter = Meter::new();
    if store.table_count() == 0 {
        return 0;
    }
    let mut next: u64 = 1;
    for _ in 0..rows {
        if let Some((number, _)) = store.next_from(0, next, &mut meter) {
            next = number.saturating_add(1);
        }
    }
    meter.count()
}

/// Looks for the first row of all `times` times, and says how often there is one.
fn look_first<S: Store>(store: &S, times: u32) -> u64 {
    let mut meter = Meter::new();
    if store.table_count() == 0 {
        return 0;
    }
    for _ in 0..times {
        let _ = store.next_from(0, 1, &mut meter);
    }
    meter.count()
}
