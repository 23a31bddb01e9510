//! Trials of the stores, and the time that the heap store takes.
//!
//! `sq_store_trials` does the same actions to both stores, as `trials.rt` lists them.
//! `sq_store_trials ROWS CHANGES KEYS [time | fill]` does the work that `work.rt` lists, on a table of two
//! INTEGER columns. For each piece of work it prints a line with a count that shows that the work was done,
//! and with `time` its microseconds. With `fill` it only inserts the rows, with a commit after each: the
//! memory which that takes is the table's. `sq_store_trials both` does the actions, and then the work on
//! a thousand rows.
#![tactic(auto)]

mod action;
mod rows;
mod shown;
mod trials;
mod work;

use sq_heap::HeapStore;
use sq_store::Store;
use std::env::{self, Env};
use std::io;
use std::time::Clock;
use work::{Bench, Task, run};

/// The work of a stored run.
const SMALL: Bench = Bench {
    rows: 1_000,
    changes: 100,
    keys: 2,
    task: Task::All,
};

/// What the words of the command line ask for.
#[derive(Clone, Copy)]
enum Request {
    Trials,
    Work(Bench),
    Both,
}

fn main(rt: HostRuntime) -> io::Result<()> {
    match request_of(&rt)? {
        Request::Trials => trials::make(&rt),
        Request::Work(bench) => do_work(&rt, &bench),
        Request::Both => {
            trials::make(&rt)?;
            do_work(&rt, &SMALL)
        }
    }
}

fn do_work<R: Print + Clock + AllocGlobal>(rt: &R, bench: &Bench) -> io::Result<()> {
    let keys = rows::keys(rt.alloc(), bench.keys)?;
    let mut store = HeapStore::new(rt.alloc(), keys.as_slice(), &[], 1_000_000_000)?;
    run(rt, bench, &mut store)
}

/// A number that is left out or can't be read is 0.
fn request_of<R: Env + AllocGlobal>(rt: &R) -> io::Result<Request> {
    let mut words = env::args(rt)?.skip(1);
    match words.next() {
        None => Ok(Request::Trials),
        Some(word) if word.as_str() == "both" => Ok(Request::Both),
        rows => Ok(Request::Work(Bench {
            rows: number_of(rows),
            changes: number_of(words.next()),
            keys: number_of(words.next()) as usize,
            task: task_of(words.next()),
        })),
    }
}

/// The number that a word spells.
fn number_of(word: Option<String>) -> u32 {
    match word {
        Some(word) => word.parse::<u32>().unwrap_or(0),
        None => 0,
    }
}

/// What a word asks for.
fn task_of(word: Option<String>) -> Task {
    match word {
        Some(word) if word.as_str() == "time" => Task::Timed,
        Some(word) if word.as_str() == "fill" => Task::Fill,
        _ => Task::All,
    }
}
