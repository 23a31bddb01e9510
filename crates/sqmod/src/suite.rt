//! `sqmod test`: suites of cases, and which of them have the outcome that they want.

mod cases;
mod files;
mod run;
mod select;
mod trial;
mod update;

use crate::fault::{FAILED, NO_MEMORY, REFUSED};
use select::{Case, select_cases};
use sq_suite::{write_case, write_counts, write_end, write_plan, write_result, write_start};
use sq_words::TestRequest;
use std::alloc::{AllocError, AllocFailed};
use std::rt::Files;
use std::{fmt, fs};
use trial::{Verdict, verdict_of};

/// Why the cases are not all tried.
#[derive(Debug, Drop)]
pub(crate) enum Stop<'a> {
    /// `--shard` is not a number, a slash and a number that is not less.
    Shard(&'a str),
    /// A folder can't be read, or one below it.
    Folder(&'a str),
    /// There is no case below a folder.
    NoCase(&'a str),
    /// No case has a name that `--filter` asks for.
    Filter,
    /// A file can't be written.
    Unwritten(&'a str),
    Output,
    NoMemory,
}

impl fmt::Display for Stop<'_> {
    fn fmt<W: fmt::Write>(&self, f: &mut fmt::Formatter<W>) -> fmt::Result {
        match self {
            Stop::Shard(text) => write!(f, "--shard {text}: wanted is K/N, with K from 1 to N"),
            Stop::Folder(folder) => write!(f, "{folder}: cannot be read"),
            Stop::NoCase(folder) => write!(f, "{folder}: there is no case in this folder"),
            Stop::Filter => f.write_str("no case has a name that --filter asks for"),
            Stop::Unwritten(file) => write!(f, "{file}: cannot be written"),
            Stop::Output => f.write_str("output fault"),
            Stop::NoMemory => f.write_str("want of memory"),
        }
    }
}

impl From<AllocError> for Stop<'_> {
    fn from(_error: AllocError) -> Self {
        Stop::NoMemory
    }
}

impl<T: Drop> From<AllocFailed<T>> for Stop<'_> {
    fn from(_error: AllocFailed<T>) -> Self {
        Stop::NoMemory
    }
}

impl Stop<'_> {
    fn status(&self) -> u8 {
        match self {
            Stop::Shard(_) => REFUSED,
            Stop::NoMemory => NO_MEMORY,
            _ => FAILED,
        }
    }
}

/// Does what `sqmod test` asks for, and gives the status to end with.
pub(crate) fn status_of_test<R: Files + Print + Eprint + AllocGlobal + Clone + Drop>(
    rt: &R,
    request: &TestRequest<'_>,
) -> u8 {
    match test(rt, request) {
        Ok(status) => status,
        Err(stop) => report_stop(rt, request, stop),
    }
}

/// Says why the cases are not all tried: in the words of TAP, if the report is in these.
fn report_stop<R: Print + Eprint>(rt: &R, request: &TestRequest<'_>, stop: Stop<'_>) -> u8 {
    let status = stop.status();
    let _ = if prints_tap(request) && status == FAILED {
        println!(rt; "Bail out! {stop}")
    } else {
        eprintln!(rt; "sqmod: {stop}")
    };
    status
}

fn test<'a, R: Files + Print + AllocGlobal + Clone + Drop>(
    rt: &R,
    request: &TestRequest<'a>,
) -> Result<u8, Stop<'a>> {
    let cases = select_cases(rt, request)?;
    if request.list {
        print_names(rt, cases.as_slice())?;
        return Ok(0);
    }
    let differ = try_cases(rt, request, cases.as_slice())?;
    Ok(if differ == 0 { 0 } else { FAILED })
}

/// Whether standard output is for the words of TAP.
fn prints_tap(request: &TestRequest<'_>) -> bool {
    !request.list && request.junit != Some("-")
}

fn print_names<'a, R: Print>(rt: &R, cases: &[Case]) -> Result<(), Stop<'a>> {
    for case in cases {
        if println!(rt; "{}", case.folder).is_err() {
            return Err(Stop::Output);
        }
    }
    Ok(())
}

/// The results so far: how many cases differ, and the elements of JUnit's file.
#[derive(Drop)]
struct Results {
    differ: usize,
    elements: Vec<u8>,
}

/// Tries the cases in their order, says how each ends, and gives how many differ.
fn try_cases<'a, R: Files + Print + AllocGlobal + Clone + Drop>(
    rt: &R,
    request: &TestRequest<'a>,
    cases: &[Case],
) -> Result<usize, Stop<'a>> {
    let mut results = Results {
        differ: 0,
        elements: Vec::new(rt.alloc()),
    };
    let mut text = Vec::new(rt.alloc());
    write_plan(&mut text, rt.alloc(), cases.len())?;
    print_tap(rt, request, &mut text)?;
    for (index, case) in cases.iter().enumerate() {
        try_case(rt, request, index.saturating_add(1), case, &mut results)?;
    }
    write_counts(&mut text, rt.alloc(), cases.len(), results.differ)?;
    print_tap(rt, request, &mut text)?;
    write_junit(rt, request, cases.len(), &results)?;
    Ok(results.differ)
}

/// Tries a case and says how it ends.
fn try_case<'a, R: Files + Print + AllocGlobal + Clone + Drop>(
    rt: &R,
    request: &TestRequest<'a>,
    number: usize,
    case: &Case,
    results: &mut Results,
) -> Result<(), Stop<'a>> {
    let Verdict { is_right, says } = verdict_of(rt, case, request.update)?;
    if !is_right {
        results.differ = results.differ.saturating_add(1);
    }
    let name = case.folder.as_str();
    let mut text = Vec::new(rt.alloc());
    write_result(
        &mut text,
        rt.alloc(),
        number,
        name,
        is_right,
        says.as_slice(),
    )?;
    write_case(&mut results.elements, name, is_right, says.as_slice())?;
    print_tap(rt, request, &mut text)
}

/// Prints lines of TAP, unless standard output is for JUnit's file, and removes them.
fn print_tap<'a, R: Print>(
    rt: &R,
    request: &TestRequest<'a>,
    text: &mut Vec<u8>,
) -> Result<(), Stop<'a>> {
    let written = if prints_tap(request) {
        rt.write_all(text.as_slice())
    } else {
        Ok(())
    };
    text.clear();
    written.map_err(|_| Stop::Output)
}

/// Writes JUnit's file, if it is asked for.
fn write_junit<'a, R: Files + Print + AllocGlobal>(
    rt: &R,
    request: &TestRequest<'a>,
    cases: usize,
    results: &Results,
) -> Result<(), Stop<'a>> {
    let Some(file) = request.junit else {
        return Ok(());
    };
    let mut text = Vec::new(rt.alloc());
    write_start(&mut text, rt.alloc(), cases, results.differ)?;
    text.extend_from_slice(results.elements.as_slice())?;
    write_end(&mut text)?;
    if file == "-" {
        rt.write_all(text.as_slice()).map_err(|_| Stop::Output)
    } else {
        fs::write(rt, file, text.as_slice()).map_err(|_| Stop::Unwritten(file))
    }
}
