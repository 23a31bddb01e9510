//! The meaning of a status, a refusal or a fault, on standard output.
use crate::fault::{FAILED, REFUSED};
use crate::refuse_for_memory;
use sq_explain::{Entry, all_entries, find_entry, names_of, nearest_names, text_of};
use sq_words::ExplainRequest;
use std::alloc::{AllocError, Global};
use std::io;

/// Prints what the requested name means, or all names, and gives the status to end with.
pub(crate) fn status_of_explain<R: Print + Eprint + AllocGlobal>(
    rt: &R,
    request: ExplainRequest<'_>,
) -> u8 {
    let entries = all_entries();
    match request.name {
        Some(name) => explain(rt, entries, name),
        None => status_of_print(rt, print_names(rt, entries)),
    }
}

fn explain<R: Print + Eprint + AllocGlobal>(rt: &R, entries: &[Entry], name: &str) -> u8 {
    match find_entry(entries, name) {
        Some(entry) => status_of_print(rt, rt.print(text_of(entry.text))),
        None => refuse_name(rt, entries, name),
    }
}

/// Prints the names of each entry in a line.
fn print_names<R: Print>(rt: &R, entries: &[Entry]) -> io::Result<()> {
    for entry in entries {
        match entry.status {
            Some(status) => println!(rt; "{} {status}", entry.name)?,
            None => println!(rt; "{}", entry.name)?,
        }
    }
    Ok(())
}

/// Gives the status after something was printed, or could not be.
pub(crate) fn status_of_print<R: Eprint>(rt: &R, printed: io::Result<()>) -> u8 {
    match printed {
        Ok(()) => 0,
        Err(_) => {
            let _ = eprintln!(rt; "sqmod: output fault");
            FAILED
        }
    }
}

/// Says that there is no such name, and which are nearest.
fn refuse_name<R: Eprint + AllocGlobal>(rt: &R, entries: &[Entry], name: &str) -> u8 {
    match near_names(rt.alloc(), entries, name) {
        Ok(near) => {
            let _ = eprintln!(rt; "sqmod: {name} is no status, refusal or fault; the nearest are:");
            for name in near.as_slice() {
                let _ = eprintln!(rt; "  {name}");
            }
            REFUSED
        }
        Err(_) => refuse_for_memory(rt),
    }
}

/// The names nearest to a name that does not exist.
fn near_names(
    alloc: Global,
    entries: &[Entry],
    name: &str,
) -> Result<Vec<&'static str>, AllocError> {
    let names = names_of(alloc, entries)?;
    let near = nearest_names(alloc, names.as_slice(), name);
    drop(names);
    near
}
