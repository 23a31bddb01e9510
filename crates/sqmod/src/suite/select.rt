//! Which cases are asked for.
use crate::suite::Stop;
use crate::suite::cases::cases_below;
use sq_suite::{Shard, matches};
use sq_words::TestRequest;
use std::alloc::AllocError;
use std::io::ErrorKind;
use std::rt::Files;

/// A case: its folder, which is its name, and how many bytes of it are the folder of the suite.
#[derive(Drop)]
pub(crate) struct Case {
    pub(crate) folder: String,
    pub(crate) root: usize,
}

/// Selects the cases that a request asks for: of the cases below its folders those with a name that it asks
/// for, and of these its part.
pub(crate) fn select_cases<'a, R: Files + AllocGlobal + Clone + Drop>(
    rt: &R,
    request: &TestRequest<'a>,
) -> Result<Vec<Case>, Stop<'a>> {
    let shard = shard_of(request)?;
    let mut cases = Vec::new(rt.alloc());
    for folder in request.folders.iter() {
        add_cases(rt, request, folder, &mut cases)?;
    }
    if cases.is_empty() {
        return Err(Stop::Filter);
    }
    Ok(part_of(rt, cases, shard)?)
}

fn shard_of<'a>(request: &TestRequest<'a>) -> Result<Shard, Stop<'a>> {
    match request.shard {
        None => Ok(Shard::all()),
        Some(text) => Shard::parse(text).ok_or(Stop::Shard(text)),
    }
}

/// Adds the cases below a folder that are asked for.
fn add_cases<'a, R: Files + AllocGlobal + Clone + Drop>(
    rt: &R,
    request: &TestRequest<'a>,
    folder: &'a str,
    cases: &mut Vec<Case>,
) -> Result<(), Stop<'a>> {
    let root = trim_slashes(folder);
    let found = match cases_below(rt, root) {
        Ok(found) => found,
        Err(error) => return Err(stop_for_unread(folder, error.kind())),
    };
    if found.is_empty() {
        return Err(Stop::NoCase(folder));
    }
    for folder in found {
        if asks_for(request, folder.as_str()) {
            cases.push(Case {
                folder,
                root: root.len(),
            })?;
        }
    }
    Ok(())
}

/// Whether a case of this name is asked for.
fn asks_for(request: &TestRequest<'_>, name: &str) -> bool {
    request.filters.is_empty()
        || request
            .filters
            .iter()
            .any(|filter| matches(filter.as_bytes(), name.as_bytes()))
}

fn stop_for_unread(folder: &str, kind: ErrorKind) -> Stop<'_> {
    if kind == ErrorKind::OutOfMemory {
        Stop::NoMemory
    } else {
        Stop::Folder(folder)
    }
}

/// Takes the cases of a part.
fn part_of<R: AllocGlobal>(
    rt: &R,
    cases: Vec<Case>,
    shard: Shard,
) -> Result<Vec<Case>, AllocError> {
    let mut part = Vec::new(rt.alloc());
    for (index, case) in cases.into_iter().enumerate() {
        if shard.has(index) {
            part.push(case)?;
        }
    }
    Ok(part)
}

/// Cuts off the slashes at the end of a folder's path.
fn trim_slashes(folder: &str) -> &str {
    folder.trim_end_matches('/')
}
