//! The outcome of a case, by the calls that `sqmod run` and `sqmod check` make.
ghost use Rattle.std.specs.Prelude.{◌≡◌, ◌≤◌, OnOk, drop};

use crate::check::{Checking, status_of_texts};
use crate::fault::Fault;
use crate::kept::Kept;
use crate::report_of_file;
use crate::request::run_texts;
use crate::suite::files::CaseFiles;
use crate::texts::{Sources, Texts, read_sources};
use sq_advice::Form;
use sq_run::{Limits, Refusal};
use sq_store::MOST_ROW_NUMBERS;
use sq_suite::Outcome;
use sq_words::{Source, TextsRequest};
use std::alloc::{AllocError, Global};
use std::rt::Files;
use std::{fs, io};

/// Why no report exists, and the path of the file that it is about, if it is about one.
#[derive(Clone, Copy)]
struct Stop<'a> {
    path: &'a str,
    fault: Fault,
}

impl From<AllocError> for Stop<'_> {
    fn from(_error: AllocError) -> Self {
        Stop {
            path: "",
            fault: Fault::NoMemory(0),
        }
    }
}

/// Makes the outcome of `sqmod run` on a case's files, without the reports of its setups.
pub(crate) fn outcome_of_run<R: Files + AllocGlobal>(
    rt: &R,
    case: &str,
    files: &CaseFiles,
    script: &str,
    limits: Limits,
) -> Outcome
    requires { limits.row_numbers ≤ MOST_ROW_NUMBERS }
{
    let mut report = Vec::new(rt.alloc());
    let kept = Kept::new(rt.alloc());
    let status = match run_files(rt, files, script, limits, &mut report) {
        Ok(()) => 0,
        Err(stop) => report_of_file(&kept, relative_path(stop.path, case), stop.fault),
    };
    Outcome {
        report,
        errors: kept.into_text(),
        status,
    }
}

fn run_files<'a, R: Files + AllocGlobal>(
    rt: &R,
    files: &'a CaseFiles,
    script: &'a str,
    limits: Limits,
    report: &mut Vec<u8>,
) -> Result<(), Stop<'a>>
    requires { limits.row_numbers ≤ MOST_ROW_NUMBERS }
{
    let sources = sources_of(rt, files)?;
    let mut texts = Texts {
        schemas: sources.schemas,
        modules: sources.modules,
        script: Vec::new(rt.alloc()),
    };
    let before = run_setups(rt, files, limits, &mut texts)?;
    let shared = texts.script.iter().filter(|byte| **byte == b'\n').count();
    add_script(rt, script, &mut texts.script)?;
    match run_texts(rt.alloc(), &texts, limits, report) {
        Ok(()) => Ok(remove_start(report, before)?),
        Err(fault) => Err(Stop {
            path: files.path(fault).unwrap_or(script),
            fault: move_up(fault, shared),
        }),
    }
}

/// Adds the scripts of the setups to the texts, and gives how many bytes they report.
fn run_setups<'a, R: Files + AllocGlobal>(
    rt: &R,
    files: &'a CaseFiles,
    limits: Limits,
    texts: &mut Texts,
) -> Result<usize, Stop<'a>>
    requires { limits.row_numbers ≤ MOST_ROW_NUMBERS }
{
    let mut length = 0;
    for setup in files.setups.iter() {
        let path = setup.as_str();
        add_script(rt, path, &mut texts.script)?;
        let mut report = Vec::new(rt.alloc());
        if let Err(fault) = run_texts(rt.alloc(), &*texts, limits, &mut report) {
            let path = files.path(fault).unwrap_or(path);
            return Err(Stop { path, fault });
        }
        length = report.len();
    }
    Ok(length)
}

/// Adds the text of a script, and an end of line.
fn add_script<'a, R: Files + AllocGlobal>(
    rt: &R,
    path: &'a str,
    script: &mut Vec<u8>,
) -> Result<(), Stop<'a>> {
    let Ok(text) = fs::read(rt, path) else {
        return Err(Stop {
            path,
            fault: Fault::Unread(Source::Script),
        });
    };
    script.extend_from_slice(text.as_slice())?;
    script.extend_from_slice(b"\n")?;
    Ok(())
}

/// Removes so many bytes at the start.
fn remove_start(report: &mut Vec<u8>, count: usize) -> Result<(), AllocError>
    ensures { OnOk result (report.new.items ≡ drop count report.old.items) }
{
    let rest = report.split_off(count.min(report.len()))?;
    *report = rest;
    Ok(())
}

/// Counts the line of a fault of a script from the one after so many others.
fn move_up(fault: Fault, lines: usize) -> Fault {
    match fault {
        Fault::Refused(Source::Script, refusal) => Fault::Refused(
            Source::Script,
            Refusal {
                text: refusal.text,
                line: refusal.line.saturating_sub(lines),
                column: refusal.column,
                what: refusal.what,
            },
        ),
        _ => fault,
    }
}

fn sources_of<'a, R: Files + AllocGlobal>(
    rt: &R,
    files: &'a CaseFiles,
) -> Result<Sources, Stop<'a>> {
    let schemas = strs(rt.alloc(), files.schemas.as_slice())?;
    let modules = strs(rt.alloc(), files.modules.as_slice())?;
    match read_sources(rt, schemas.as_slice(), modules.as_slice()) {
        Ok(sources) => Ok(sources),
        Err(fault) => Err(Stop {
            path: files.path(fault).unwrap_or(""),
            fault,
        }),
    }
}

/// Makes the text that `sqmod check` prints of a case's files, to standard output and to standard error, and
/// a line with its status.
pub(crate) fn text_of_check<R: Files + AllocGlobal>(
    rt: &R,
    case: &str,
    files: &CaseFiles,
) -> io::Result<Vec<u8>> {
    let kept = Kept::new(rt.alloc());
    let status = status_of_files(rt, &kept, case, files)?;
    println!(kept; "status {status}")?;
    Ok(kept.into_text())
}

fn status_of_files<R: Files + AllocGlobal>(
    rt: &R,
    kept: &Kept,
    case: &str,
    files: &CaseFiles,
) -> io::Result<u8> {
    let request = TextsRequest {
        schemas: names(rt.alloc(), files.schemas.as_slice(), case)?,
        modules: names(rt.alloc(), files.modules.as_slice(), case)?,
    };
    let status = match sources_of(rt, files) {
        Ok(sources) => status_of_sources(kept, rt.alloc(), &request, &sources),
        Err(stop) => report_of_file(kept, relative_path(stop.path, case), stop.fault),
    };
    drop(request);
    Ok(status)
}

/// Checks texts, in a line for each remark.
fn status_of_sources(
    kept: &Kept,
    alloc: Global,
    request: &TextsRequest<'_>,
    sources: &Sources,
) -> u8 {
    status_in_lines(kept, alloc, request, sources)
}

fn status_in_lines<'a>(
    kept: &Kept,
    alloc: Global,
    request: &'a TextsRequest<'a>,
    sources: &'a Sources,
) -> u8 {
    let checking = Checking {
        request,
        sources,
        script: None,
        form: Form::Lines,
        ways: false,
    };
    status_of_texts(kept, alloc, &checking)
}

fn strs<'a>(alloc: Global, texts: &'a [String]) -> Result<Vec<&'a str>, AllocError> {
    texts.iter().map(|text| text.as_str()).collect(alloc)
}

/// Lists the names of files as they are shown for a case.
fn names<'a>(alloc: Global, paths: &'a [String], case: &str) -> Result<Vec<&'a str>, AllocError> {
    let mut names = Vec::new(alloc);
    for path in paths {
        names.push(relative_path(path.as_str(), case))?;
    }
    Ok(names)
}

/// Shortens a path: below a case's folder it begins there, and any other begins with its folder `setup`.
fn relative_path<'a>(path: &'a str, case: &str) -> &'a str {
    let below = path
        .strip_prefix(case)
        .and_then(|rest| rest.strip_prefix('/'));
    match below {
        Some(name) => name,
        None => match path.rfind("setup/") {
            Some(at) => path.get(at..).unwrap_or(path),
            None => path,
        },
    }
}
