//! Trials of cases: whether each has the outcome that it wants.
ghost use Rattle.std.specs.Prelude.{◌≤◌, IfOk, IfSome};

use crate::suite::Stop;
use crate::suite::files::{CaseFiles, read_in};
use crate::suite::run::{outcome_of_run, text_of_check};
use crate::suite::select::Case;
use crate::suite::update::{begin_report, update_check, update_outcome};
use sq_run::Limits;
use sq_store::MOST_ROW_NUMBERS;
use sq_suite::{Outcome, Unclear, wanted_outcome, write_block, write_differences, write_part};
use sq_words::USUAL_ROW_NUMBERS;
use std::alloc::AllocError;
use std::io::ErrorKind;
use std::rt::Files;
use std::{fmt, io, str};

/// Whether a case has the outcome that it wants, or its texts were written anew, and the lines about it.
#[derive(Drop)]
pub(crate) struct Verdict {
    pub(crate) is_right: bool,
    pub(crate) says: Vec<u8>,
}

/// Why a case can't be tried.
#[derive(Debug, Drop)]
enum Trouble {
    Files(io::Error),
    Unclear(Unclear),
    Rows,
}

impl fmt::Display for Trouble {
    fn fmt<W: fmt::Write>(&self, f: &mut fmt::Formatter<W>) -> fmt::Result {
        match self {
            Trouble::Files(error) => write!(f, "its files cannot be read or written: {error}"),
            Trouble::Unclear(unclear) => write!(f, "{unclear}"),
            Trouble::Rows => { write!(f, "rows.txt holds no number from 1 to {MOST_ROW_NUMBERS}") }
        }
    }
}

impl From<io::Error> for Trouble {
    fn from(error: io::Error) -> Self {
        Trouble::Files(error)
    }
}

impl From<AllocError> for Trouble {
    fn from(error: AllocError) -> Self {
        Trouble::Files(error.into())
    }
}

impl Trouble {
    fn is_want_of_memory(&self) -> bool {
        match self {
            Trouble::Files(error) => error.kind() == ErrorKind::OutOfMemory,
            Trouble::Unclear(_) | Trouble::Rows => false,
        }
    }
}

/// Tries a case. If a text differs, and `update` says so, the new text is written in its place.
pub(crate) fn verdict_of<'a, R: Files + AllocGlobal + Clone + Drop>(
    rt: &R,
    case: &Case,
    update: bool,
) -> Result<Verdict, Stop<'a>> {
    let mut says = Vec::new(rt.alloc());
    let is_right = match try_case(rt, case, update, &mut says) {
        Ok(is_right) => is_right,
        Err(trouble) => {
            if trouble.is_want_of_memory() {
                return Err(Stop::NoMemory);
            }
            let line = format!(in rt.alloc(); "{trouble}\n")?;
            write_block(&mut says, "fault", line.as_bytes())?;
            false
        }
    };
    Ok(Verdict { is_right, says })
}

/// Tries the outcomes that a case wants of its script and of a check.
fn try_case<R: Files + AllocGlobal + Clone + Drop>(
    rt: &R,
    case: &Case,
    update: bool,
    says: &mut Vec<u8>,
) -> Result<bool, Trouble> {
    let folder = case.folder.as_str();
    let files = CaseFiles::read(rt, folder, case.root)?;
    let has_run = try_run(rt, folder, &files, update, says)?;
    let has_checked = try_check(rt, folder, &files, update, says)?;
    Ok(has_run && has_checked)
}

fn try_run<R: Files + AllocGlobal>(
    rt: &R,
    folder: &str,
    files: &CaseFiles,
    update: bool,
    says: &mut Vec<u8>,
) -> Result<bool, Trouble> {
    let wanted = read_wanted(rt, folder, files, update)?;
    let (Some(wanted), Some(script)) = (wanted, files.script.as_ref()) else {
        return Ok(true);
    };
    let limits = limits_of(rt, folder)?;
    let found = outcome_of_run(rt, folder, files, script.as_str(), limits);
    if wanted.is_like(&found) {
        return Ok(true);
    }
    write_differences(says, rt.alloc(), &wanted, &found)?;
    Ok(update && update_outcome(rt, folder, &found, says)?)
}

/// Reads the outcome that a case wants of its script. If no report exists yet, and one is to be written, it
/// puts an empty one there.
fn read_wanted<R: Files + AllocGlobal>(
    rt: &R,
    folder: &str,
    files: &CaseFiles,
    update: bool,
) -> Result<Option<Outcome>, Trouble> {
    let mut report = read_in(rt, folder, "report.txt")?;
    let refusal = read_in(rt, folder, "refusal.txt")?;
    let has_script = files.script.is_some();
    if update && has_script && report.is_none() && refusal.is_none() {
        begin_report(rt, folder)?;
        report = Some(Vec::new(rt.alloc()));
    }
    wanted_outcome(rt.alloc(), has_script, report, refusal).map_err(Trouble::Unclear)
}

fn try_check<R: Files + AllocGlobal>(
    rt: &R,
    folder: &str,
    files: &CaseFiles,
    update: bool,
    says: &mut Vec<u8>,
) -> Result<bool, Trouble> {
    let Some(wanted) = read_in(rt, folder, "check.txt")? else {
        return Ok(true);
    };
    let found = text_of_check(rt, folder, files)?;
    if wanted.as_slice() == found.as_slice() {
        return Ok(true);
    }
    write_part(
        says,
        rt.alloc(),
        "check",
        wanted.as_slice(),
        found.as_slice(),
    )?;
    if update {
        update_check(rt, folder, found.as_slice(), says)?;
    }
    Ok(update)
}

/// Reads how many row numbers each table has, of `rows.txt` if it exists.
fn limits_of<R: Files + AllocGlobal>(rt: &R, folder: &str) -> Result<Limits, Trouble>
    ensures { IfOk result (λ limits. limits.row_numbers ≤ MOST_ROW_NUMBERS) }
{
    let row_numbers = match read_in(rt, folder, "rows.txt")? {
        None => USUAL_ROW_NUMBERS,
        Some(text) => row_numbers_of(text.as_slice()).ok_or(Trouble::Rows)?,
    };
    Ok(Limits { row_numbers })
}

/// Reads a number of rows of a text, if it is one.
fn row_numbers_of(text: &[u8]) -> Option<u64>
    ensures { IfSome result (λ number. number ≤ MOST_ROW_NUMBERS) }
{
    let number = str::from_utf8(text).ok()?.trim().parse::<u64>().ok()?;
    if number >= 1 && number <= MOST_ROW_NUMBERS {
        Some(number)
    } else {
        None
    }
}
