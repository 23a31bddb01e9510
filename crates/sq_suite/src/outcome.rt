//! The outcome that a case wants, the one that it has, and how the two differ.
ghost use Rattle.std.specs.Prelude.{◌≡◌, ◌↔◌, IsTrue};
ghost use Rattle.sq_suite.specs.Outcome as spec;

use crate::bytes::push_indented;
use crate::difference::write_difference;
use std::alloc::{AllocError, Global};
use std::fmt;

/// The bytes that a program writes to standard output and to standard error, and its status.
#[derive(Debug, Drop)]
pub struct Outcome {
    /// The bytes on standard output.
    pub report: Vec<u8>,
    /// The bytes on standard error.
    pub errors: Vec<u8>,
    /// The status that it ends with.
    pub status: u8,
}

/// Why a folder doesn't say what its script comes to.
#[derive(Clone, Copy, Debug, PartialEq, Eq)]
pub enum Unclear {
    /// It has neither a report nor a refusal.
    Neither,
    /// It has both.
    Both,
    /// It has one of them, and no script.
    NoScript,
}

impl fmt::Display for Unclear {
    fn fmt<W: fmt::Write>(&self, f: &mut fmt::Formatter<W>) -> fmt::Result {
        f.write_str(match self {
            Unclear::Neither => "there is neither report.txt nor refusal.txt",
            Unclear::Both => "there are both report.txt and refusal.txt",
            Unclear::NoScript => "there is no script.txt",
        })
    }
}

/// Makes the outcome that a folder wants of its script, if it has one, by its `report.txt` and its
/// `refusal.txt`.
pub fn wanted_outcome(
    alloc: Global,
    has_script: bool,
    report: Option<Vec<u8>>,
    refusal: Option<Vec<u8>>,
) -> Result<Option<Outcome>, Unclear>
    ensures { spec.Wants has_script report refusal result }
{
    match (has_script, report, refusal) {
        (true, Some(report), None) => Ok(Some(Outcome {
            report,
            errors: Vec::new(alloc),
            status: 0,
        })),
        (true, None, Some(errors)) => Ok(Some(Outcome {
            report: Vec::new(alloc),
            errors,
            status: 2,
        })),
        (true, None, None) => Err(Unclear::Neither),
        (false, None, None) => Ok(None),
        (_, Some(report), Some(refusal)) => {
            drop(report);
            drop(refusal);
            Err(Unclear::Both)
        }
        (false, report, refusal) => {
            drop(report);
            drop(refusal);
            Err(Unclear::NoScript)
        }
    }
}

impl Outcome {
    /// Whether this is the same, byte by byte.
    pub fn is_like(&self, other: &Outcome) -> bool
        ensures { IsTrue result ↔ spec.IsLike self.now other.now }
    {
        self.report.as_slice() == other.report.as_slice()
            && self.errors.as_slice() == other.errors.as_slice()
            && self.status == other.status
    }
}

/// Adds how what was found differs from what is wanted.
pub fn write_differences(
    out: &mut Vec<u8>,
    alloc: Global,
    wanted: &Outcome,
    found: &Outcome,
) -> Result<(), AllocError> {
    let report = wanted.report.as_slice();
    write_part(out, alloc, "report", report, found.report.as_slice())?;
    let errors = wanted.errors.as_slice();
    write_part(out, alloc, "errors", errors, found.errors.as_slice())?;
    write_status(out, alloc, wanted.status, found.status)
}

fn write_status(out: &mut Vec<u8>, alloc: Global, wanted: u8, found: u8) -> Result<(), AllocError> {
    if wanted == found {
        return Ok(());
    }
    let line = format!(in alloc; "status: {found}, wanted {wanted}\n")?;
    out.extend_from_slice(line.as_bytes())
}

/// Adds how a part that was found differs from the wanted one, if it does, below the part's name.
pub fn write_part(
    out: &mut Vec<u8>,
    alloc: Global,
    name: &str,
    wanted: &[u8],
    found: &[u8],
) -> Result<(), AllocError> {
    if wanted == found {
        return Ok(());
    }
    let mut difference = Vec::new(alloc);
    write_difference(&mut difference, alloc, wanted, found)?;
    write_block(out, name, difference.as_slice())
}

/// Adds lines below a name, as YAML has them.
pub fn write_block(out: &mut Vec<u8>, name: &str, lines: &[u8]) -> Result<(), AllocError> {
    out.extend_from_slice(name.as_bytes())?;
    out.extend_from_slice(b": |\n")?;
    push_indented(out, lines)
}
