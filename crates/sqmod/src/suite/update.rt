//! The texts of a case, written anew.
use crate::suite::cases::path_in;
use sq_suite::Outcome;
use std::io::ErrorKind;
use std::rt::Files;
use std::{fs, io};

/// Puts an empty report into a case's folder.
pub(crate) fn begin_report<R: Files + AllocGlobal>(rt: &R, folder: &str) -> io::Result<()> {
    write_in(rt, folder, "report.txt", b"")
}

/// Writes the outcome of a run in place of the wanted one, if it is a report or a refusal, and says so.
pub(crate) fn update_outcome<R: Files + AllocGlobal>(
    rt: &R,
    folder: &str,
    found: &Outcome,
    says: &mut Vec<u8>,
) -> io::Result<bool> {
    match found.status {
        0 => {
            write_in(rt, folder, "report.txt", found.report.as_slice())?;
            remove_in(rt, folder, "refusal.txt")?;
            says.extend_from_slice(b"updated: report.txt\n")?;
            Ok(true)
        }
        2 => {
            write_in(rt, folder, "refusal.txt", found.errors.as_slice())?;
            remove_in(rt, folder, "report.txt")?;
            says.extend_from_slice(b"updated: refusal.txt\n")?;
            Ok(true)
        }
        _ => Ok(false),
    }
}

/// Writes the text of a check in place of the wanted one, and says so.
pub(crate) fn update_check<R: Files + AllocGlobal>(
    rt: &R,
    folder: &str,
    found: &[u8],
    says: &mut Vec<u8>,
) -> io::Result<()> {
    write_in(rt, folder, "check.txt", found)?;
    says.extend_from_slice(b"updated: check.txt\n")?;
    Ok(())
}

fn write_in<R: Files + AllocGlobal>(
    rt: &R,
    folder: &str,
    name: &str,
    text: &[u8],
) -> io::Result<()> {
    let path = path_in(rt.alloc(), folder, name)?;
    fs::write(rt, path.as_str(), text)
}

/// Removes a file, if it exists.
fn remove_in<R: Files + AllocGlobal>(rt: &R, folder: &str, name: &str) -> io::Result<()> {
    let path = path_in(rt.alloc(), folder, name)?;
    match rt.remove_file(path.as_str()) {
        Ok(()) => Ok(()),
        Err(error) => {
            if error.kind() == ErrorKind::NotFound {
                Ok(())
            } else {
                Err(error)
            }
        }
    }
}
