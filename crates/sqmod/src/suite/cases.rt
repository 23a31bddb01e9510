//! The cases below a folder.
use std::alloc::{AllocError, Global};
use std::io::ErrorKind;
use std::rt::Files;
use std::{fs, io};

/// How deep folders may lie in each other.
const MOST_LEVELS: usize = 100;

/// The folder that the cases of the folder around it share.
pub(crate) const SETUP: &str = "setup";

/// The names of what a folder holds, in their order.
#[derive(Drop)]
pub(crate) struct Listing {
    pub(crate) files: Vec<String>,
    pub(crate) folders: Vec<String>,
}

impl Listing {
    /// Lists what a folder holds.
    pub(crate) fn read<R: Files + AllocGlobal + Clone + Drop>(
        rt: &R,
        folder: &str,
    ) -> io::Result<Listing> {
        let mut listing = Listing {
            files: Vec::new(rt.alloc()),
            folders: Vec::new(rt.alloc()),
        };
        for entry in fs::read_dir(rt, folder)? {
            listing.add(rt.alloc(), &entry?)?;
        }
        listing.files.sort()?;
        listing.folders.sort()?;
        Ok(listing)
    }

    fn add<R: Files>(&mut self, alloc: Global, entry: &fs::DirEntry<R>) -> io::Result<()> {
        let name = String::from_str(alloc, entry.file_name())?;
        if entry.file_type()?.is_dir() {
            self.folders.push(name)?;
        } else {
            self.files.push(name)?;
        }
        Ok(())
    }

    /// Whether the folder is a case.
    fn is_case(&self) -> bool {
        self.has("script.txt") || self.has("check.txt")
    }

    /// Whether the folder has a file of this name.
    pub(crate) fn has(&self, file: &str) -> bool {
        self.files.iter().any(|name| name.as_str() == file)
    }
}

/// The folders of the cases at and below a folder.
pub(crate) fn cases_below<R: Files + AllocGlobal + Clone + Drop>(
    rt: &R,
    folder: &str,
) -> io::Result<Vec<String>> {
    let mut cases = Vec::new(rt.alloc());
    add_cases(rt, folder, MOST_LEVELS, &mut cases)?;
    Ok(cases)
}

/// Adds the folders of the cases at and below a folder, which may have as many levels below it.
fn add_cases<R: Files + AllocGlobal + Clone + Drop>(
    rt: &R,
    folder: &str,
    levels: usize,
    cases: &mut Vec<String>,
) -> io::Result<()> {
    if levels == 0 {
        return Err(ErrorKind::InvalidFilename.into());
    }
    let listing = Listing::read(rt, folder)?;
    if listing.is_case() {
        cases.push(String::from_str(rt.alloc(), folder)?)?;
    }
    for name in listing.folders.iter() {
        if name.as_str() != SETUP {
            let below = path_in(rt.alloc(), folder, name.as_str())?;
            add_cases(rt, below.as_str(), levels - 1, cases)?;
        }
    }
    Ok(())
}

/// Makes the path of the entry with this name in a folder.
pub(crate) fn path_in(alloc: Global, folder: &str, name: &str) -> Result<String, AllocError> {
    format!(in alloc; "{folder}/{name}")
}
