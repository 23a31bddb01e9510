//! The files of a case.
use crate::fault::Fault;
use crate::suite::cases::{Listing, SETUP, path_in};
use sq_suite::{Kind, kind_of};
use sq_words::Source;
use std::alloc::{AllocError, Global};
use std::io::ErrorKind;
use std::rt::Files;
use std::{fs, io};

/// The paths of a case's schemas, modules and scripts: first the setups' that it shares, then its own.
#[derive(Drop)]
pub(crate) struct CaseFiles {
    pub(crate) schemas: Vec<String>,
    pub(crate) modules: Vec<String>,
    pub(crate) setups: Vec<String>,
    pub(crate) script: Option<String>,
}

impl CaseFiles {
    /// Lists the files of a case below one of the folders of a suite, whose path has `root` bytes.
    pub(crate) fn read<R: Files + AllocGlobal + Clone + Drop>(
        rt: &R,
        case: &str,
        root: usize,
    ) -> io::Result<CaseFiles> {
        let alloc = rt.alloc();
        let mut files = CaseFiles {
            schemas: Vec::new(alloc),
            modules: Vec::new(alloc),
            setups: Vec::new(alloc),
            script: None,
        };
        let folders = shared_folders(rt, case, root)?;
        for setup in folders.iter() {
            if let Some(script) = files.add(rt, setup.as_str())? {
                files.setups.push(script)?;
            }
        }
        files.script = files.add(rt, case)?;
        Ok(files)
    }

    /// The path of the schema or the module that a fault is about.
    pub(crate) fn path(&self, fault: Fault) -> Option<&str> {
        match fault {
            Fault::Unread(source) | Fault::Refused(source, _) => self.path_of(source),
            Fault::Output | Fault::NoMemory(_) => None,
        }
    }

    fn path_of(&self, source: Source) -> Option<&str> {
        match source {
            Source::Schema(index) => self.schemas.get(index).map(|path| path.as_str()),
            Source::Module(index) => self.modules.get(index).map(|path| path.as_str()),
            Source::Script => None,
        }
    }

    /// Adds the schemas and modules of a folder, and gives its script.
    fn add<R: Files + AllocGlobal + Clone + Drop>(
        &mut self,
        rt: &R,
        folder: &str,
    ) -> io::Result<Option<String>> {
        let listing = Listing::read(rt, folder)?;
        for name in listing.files.iter() {
            self.add_text(rt.alloc(), folder, name.as_str())?;
        }
        if listing.has("script.txt") {
            Ok(Some(path_in(rt.alloc(), folder, "script.txt")?))
        } else {
            Ok(None)
        }
    }

    fn add_text(&mut self, alloc: Global, folder: &str, name: &str) -> Result<(), AllocError> {
        match kind_of(name) {
            Kind::Schema => self.schemas.push(path_in(alloc, folder, name)?)?,
            Kind::Module => self.modules.push(path_in(alloc, folder, name)?)?,
            Kind::Other => (),
        }
        Ok(())
    }
}

/// The folders that a case shares with others: `setup` in each folder from the suite's on to the case's.
fn shared_folders<R: Files + AllocGlobal>(
    rt: &R,
    case: &str,
    root: usize,
) -> io::Result<Vec<String>> {
    let mut folders = Vec::new(rt.alloc());
    for (at, _) in case.match_indices('/') {
        if at >= root {
            add_setup(rt, case.get(..at), &mut folders)?;
        }
    }
    add_setup(rt, Some(case), &mut folders)?;
    Ok(folders)
}

/// Adds the setup of a folder, if it has one.
fn add_setup<R: Files + AllocGlobal>(
    rt: &R,
    folder: Option<&str>,
    setups: &mut Vec<String>,
) -> io::Result<()> {
    let Some(folder) = folder else {
        return Ok(());
    };
    let setup = path_in(rt.alloc(), folder, SETUP)?;
    if is_folder(rt, setup.as_str()) {
        setups.push(setup)?;
    }
    Ok(())
}

fn is_folder<R: Files>(rt: &R, path: &str) -> bool {
    match rt.metadata(path) {
        Ok(metadata) => metadata.is_dir(),
        Err(_) => false,
    }
}

/// Reads the bytes of a file of a folder, if such a file exists.
pub(crate) fn read_in<R: Files + AllocGlobal>(
    rt: &R,
    folder: &str,
    name: &str,
) -> io::Result<Option<Vec<u8>>> {
    let path = path_in(rt.alloc(), folder, name)?;
    match fs::read(rt, path.as_str()) {
        Ok(text) => Ok(Some(text)),
        Err(error) => {
            if error.kind() == ErrorKind::NotFound {
                Ok(None)
            } else {
                Err(error)
            }
        }
    }
}
