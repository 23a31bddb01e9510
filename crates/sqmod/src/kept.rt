//! Standard output and standard error that are kept.
use std::alloc::Global;
use std::cell::RefCell;
use std::fmt::Display;
use std::io::{self, ErrorKind};

/// A handle that keeps what is printed, to standard output or to standard error, in one text.
#[derive(Drop)]
pub(crate) struct Kept {
    alloc: Global,
    text: RefCell<Vec<u8>>,
}

impl Kept {
    /// Makes a handle that keeps nothing yet.
    pub(crate) fn new(alloc: Global) -> Kept {
        Kept {
            alloc,
            text: RefCell::new(Vec::new(alloc)),
        }
    }

    /// Gives the text that was printed.
    pub(crate) fn into_text(self) -> Vec<u8> {
        let Kept { text, .. } = self;
        text.into_inner()
    }

    fn keep(&self, bytes: &[u8]) -> io::Result<()> {
        match self.text.try_borrow_mut() {
            Ok(mut text) => Ok(text.extend_from_slice(bytes)?),
            Err(_) => Err(ErrorKind::Other.into()),
        }
    }

    fn keep_value<D: Display + Drop>(&self, value: D, end: &str) -> io::Result<()> {
        let text = format!(in self.alloc; "{value}{end}")?;
        self.keep(text.as_bytes())
    }
}

impl Print for Kept {
    fn print<D: Display + Drop>(&self, value: D) -> io::Result<()> {
        self.keep_value(value, "")
    }

    fn println<D: Display + Drop>(&self, value: D) -> io::Result<()> {
        self.keep_value(value, "\n")
    }

    fn write_all(&self, bytes: &[u8]) -> io::Result<()> {
        self.keep(bytes)
    }
}

impl Eprint for Kept {
    fn eprint<D: Display + Drop>(&self, value: D) -> io::Result<()> {
        self.keep_value(value, "")
    }

    fn eprintln<D: Display + Drop>(&self, value: D) -> io::Result<()> {
        self.keep_value(value, "\n")
    }
}
