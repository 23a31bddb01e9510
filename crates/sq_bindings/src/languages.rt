//! The host's languages that modules are bound to.

use crate::c::{C_END, passes_in_c, start_in_c};
use crate::c_words::words_in_use_in_c;
use crate::cobol::{COBOL_END, passes_in_cobol};
use crate::cobol_words::words_in_use_in_cobol;
use crate::language::{Host, Language, Naming, Pass};
use std::alloc::{AllocError, Global};

/// The names that are in use in a host's language.
pub fn words_in_use(alloc: Global, host: Host) -> Result<Vec<&'static [u8]>, AllocError> {
    match host {
        Host::C => words_in_use_in_c(alloc),
        Host::Cobol => words_in_use_in_cobol(alloc),
    }
}

/// The passes over each module that make a text for a host's language.
pub fn passes_of(alloc: Global, host: Host) -> Result<Vec<Pass<'static>>, AllocError> {
    match host {
        Host::C => passes_in_c(alloc),
        Host::Cobol => passes_in_cobol(alloc),
    }
}

/// The templates of a host's language, which keep off the words that are in use there.
pub fn language_of<'a>(host: Host, words: &'a [&'a [u8]], passes: &'a [Pass<'a>]) -> Language<'a> {
    let naming = Naming { host, words };
    let (start, end) = match host {
        Host::C => (start_in_c(), C_END),
        Host::Cobol => ("", COBOL_END),
    };
    Language {
        naming,
        start,
        passes,
        end,
    }
}
