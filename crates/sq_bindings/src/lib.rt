//! Texts by which host programs call the procedures of modules: a header for C and a copybook for COBOL, over
//! host/sqmod.h.
//!
//! A text is made of the tree of a module by templates, which `c` and `cobol` hold as data.
#![tactic(auto)]

mod binding;
mod c;
mod c_words;
mod cobol;
mod cobol_words;
mod language;
mod languages;
mod mention;
mod names;
mod parameter;
mod picture;
mod template;

pub use binding::bind_modules;
pub use language::{Host, Language, Pass};
pub use languages::{language_of, passes_of, words_in_use};
