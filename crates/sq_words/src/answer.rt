//! What is said in place of a task.
ghost use Rattle.std.specs.Prelude.{◌≡◌, ◌↔◌, IsTrue, map, string_bytes};
ghost use Rattle.clap.specs.Values.{kind_of};
ghost use Rattle.clap.specs.declared.error.kind.ErrorKind.TheVariants.{OutOfMemory};
ghost use Rattle.sq_words.specs.Answer as spec;

use clap::Error;
use clap::error::ErrorKind;
use std::fmt;
use std::marker::Model;

/// What `clap` answers words that ask for no task: help or the version, or why it refuses them.
#[derive(Drop)]
pub struct Answer {
    error: Error,
}

impl Model for Answer {
    ghost use Rattle.clap.specs.declared.error.Error.{Error};

    ghost Value = { Error };

    ghost view = { λ answer. answer.error };
}

impl Answer {
    /// Makes the answer of an error.
    pub(crate) fn new(error: Error) -> Answer
        ensures { result ≡ error }
    {
        Answer { error }
    }

    /// Whether the words, which it answers, ask for it: for the version, or by `sqmod help` for help.
    pub fn is_asked_for(&self, words: &[String]) -> bool
        ensures { result ≡ spec.is_asked_for (map string_bytes words.now) (kind_of self.now) }
    {
        match self.error.kind() {
            ErrorKind::DisplayVersion => true,
            ErrorKind::DisplayHelp => words.get(1).is_some_and(|word| word.as_str() == "help"),
            _ => false,
        }
    }

    /// Whether memory ran out before the words were read.
    pub fn is_want_of_memory(&self) -> bool
        ensures { IsTrue result ↔ (kind_of self.now ≡ OutOfMemory) }
    {
        self.error.kind() == ErrorKind::OutOfMemory
    }
}

impl fmt::Display for Answer {
    fn fmt<W: fmt::Write>(&self, f: &mut fmt::Formatter<W>) -> fmt::Result {
        self.error.fmt(f)
    }
}
