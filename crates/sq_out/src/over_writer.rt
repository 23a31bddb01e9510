//! An output over a writer of std.

ghost use Rattle.std.specs.Prelude.{◌≡◌, ◌≤◌, ◌||◌, false, length, IsErr, MatchResult};
ghost use Rattle.sq_out.specs.Fault.{is_fault};

use crate::out::{Out, OutFault};
use std::io::{self, Write};
use std::marker::Model;

/// An output over a writer of std.
///
/// It takes the bytes that the writer takes. It has failed exactly if a write of it gave an error or took 0 bytes of
/// at least one.
#[derive(Drop)]
pub struct OutOf<W> {
    writer: W,
    failed: bool,
}

impl<W> Model for OutOf<W> {
    ghost use Rattle.sq_out.specs.OverWriter.{OverWriter};

    ghost Value = { OverWriter W };

    ghost view = { λ out. record { writer = out.writer; failed = out.failed } };
}

impl<W> OutOf<W> {
    /// An output that has taken the bytes that the writer holds and hasn't failed.
    pub fn new(writer: W) -> OutOf<W>
        ensures { result ≡ record { writer = writer; failed = false } }
    {
        OutOf {
            writer,
            failed: false,
        }
    }

    /// The writer, with the bytes that it has taken.
    pub fn into_writer(self) -> W
        ensures { result ≡ self.writer }
    {
        let OutOf { writer, .. } = self;
        writer
    }

    /// Records whether the writer failed, and passes its result on.
    fn noted(&mut self, answer: io::Result<usize>, offered: usize) -> Result<usize, OutFault>
        ensures noted { self.new ≡ record self.old { failed = self.old.failed || is_fault result offered } }
        ensures answer { MatchResult answer (λ count. result ≡ Ok count) (λ _. IsErr result) }
    {
        match answer {
            Ok(count) => {
                if count == 0 && offered > 0 {
                    self.failed = true;
                }
                Ok(count)
            }
            Err(_) => {
                self.failed = true;
                Err(OutFault)
            }
        }
    }
}

impl<W: Write> Out for OutOf<W> {
    ghost taken = { λ out. W.contents out.writer };

    ghost failed = { λ out. out.failed };

    fn write(&mut self, bytes: &[u8]) -> Result<usize, OutFault> {
        let answer = self.writer.write(bytes);
        self.noted(answer, bytes.len())
    }
}
