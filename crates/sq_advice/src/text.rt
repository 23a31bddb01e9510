//! Texts, and the places at which their lines begin.

use sq_lex::Position;
use std::alloc::{AllocError, Global};

/// A text, and the first byte of each of its lines.
#[derive(Drop)]
pub struct Text<'t> {
    pub bytes: &'t [u8],
    starts: Vec<usize>,
}

impl<'t> Text<'t> {
    /// Reads a text once, to find where its lines begin.
    pub fn new(alloc: Global, bytes: &'t [u8]) -> Result<Text<'t>, AllocError> {
        let mut starts = Vec::new(alloc);
        starts.push(0)?;
        for (index, byte) in bytes.iter().enumerate() {
            if *byte == b'\n' {
                starts.push(index.saturating_add(1))?;
            }
        }
        Ok(Text { bytes, starts })
    }

    /// Gives the line and column of a byte, both from 1; past the text's end, of its end.
    pub fn place(&self, byte: usize) -> Position {
        let byte = byte.min(self.bytes.len());
        let line = self
            .starts
            .as_slice()
            .partition_point(|start| *start <= byte);
        let start = self.start_of(line);
        Position {
            byte,
            line,
            column: byte.saturating_sub(start).saturating_add(1),
        }
    }

    /// The byte at a line and column, both from 1.
    pub fn byte_at(&self, line: usize, column: usize) -> usize {
        self.start_of(line).saturating_add(column.saturating_sub(1))
    }

    /// The first byte of a line, which are counted from 1; past the last line the text's end.
    fn start_of(&self, line: usize) -> usize {
        match self.starts.get(line.saturating_sub(1)) {
            Some(start) => *start,
            None => self.bytes.len(),
        }
    }
}
