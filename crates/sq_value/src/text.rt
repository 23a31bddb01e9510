//! Texts.

ghost use Rattle.std.specs.Prelude.{◌≡◌, ◌≤◌, IfOk, IsFalse, IsTrue, ◌==◌, take, replicate};
ghost use Rattle.std.specs.List.{list_all};
ghost use Rattle.sq_value.specs.Text.{IsText, of_length, only_blanks_past, trimmed};

use sq_items::Items;
use std::alloc::{AllocError, Global};
use std::marker::Model;

/// A text of at most 240 codes, each from 32 to 126. Contracts see it as the list of its codes.
#[derive(Debug, Drop)]
pub struct Text {
    codes: Items<u8>,
}

impl Model for Text {
    ghost use Rattle.std.specs.Prelude.{List, ℕ};
    ghost use Rattle.sq_value.specs.Text.{IsText};

    ghost Value = { List ℕ };

    ghost view = { λ t. t.codes };

    ghost invariant = { λ t. IsText t.codes };
}

impl Text {
    /// Whether these codes make a text: at most 240, each from 32 to 126.
    pub fn is_text(codes: &[u8]) -> bool
        ensures text { IsTrue result → IsText codes.now }
        ensures no_text { IsFalse result → IsText codes.now → ⊥ }
    {
        codes.len() <= 240 && codes.iter().all(|code| 32 <= *code && *code <= 126)
    }

    /// A text of these codes.
    pub fn new(alloc: Global, codes: &[u8]) -> Result<Text, AllocError>
        requires { IsText codes.now }
        ensures { IfOk result (λ text. text ≡ codes.now) }
    {
        Ok(Text {
            codes: Items::from_slice(alloc, codes)?,
        })
    }

    /// Lends the codes.
    pub fn codes(&self) -> &[u8]
        ensures value { result.now ≡ self.now }
        ensures codes { IsText self.now }
    {
        self.codes.as_slice()
    }

    /// A text with the same codes.
    pub fn copy(&self, alloc: Global) -> Result<Text, AllocError>
        ensures { IfOk result (λ text. text ≡ self.now) }
    {
        Text::new(alloc, self.codes())
    }

    /// Whether only blanks follow the first `length` codes.
    pub(crate) fn has_only_blanks_past(&self, length: u16) -> bool
        ensures { result ≡ only_blanks_past length self.now }
    {
        only_blanks_past(self.codes(), length as usize)
    }

    /// The codes without the blanks at their end.
    pub(crate) fn without_blanks(&self) -> &[u8]
        ensures { result.now ≡ trimmed self.now }
    {
        without_blanks(self.codes())
    }

    /// The first `length` codes, padded with blanks to that length.
    pub(crate) fn of_length(&self, alloc: Global, length: u16) -> Result<Text, AllocError>
        requires { length ≤ 240 }
        ensures { IfOk result (λ text. text ≡ of_length length self.now) }
    {
        let length = length as usize;
        let mut padded = Vec::with_capacity(alloc, length)?;
        padded.extend_from_slice(self.first(length))?;
        padded.resize(length, b' ')?;
        Ok(Text {
            codes: Items::from_vec(padded),
        })
    }

    /// A text of `length` blanks.
    pub(crate) fn blanks(alloc: Global, length: u16) -> Result<Text, AllocError>
        requires { length ≤ 240 }
        ensures { IfOk result (λ text. text ≡ replicate length 32) }
    {
        Ok(Text {
            codes: Items::from_vec(vec![in alloc; b' '; length as usize]?),
        })
    }

    /// At most the first `length` codes.
    fn first(&self, length: usize) -> &[u8]
        ensures value { result.now ≡ take length self.now }
        ensures codes { IsText result.now }
    {
        let codes = self.codes();
        &codes[..codes.len().min(length)]
    }

    /// The first `length` codes, or all if there are fewer.
    pub(crate) fn cut(&self, alloc: Global, length: u16) -> Result<Text, AllocError>
        ensures { IfOk result (λ text. text ≡ take length self.now) }
    {
        Text::new(alloc, self.first(length as usize))
    }
}

/// Whether only blanks follow the first `length` codes.
fn only_blanks_past(codes: &[u8], length: usize) -> bool
    ensures { result ≡ only_blanks_past length codes.now }
{
    codes.len() <= length || only_blanks(&codes[length..])
}

fn only_blanks(codes: &[u8]) -> bool
    ensures { result ≡ list_all (λ c. c == 32) codes.now }
{
    codes.iter().all(|code| *code == b' ')
}

#[tactic(auto, using(crate::proofs::Trim::trimmed_blank, crate::proofs::Trim::trimmed_other))]
fn without_blanks(mut codes: &[u8]) -> &[u8]
    ensures { result.now ≡ trimmed codes.entry.now }
{
    while let Some((last, front)) = codes.split_last() {
        if *last != b' ' {
            break;
        }
        codes = front;
    }
    codes
}
