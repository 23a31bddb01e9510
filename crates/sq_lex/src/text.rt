//! The characters of text literals.

ghost use Rattle.std.specs.Prelude.{◌≡◌, IfOk};
ghost use Rattle.sq_lex.specs.Text.{AreCharacters};

use sq_items::Items;
use std::alloc::{AllocError, Global};
use std::marker::Model;

/// The characters of a text literal, each doubled quote once: at most 240, each printable. Contracts see them as the list of
/// their codes.
#[derive(Debug, Drop)]
pub struct Characters {
    codes: Items<u8>,
}

impl Model for Characters {
    ghost use Rattle.std.specs.Prelude.{List, ℕ};
    ghost use Rattle.sq_lex.specs.Text.{AreCharacters};

    ghost Value = { List ℕ };

    ghost view = { λ t. t.codes };

    ghost invariant = { λ t. AreCharacters t.codes };
}

impl Characters {
    /// The characters with these codes, which are moved.
    pub fn from_items(codes: Items<u8>) -> Characters
        requires { AreCharacters codes }
        ensures { result ≡ codes }
    {
        Characters { codes }
    }

    /// Lends the codes.
    pub fn codes(&self) -> &[u8]
        ensures value { result.now ≡ self.now }
        ensures characters { AreCharacters self.now }
    {
        self.codes.as_slice()
    }

    /// A copy of the characters.
    pub fn copy(&self, alloc: Global) -> Result<Characters, AllocError>
        ensures { IfOk result (λ copy. copy ≡ self.now) }
    {
        let codes = Items::from_slice(alloc, self.codes())?;
        Ok(Characters::from_items(codes))
    }
}
