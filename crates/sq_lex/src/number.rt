//! The spellings of numbers, in place.

ghost use Rattle.std.specs.Prelude.{◌≡◌, ◌≤◌, length, nat_eq};
ghost use Rattle.std.specs.Cmp.{partial_equiv_from_equiv};
ghost use Rattle.std.specs.Cmp.Lexicographic.{pointwise, nat_list_eq_equiv};
ghost use Rattle.sq_lex.specs.Number.{IsNumberSpelling};

use std::marker::Model;

/// A number as it is spelled: from 1 to 18 digits and at most one point, in place. Contracts see it as the list of its codes.
#[derive(Clone, Copy, Debug)]
pub struct Number {
    codes: [u8; 19],
    len: u8,
}

impl Model for Number {
    ghost use Rattle.std.specs.Prelude.{List, ℕ, ◌≡◌, ◌≤◌, take, length};
    ghost use Rattle.std.proofs.Common.{arith, sym, length-take-le};

    ghost Value = { List ℕ };

    ghost use Rattle.sq_lex.specs.Number.{padded, IsPadded};

    ghost view = { λ n. take n.len n.codes };

    ghost invariant = { IsPadded };

    ghost inverse = { λ v. record { codes = padded v; len = length v } };

    ghost inverse_ok = { λ n h i. record {
      codes = sym h.zeros i;
      len = length-take-le n.len n.codes (Prim.omega (arith, h.long, h.short)) i;
    } };
}

impl Number {
    /// The number with this spelling.
    pub fn new(codes: &[u8]) -> Number
        requires { IsNumberSpelling codes.now }
        ensures { result ≡ codes.now }
    {
        let mut padded = [0; 19];
        padded[..codes.len()].copy_from_slice(codes);
        Number {
            codes: padded,
            len: codes.len() as u8,
        }
    }

    /// Lends the codes of the spelling.
    pub fn codes(&self) -> &[u8]
        ensures value { result.now ≡ self.now }
        ensures short { length self.now ≤ 19 }
        ensures spelled { IsNumberSpelling self.now }
    {
        &self.codes[..self.len as usize]
    }
}

impl PartialEq for Number {
    ghost eq = { pointwise nat_eq };

    ghost laws = { partial_equiv_from_equiv nat_list_eq_equiv };

    fn eq(&self, other: &Self) -> bool {
        self.codes() == other.codes()
    }
}

impl Eq for Number {
    ghost laws = { nat_list_eq_equiv };
}
