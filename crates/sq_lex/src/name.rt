//! Names, in place.

ghost use Rattle.std.specs.Prelude.{◌≡◌, ◌≤◌, length, Some, refl, nat_eq};
ghost use Rattle.std.specs.List.{All};
ghost use Rattle.std.specs.Ordering.{nat_cmp};
ghost use Rattle.std.specs.Cmp.{on_equiv, on_total, on_po, on_per, partial_equiv_from_equiv};
ghost use Rattle.std.specs.Cmp.Lexicographic.{pointwise, slice_cmp, nat_list_eq_equiv, nat_list_cmp_total, texts_po, texts_ties};
ghost use Rattle.std.specs.Cmp.Rules.{hashing};
ghost use Rattle.std.specs.Hash as fed;
ghost use Rattle.std.proofs.Common.{rules};
ghost use Rattle.sq_lex.specs.Characters.{IsPrintable};
ghost use Rattle.sq_lex.specs.Name.{IsWordSpelling};

use std::cmp::Ordering;
use std::hash::{Hash, Hasher};
use std::marker::Model;

/// An identifier, folded to upper case: a letter, then letters, digits and `_`, up to 18 of them, in place. Contracts see it as
/// the list of its codes.
#[derive(Clone, Copy, Debug)]
pub struct Name {
    codes: [u8; 18],
    len: u8,
}

impl Model for Name {
    ghost use Rattle.std.specs.Prelude.{List, ℕ, ◌≡◌, ◌≤◌, take, length};
    ghost use Rattle.std.proofs.Common.{arith, sym, length-take-le};

    ghost Value = { List ℕ };

    ghost use Rattle.sq_lex.specs.Name.{padded, IsPadded};

    ghost view = { λ n. take n.len n.codes };

    ghost invariant = { IsPadded };

    ghost inverse = { λ v. record { codes = padded v; len = length v } };

    ghost inverse_ok = { λ n h i. record {
      codes = sym h.zeros i;
      len = length-take-le n.len n.codes (Prim.omega (arith, h.long, h.short)) i;
    } };
}

impl Name {
    /// The name with these codes.
    pub fn new(codes: &[u8]) -> Name
        requires { IsWordSpelling codes.now }
        ensures { result ≡ codes.now }
    {
        let mut padded = [0; 18];
        padded[..codes.len()].copy_from_slice(codes);
        Name {
            codes: padded,
            len: codes.len() as u8,
        }
    }

    /// Lends the codes, which are printable characters.
    pub fn codes(&self) -> &[u8]
        ensures value { result.now ≡ self.now }
        ensures short { length self.now ≤ 18 }
        ensures spelled { IsWordSpelling self.now }
        ensures printable { All IsPrintable self.now }
    {
        &self.codes[..self.len as usize]
    }
}

impl PartialEq for Name {
    ghost eq = { pointwise nat_eq };

    ghost laws = { partial_equiv_from_equiv nat_list_eq_equiv };

    fn eq(&self, other: &Self) -> bool {
        self.codes() == other.codes()
    }
}

impl Eq for Name {
    ghost laws = { nat_list_eq_equiv };
}

impl PartialOrd for Name {
    ghost partial_cmp = { λ s t. Some (slice_cmp nat_cmp s t) };

    ghost laws = { texts_po };

    fn partial_cmp(&self, other: &Self) -> Option<Ordering> {
        Some(self.cmp(other))
    }
}

impl Ord for Name {
    ghost cmp = { slice_cmp nat_cmp };

    ghost total = { nat_list_cmp_total };

    ghost matches_partial_cmp = { λ s t. refl };

    ghost matches_eq = { λ s t. texts_ties s t };

    fn cmp(&self, other: &Self) -> Ordering {
        self.codes().cmp(other.codes())
    }
}

impl Hash for Name {
    ghost hash_input = { λ s. fed.slice fed.u8 s };

    ghost respects_eq = { Prim.search (hashing, rules) };

    fn hash<H: Hasher>(&self, state: &mut H) {
        self.codes().hash(state);
    }
}
