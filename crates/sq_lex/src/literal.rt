//! Text literals.

ghost use Rattle.std.specs.Prelude.{◌≡◌, ◌+◌, ◌++◌, ◌∷◌, ◌≤◌, [], length, IfOk, OnOk};
ghost use Rattle.sq_lex.specs.Literal as spec;

use crate::characters::{is_line_end, is_printable};
use sq_items::Items;
use std::alloc::{AllocError, Global};

/// How many characters of a literal are kept: one more than it may have.
const MOST_KEPT: usize = 241;

/// How a text literal goes on after its opening quote.
#[derive(Debug, Drop)]
pub enum Literal {
    /// It has these characters, which take `size` bytes with the closing quote.
    Closed { characters: Items<u8>, size: usize },
    /// The line or the text ends before a closing quote.
    Open,
    /// A byte that a literal may not have, with how many bytes before it.
    BadByte(usize),
}

/// Adds a character, unless the kept ones already make the literal too long.
#[tactic(auto, using(crate::proofs::LiteralLemmas::kept_short, crate::proofs::LiteralLemmas::kept_full))]
fn keep(characters: &mut Items<u8>, character: u8) -> Result<(), AllocError>
    requires { length characters.old ≤ 241 }
    ensures value { OnOk result (characters.new ≡ spec.kept_characters (characters.old ++ character ∷ [])) }
    ensures short { OnOk result (length characters.new ≤ 241) }
{
    if characters.len() < MOST_KEPT {
        characters.push(character)?;
    }
    Ok(())
}

impl Literal {
    /// The literal whose opening quote comes before these bytes, with its first 241 characters.
    #[tactic(auto, using(crate::proofs::LiteralLemmas::kept_more, crate::proofs::LiteralLemmas::kept_closed))]
    pub fn after_quote(alloc: Global, bytes: &[u8]) -> Result<Literal, AllocError>
        ensures value { IfOk result (λ literal. literal ≡ spec.kept (spec.literal bytes.now)) }
        ensures within { IfOk result (spec.IsWithin (length bytes.now)) }
    {
        let mut characters = Items::new(alloc);
        let mut size = 0;
        while size < bytes.len() {
            let byte = bytes[size];
            if byte == b'\'' {
                if size + 1 == bytes.len() || bytes[size + 1] != b'\'' {
                    return Ok(Literal::Closed {
                        characters,
                        size: size + 1,
                    });
                }
                size += 1;
            } else if is_line_end(byte) {
                return Ok(Literal::Open);
            } else if !is_printable(byte) {
                return Ok(Literal::BadByte(size));
            }
            keep(&mut characters, byte)?;
            size += 1;
        }
        Ok(Literal::Open)
    }
}
