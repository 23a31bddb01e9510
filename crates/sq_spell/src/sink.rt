//! The sink, which takes the tokens of a tree one by one.

ghost use Rattle.std.specs.Prelude.{◌≡◌, OnOk};
ghost use Rattle.sq_lex.specs.declared.lexeme.Lexeme.TheVariants as lexeme;

use sq_lex::{Characters, Lexeme};

/// Takes tokens, one after the other.
pub trait Sink {
    ghost use Rattle.sq_lex.specs.declared.lexeme.Lexeme.{Lexeme};

    /// Why a sink takes no more tokens.
    type Stop;

    /// The sink after one more token.
    ghost after: { Self → Lexeme → Self };

    /// Takes a token.
    fn take(&mut self, token: Lexeme) -> Result<(), Self::Stop>
        ensures { OnOk result (self.new ≡ after self.old token) };

    /// Takes a text literal with these characters.
    fn text(&mut self, characters: &Characters) -> Result<(), Self::Stop>
        ensures { OnOk result (self.new ≡ after self.old (lexeme.Text characters.now)) };
}
