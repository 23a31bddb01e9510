//! Whether a part of a statement mentions a parameter.
ghost use Rattle.std.specs.Prelude.{◌≡◌};
ghost use Rattle.sq_bindings.specs.Mention as spec;

use sq_lex::{Characters, Lexeme, Name, Symbol};
use sq_spell::{Sink, Tree};
use std::convert::Infallible;

/// A search for a parameter in a list of tokens.
#[derive(Clone, Copy)]
pub(crate) struct Search {
    pub(crate) name: Name,
    /// Whether the last token was a colon.
    pub(crate) after_colon: bool,
    /// Whether the name came after a colon.
    pub(crate) found: bool,
}

impl Sink for Search {
    ghost use Rattle.sq_bindings.specs.Mention.{searched};

    type Stop = Infallible;

    ghost after = { searched };

    fn take(&mut self, token: Lexeme) -> Result<(), Infallible> {
        self.found = match token {
            Lexeme::Name(name) => self.found || self.after_colon && name == self.name,
            _ => self.found,
        };
        self.after_colon = matches!(token, Lexeme::Symbol(Symbol::Colon));
        Ok(())
    }

    fn text(&mut self, _characters: &Characters) -> Result<(), Infallible> {
        self.after_colon = false;
        Ok(())
    }
}

/// Whether a part of a statement mentions the parameter of this name.
pub(crate) fn mentions<T: Tree>(part: &T, name: Name) -> bool
    ensures { result ≡ spec.mentions name (T.tokens part.now) }
{
    let mut sought = Search {
        name,
        after_colon: false,
        found: false,
    };
    let Ok(()) = part.walk(&mut sought);
    sought.found
}
