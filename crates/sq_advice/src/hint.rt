//! Hints on what to write in place of a token that a text may not have.

use crate::expected::{TRIED, stands_for_names};
use crate::hints::{ANYWHERE, MODULES, QUERIES, SCHEMAS, SCRIPTS, TYPES};
use crate::kind::TextKind;
use crate::spelled::is_of;
use sq_lex::Token;

/// When something is said at a token, and what. A pattern is a spelling, `a name`, `a number` or `a text`; an empty one
/// fits each token, and also the end of a text.
#[derive(Clone, Copy)]
pub(crate) struct Hint {
    /// The pattern of the token before.
    pub(crate) before: &'static str,
    /// The pattern of the token that is refused.
    pub(crate) at: &'static str,
    /// The pattern of a token that may be there.
    pub(crate) expected: &'static str,
    /// The feature that this language lacks; empty if nothing is said of one.
    pub(crate) missing: &'static str,
    /// The advice, or nothing.
    pub(crate) says: &'static str,
}

/// The place at which a text is refused.
#[derive(Clone, Copy)]
pub(crate) struct Spot<'t> {
    pub(crate) kind: TextKind,
    pub(crate) text: &'t [u8],
    pub(crate) before: Option<&'t Token>,
    pub(crate) at: Option<&'t Token>,
    /// The tokens that were tried and fit.
    pub(crate) expected: &'t [Token],
}

impl Spot<'_> {
    /// Whether any name may be here.
    pub(crate) fn takes_names(&self) -> bool {
        self.expected.iter().any(|token| stands_for_names(token))
    }

    /// Whether a token of this pattern may be here.
    fn expects(&self, pattern: &str) -> bool {
        self.expected
            .iter()
            .any(|token| is_of(pattern, TRIED, token))
    }
}

impl Hint {
    /// Whether it is to be said at a spot.
    fn is_for(&self, spot: &Spot<'_>) -> bool {
        fits(self.at, spot.text, spot.at)
            && fits(self.before, spot.text, spot.before)
            && (self.expected.is_empty() || spot.expects(self.expected))
    }
}

fn fits(pattern: &str, text: &[u8], token: Option<&Token>) -> bool {
    if pattern.is_empty() {
        return true;
    }
    match token {
        Some(token) => is_of(pattern, text, token),
        None => false,
    }
}

/// The hint for a spot, if there is one: the first of those for the kind of text, or of those for all.
pub(crate) fn hint_of(spot: &Spot<'_>) -> Option<&'static Hint> {
    let own = match spot.kind {
        TextKind::Schema => find_first(&SCHEMAS, spot).or(find_first(&TYPES, spot)),
        TextKind::Module => find_first(&MODULES, spot).or(find_first(&TYPES, spot)),
        TextKind::Script => find_first(&SCRIPTS, spot),
    };
    own.or(find_first(&QUERIES, spot))
        .or(find_first(&ANYWHERE, spot))
}

fn find_first(hints: &'static [Hint], spot: &Spot<'_>) -> Option<&'static Hint> {
    hints.iter().find(|hint| hint.is_for(spot))
}
