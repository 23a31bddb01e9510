//! A part of a text, and the remark on it.
use crate::remark::Remark;
use sq_lex::Name;

/// A cursor or a procedure of a module, or a view of a schema, and the remark on it.
#[derive(Clone, Copy, Debug)]
pub struct Mark {
    /// The number of its first token in the text, from 0, up to `usize::MAX`.
    pub token: usize,
    /// Its module, or the user whose schema it is in.
    pub owner: Name,
    pub name: Name,
    /// None of a procedure whose statement has no fault.
    pub remark: Option<Remark>,
}
