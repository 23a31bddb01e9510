//! The first word of a statement.

/// The word that a statement begins with (ISO/IEC 9075:1992, 13 and 14).
#[derive(Clone, Copy)]
pub enum Verb {
    Open,
    Fetch,
    Close,
    Select,
    Insert,
    Update,
    Delete,
    Commit,
    Rollback,
}
