//! The first word of a data type.

use sq_tree::{CharacterWord, ExactWord};

/// The word that a data type begins with (ISO/IEC 9075:1992, 6.1).
#[derive(Clone, Copy)]
pub enum TypeWord {
    Smallint,
    Integer,
    Int,
    Exact(ExactWord),
    Character(CharacterWord),
    Varchar,
}
