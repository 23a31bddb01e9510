//! The grammar as reading: each rule is a function from tokens to a tree and the tokens after it. And the first steps of the
//! parser: the tokens still to be read, lists with commas, names and data types.
//!
//! The definitions are in `specs/`. `proofs/` shows that the tokens read for a tree spell it. It also shows that the tokens
//! of every tree are read as that tree, unless it is too deep. So no two trees of one kind have one list of tokens.
#![tactic(auto)]

mod brackets;
mod cond_or_expr;
mod list;
mod names;
mod reader;
mod stop;
mod type_word;
mod types;
mod verb;

pub use brackets::MAX_DEPTH;
pub use cond_or_expr::CondOrExpr;
pub use list::{comma_list, items};
pub use names::{
    column_from, column_reference, columns, columns_if_any, parameter, parameter_from, sign_if_any,
    signed_number, table_name,
};
pub use reader::Reader;
pub use stop::Stop;
pub use type_word::TypeWord;
pub use types::data_type;
pub use verb::Verb;
