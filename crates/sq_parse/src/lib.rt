//! The parser: from the tokens of a text to its tree. Trees are dropped as in `sq_phrase`, by a call if reading
//! stops.
#![tactic(auto)]

mod error;
mod grant;
mod module;
mod schema;
mod script;
mod statement;
mod table;
mod text;
mod view;

pub use error::ParseError;
pub use text::{parse_module, parse_schema, parse_script};
