//! The spelling of trees: a tree's tokens, their number, the depth of round brackets, and the first tokens of
//! the parts of a text.
#![tactic(auto)]

mod cond;
mod data_type;
mod expr;
mod list;
mod module;
mod names;
mod query;
mod row;
mod schema;
mod script;
mod sink;
mod sinks;
mod starts;
mod statement;
mod tree;

pub use sink::Sink;
pub use starts::{module_item_start, schema_element_start, schema_start, script_item_start};
pub use tree::{Tree, depth, token_count, write_tokens};
