//! What a statement is given besides the tables.

use sq_lex::Name;
use sq_value::Value;

/// The user of the module that is called, and the values of the parameters by position.
#[derive(Clone, Copy)]
pub struct Inputs<'a> {
    pub user: Name,
    pub parameters: &'a [Value],
}
