//! The inputs that stay the same while a statement's expressions and queries are evaluated.

use crate::table::{BaseRows, ViewRows};
use sq_lex::Name;
use sq_value::Value;
use std::alloc::Global;

/// The user and the parameters of a call, and the rows of the tables that its statement reads.
#[derive(Clone, Copy)]
pub struct Context<'a> {
    pub alloc: Global,
    pub user: Name,
    pub parameters: &'a [Value],
    pub bases: &'a [BaseRows<'a>],
    pub views: &'a [ViewRows],
}
