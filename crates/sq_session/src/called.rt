//! What a statement is given besides the tables and cursors.

ghost use Rattle.std.specs.Prelude.{◌≡◌};

use sq_catalog::Catalog;
use sq_module::{BoundProcedure, DeclaredCursor};
use sq_query::Inputs;
use sq_value::Value;
use std::alloc::Global;

/// The procedure that is called, the values of its parameters, and what the names of its statement mean.
#[derive(Clone, Copy)]
pub struct Called<'a> {
    pub alloc: Global,
    pub catalog: &'a Catalog,
    pub cursors: &'a [DeclaredCursor],
    pub procedure: &'a BoundProcedure,
    pub values: &'a [Value],
}

impl<'a> Called<'a> {
    /// The user and the values, as queries read them.
    pub fn inputs(&self) -> Inputs<'_>
        ensures parameters { result.parameters.now ≡ self.now.values.now }
        ensures user { result.user ≡ self.now.procedure.now.user }
    {
        Inputs {
            user: self.procedure.user,
            parameters: self.values,
        }
    }
}
