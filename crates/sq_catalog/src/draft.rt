//! What a table definition writes.

ghost use Rattle.std.specs.Prelude.{◌≡◌, true, vec_len};
ghost use Rattle.std.specs.List.{list_all};
ghost use Rattle.sq_bound.specs.Names.{are_positions};

use crate::key::Keys;
use crate::reference::FoundReference;
use crate::typed::TypedColumn;
use crate::written::Written;
use sq_tree::TableDefinition;

/// What a table definition writes, with the names in it found and the domains of its columns.
#[derive(Drop)]
pub(crate) struct Draft<'t> {
    pub definition: &'t TableDefinition,
    pub written: Written<'t>,
    pub columns: Vec<TypedColumn<'t>>,
    pub keys: Keys,
    pub references: Vec<FoundReference<'t>>,
    ghost keyed: { list_all (are_positions (vec_len written.columns)) keys.columns ≡ true },
    ghost typed: { vec_len columns ≡ vec_len written.columns },
}
