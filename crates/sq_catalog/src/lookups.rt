//! The columns by which a store will be asked whether rows refer to a row.

ghost use Rattle.std.specs.Prelude.{◌≡◌, IfOk, map};
ghost use Rattle.sq_store.specs.Keys.{keys_of};
ghost use Rattle.sq_catalog.specs.Lookups.{lookups_of_bases, referring_columns};

use crate::catalog::Catalog;
use sq_bound::{BaseTable, Names, Reference, Shared};
use std::alloc::{AllocError, Global};

impl Catalog {
    /// For each base table, in the order of the texts, the referring columns of each of its references.
    pub fn lookups(&self, alloc: Global) -> Result<Vec<Vec<Vec<usize>>>, AllocError>
        ensures { IfOk result (λ lookups. keys_of lookups.items ≡ lookups_of_bases self.now.bases) }
    {
        all_lookups(alloc, self.bases())
    }
}

/// The referring columns of each reference of each base table.
fn all_lookups(
    alloc: Global,
    bases: &[Shared<BaseTable>],
) -> Result<Vec<Vec<Vec<usize>>>, AllocError>
    ensures { IfOk result (λ lookups. keys_of lookups.items ≡ lookups_of_bases bases.now) }
{
    let mut lookups = Vec::new(alloc);
    for base in bases {
        lookups.push(lookups_of(alloc, base.get())?)?;
    }
    Ok(lookups)
}

/// The referring columns of each reference of a base table.
fn lookups_of(alloc: Global, base: &BaseTable) -> Result<Vec<Vec<usize>>, AllocError>
    ensures { IfOk result (λ lists. map (λ columns. columns.items) lists.items ≡ referring_columns base.now) }
{
    lists_of(alloc, base.references.as_slice())
}

/// The referring columns of each reference.
fn lists_of(alloc: Global, references: &[Reference]) -> Result<Vec<Vec<usize>>, AllocError>
    ensures { IfOk result (λ lists. map (λ columns. columns.items) lists.items
        ≡ map (λ reference. reference.by_key) references.now) }
{
    let mut lists = Vec::new(alloc);
    for reference in references {
        lists.push(Vec::from_slice(alloc, reference.by_key.as_slice())?)?;
    }
    Ok(lists)
}
