//! The rows of a base table that a target means, most often a single one.

ghost use Rattle.std.specs.Prelude.{◌≡◌, ◌∷◌, [], List, if◌then◌else◌, IfOk};
ghost use Rattle.sq_expression.specs.Fault.{MeetsAs};
ghost use Rattle.sq_meaning.specs.Status.{Outcome};
ghost use Rattle.sq_query.specs.FewRows.{few_numbered, few_rows};
ghost use Rattle.sq_query.specs.Table.{numbered_in, numbered_row};
ghost use Rattle.sq_store.specs.declared.table.Numbered.{Numbered};

use sq_expression::Fault;
use sq_value::Row;
use std::alloc::{AllocError, Global};
use std::slice::from_ref;

/// Rows with their numbers. A single one takes no memory.
#[derive(Drop)]
pub enum FewRows<'a> {
    One((u64, &'a Row)),
    Listed(Vec<(u64, &'a Row)>),
}

impl<'a> FewRows<'a> {
    /// No rows.
    pub(crate) fn none(alloc: Global) -> FewRows<'a>
        ensures { few_numbered result ≡ [] }
    {
        FewRows::Listed(Vec::new(alloc))
    }

    /// The one row that may be chosen.
    pub(crate) fn one_if(alloc: Global, is_chosen: bool, found: (u64, &'a Row)) -> FewRows<'a>
        ensures { few_numbered result ≡ (if is_chosen then numbered_row found.entry ∷ [] else []) }
    {
        if is_chosen {
            FewRows::One(found)
        } else {
            FewRows::none(alloc)
        }
    }

    /// Rows in a list, or their fault.
    pub(crate) fn listed(rows: Result<Vec<(u64, &'a Row)>, Fault>) -> Result<FewRows<'a>, Fault>
        ensures { (o : Outcome (List Numbered)) → MeetsAs numbered_in rows.entry o
            → MeetsAs few_numbered result o }
    {
        match rows {
            Ok(rows) => Ok(FewRows::Listed(rows)),
            Err(fault) => Err(fault),
        }
    }

    /// Lends the rows.
    pub fn as_slice(&self) -> &[(u64, &'a Row)]
        ensures { result.now ≡ few_rows self.now }
    {
        match self {
            FewRows::One(row) => from_ref(row),
            FewRows::Listed(rows) => rows.as_slice(),
        }
    }

    /// The rows in a list.
    pub fn into_vec(self, alloc: Global) -> Result<Vec<(u64, &'a Row)>, AllocError>
        ensures { IfOk result (λ rows. rows.items ≡ few_rows self.entry) }
    {
        match self {
            FewRows::One(row) => {
                let mut rows = Vec::new(alloc);
                rows.push(row)?;
                Ok(rows)
            }
            FewRows::Listed(rows) => Ok(rows),
        }
    }
}
