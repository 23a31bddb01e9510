//! Which base table is asked for the rows of an item: the item's own or, if the item is a plain view, the one under it.

ghost use Rattle.std.specs.Prelude.{◌≡◌, None, Some, IfSome, slice_get};
ghost use Rattle.sq_query.specs.Asked.{IsShownBy};

/// The base table that is asked for the rows of an item.
#[derive(Clone, Copy)]
pub(crate) struct Asked<'q> {
    pub base: usize,
    /// If the item is a plain view: for each of its columns the one by which the base table under it is asked.
    pub through: Option<&'q [Option<usize>]>,
}

/// A base table that is an item itself.
pub(crate) fn itself<'q>(base: usize) -> Asked<'q>
    ensures base { result.base ≡ base }
    ensures through { result.through ≡ None }
{
    Asked {
        base,
        through: None,
    }
}

impl Asked<'_> {
    /// The first column of the item by which the base table is asked by a column of its own.
    pub(crate) fn shown(&self, own: usize) -> Option<usize>
        ensures { IfSome result (IsShownBy self.now.through own) }
    {
        match self.through {
            None => Some(own),
            Some(columns) => position_of(own, columns),
        }
    }

    /// The column by which the base table is asked if the item is asked by a column.
    pub(crate) fn own(&self, column: usize) -> Option<usize>
        ensures { IfSome result (λ own. IsShownBy self.now.through own column) }
    {
        match self.through {
            None => Some(column),
            Some(columns) => column_at(column, columns),
        }
    }
}

/// The first position at which this column is.
fn position_of(own: usize, columns: &[Option<usize>]) -> Option<usize>
    ensures { IfSome result (λ position. slice_get columns.now position ≡ Some (Some own)) }
{
    for position in 0..columns.len() {
        if columns[position] == Some(own) {
            return Some(position);
        }
    }
    None
}

/// The column at a position.
fn column_at(position: usize, columns: &[Option<usize>]) -> Option<usize>
    ensures { IfSome result (λ own. slice_get columns.now position ≡ Some (Some own)) }
{
    *columns.get(position)?
}
