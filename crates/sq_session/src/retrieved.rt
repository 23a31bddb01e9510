//! A row whose values are retrieved.

ghost use Rattle.std.specs.Prelude.{◌≡◌, ◌<◌, length, slice_get, true, Some};
ghost use Rattle.sq_value.specs.Key.{in_columns};
ghost use Rattle.sq_bound.specs.Names.{are_positions};
ghost use Rattle.sq_session.specs.Columns.{are_columns_of};

use sq_value::Value;

/// A row whose values are retrieved: all of them, or those in some columns.
#[derive(Clone, Copy)]
pub struct RetrievedRow<'a> {
    values: &'a [Value],
    columns: Option<&'a [usize]>,
    ghost there: { are_columns_of values.now columns ≡ true },
}

impl<'a> RetrievedRow<'a> {
    ghost use Rattle.sq_session.specs.Retrieved.{values_of};

    /// All values of a row.
    pub fn whole(values: &'a [Value]) -> RetrievedRow<'a>
        ensures { values_of result ≡ values.now }
    {
        RetrievedRow {
            values,
            columns: None,
        }
    }

    /// The values of a row in some columns.
    pub fn in_columns(values: &'a [Value], columns: &'a [usize]) -> RetrievedRow<'a>
        requires { are_positions (length values.now) columns.now ≡ true }
        ensures { values_of result ≡ in_columns values.now columns.now }
    {
        RetrievedRow {
            values,
            columns: Some(columns),
        }
    }

    /// The value at a place.
    pub fn value(&self, place: usize) -> &'a Value
        requires { place < length (values_of self.now) }
        ensures { slice_get (values_of self.now) place ≡ Some result.now }
    {
        match self.columns {
            Some(columns) => value_in(self.values, columns, place),
            None => &self.values[place],
        }
    }
}

/// The value in the column at a place of a list.
#[tactic(auto, using(crate::proofs::Fetching::Shown::column_there))]
fn value_in<'a>(values: &'a [Value], columns: &[usize], place: usize) -> &'a Value
    requires there { place < length columns.now }
    requires columns { are_positions (length values.now) columns.now ≡ true }
    ensures { slice_get (in_columns values.now columns.now) place ≡ Some result.now }
{
    &values[columns[place]]
}
