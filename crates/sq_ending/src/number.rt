//! The numbers of rows that are told by their places.

ghost use Rattle.std.specs.Prelude.{◌≡◌, ◌<◌, length, slice_get};
ghost use Rattle.std.specs.Option.{option_map};
ghost use Rattle.sq_store.specs.Content.{table_at};

use sq_store::{Meter, Store};

/// The number of the row of a base table at a place among its rows, from 0 on.
pub fn row_number<S: Store>(store: &S, table: usize, place: usize) -> Option<u64>
    requires { table < length (S.content_now store.now) }
    ensures { result ≡ option_map (λ row. row.number)
        (slice_get (table_at (S.content_now store.now) table).rows place) }
{
    let mut number = 0;
    let mut left = place;
    let mut uncounted = Meter::new();
    while let Some((found, _)) = store.next_from(table, number, &mut uncounted) {
        if left == 0 {
            return Some(found);
        }
        left -= 1;
        number = found + 1;
    }
    None
}
