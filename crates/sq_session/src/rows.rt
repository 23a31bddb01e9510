//! The rows of a base table, one after the other.

ghost use Rattle.std.specs.Prelude.{◌≡◌, ◌<◌, length};
ghost use Rattle.sq_store.specs.Content.{table_at};

use sq_store::{Meter, Store};
use sq_value::Row;
use std::marker::Model;

/// The rows of a base table as they are now, each with its number, in the order of the numbers. A contract sees
/// the rows that are still to come.
#[derive(Drop)]
pub struct TableRows<'a, S: Store> {
    store: &'a S,
    table: usize,
    /// The rows before this number have come.
    next: u64,
}

impl<'a, S: Store> Model for TableRows<'a, S> {
    ghost use Rattle.std.specs.Prelude.{◌<◌, List, length};
    ghost use Rattle.sq_store.specs.Content.{table_at};
    ghost use Rattle.sq_store.specs.declared.table.Numbered.{Numbered};
    ghost use Rattle.sq_session.specs.Walk.{rows_from};

    ghost Value = { List Numbered };

    ghost view = { λ r. rows_from r.next (table_at (S.content_now r.store.now) r.table).rows };

    ghost invariant = { λ r. r.table < length (S.content_now r.store.now) };
}

impl<'a, S: Store> TableRows<'a, S> {
    /// All rows of a table of a store.
    #[tactic(auto, using(sq_store::proofs::Walk::rows_from_zero))]
    pub fn of(store: &'a S, table: usize) -> TableRows<'a, S>
        requires { table < length (S.content_now store.now) }
        ensures { result ≡ (table_at (S.content_now store.now) table).rows }
    {
        TableRows {
            store,
            table,
            next: 0,
        }
    }

    /// How many rows are still to come. It looks at each of them.
    pub fn len(&self) -> usize
        ensures { result ≡ length self.now }
    {
        let mut count = 0;
        let mut rows = TableRows {
            store: self.store,
            table: self.table,
            next: self.next,
        };
        while rows.next().is_some() {
            count += 1;
        }
        count
    }
}

impl<'a, S: Store> Iterator for TableRows<'a, S> {
    ghost use Rattle.std.specs.Iterator.{YieldsFirstBy, item_count};
    ghost use Rattle.sq_session.specs.Lent.{lent};

    type Item = (u64, &'a Row);

    ghost next_gives = { YieldsFirstBy lent (λ rows. rows) };

    ghost remaining = { item_count (λ rows. rows) };

    fn next(&mut self) -> Option<(u64, &'a Row)> {
        let store = self.store;
        let (number, row) = store.next_from(self.table, self.next, &mut Meter::new())?;
        self.next = number + 1;
        Some((number, row))
    }
}
