//! Counting the rows that a store hands out.

ghost use Rattle.std.specs.Prelude.{◌≡◌};
ghost use Rattle.sq_store.specs.Meter.{counted};
ghost use Rattle.sq_store.specs.Found.{counted_more};

use std::marker::Model;

/// Counts the rows that a store hands out. It stays at `u64::MAX`.
#[derive(Debug, Drop)]
pub struct Meter {
    count: u64,
}

impl Model for Meter {
    ghost use Rattle.std.specs.Prelude.{ℕ};

    ghost Value = { ℕ };

    ghost view = { λ meter. meter.count };
}

impl Meter {
    /// A meter that has counted nothing.
    pub fn new() -> Meter
        ensures { result ≡ 0 }
    {
        Meter { count: 0 }
    }

    /// How many rows were handed out.
    pub fn count(&self) -> u64
        ensures { result ≡ self.now }
    {
        self.count
    }

    /// Counts a row that is handed out.
    pub fn hand_out(&mut self)
        ensures { self.new ≡ counted self.old }
    {
        self.hand_out_all(1);
    }

    /// Counts rows that are handed out.
    pub fn hand_out_all(&mut self, count: usize)
        ensures { self.new ≡ counted_more count self.old }
    {
        self.count = self.count.saturating_add(count as u64);
    }
}
