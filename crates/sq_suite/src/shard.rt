//! A part of the cases, for runs on several machines.
ghost use Rattle.std.specs.Prelude.{◌≡◌, ◌==◌, ◌+◌, ◌%◌, ◌<◌, ◌≤◌};

/// Every `count`-th case, from the case `number` on.
#[derive(Clone, Copy)]
pub struct Shard {
    number: usize,
    count: usize,
    ghost in_range: { (0 < number) × (number ≤ count) },
}

impl Shard {
    /// All cases.
    pub fn all() -> Shard {
        Shard {
            number: 1,
            count: 1,
        }
    }

    /// Reads `K/N`, with `K` from 1 to `N`.
    pub fn parse(text: &str) -> Option<Shard> {
        let (number, count) = text.split_once('/')?;
        let number = number.parse::<usize>().ok()?;
        let count = count.parse::<usize>().ok()?;
        if 0 < number && number <= count {
            Some(Shard { number, count })
        } else {
            None
        }
    }

    /// Whether the part has the case after `index` others.
    pub fn has(self, index: usize) -> bool
        ensures { result ≡ (index % self.count + 1 == self.number) }
    {
        index % self.count + 1 == self.number
    }
}
