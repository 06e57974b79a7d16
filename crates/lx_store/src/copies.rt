use crate::item::Tally;
use std::marker::Model;

/// A count of copies. Contracts see it as its number.
#[derive(Drop)]
pub struct Copies {
    count: u64,
}

impl Model for Copies {
    ghost use Rattle.std.specs.Prelude.{ℕ};

    ghost Value = { ℕ };

    ghost view = { λ c. c.count };
}

impl Copies {
    ghost use Rattle.std.specs.Prelude.{◌≡◌};
    ghost use Rattle.lx_store.specs.Counts.{next_count};

    /// No copy so far.
    pub fn new() -> Copies
        ensures { result ≡ 0 }
    {
        Copies { count: 0 }
    }

    /// Counts one more. From 2^64 - 1 on the count stands still.
    pub fn raise(&mut self)
        ensures { self.new ≡ next_count self.old }
    {
        self.count = self.count.saturating_add(1);
    }
}

impl Tally for Copies {
    ghost total = { λ count. count };

    fn total(&self) -> u64 {
        self.count
    }
}
