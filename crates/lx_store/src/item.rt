ghost use Rattle.std.specs.Prelude.{◌≡◌, ◌↔◌, ℕ, IfOk, IsTrue};
ghost use Rattle.lx_store.specs.Counts.{next_count};

use lx_node::NoMemory;
use std::alloc::Global;

/// A count of the items that were twinned.
pub trait Tally {
    /// The count as contracts see it.
    ghost total: { Self → ℕ };

    /// The count so far. It stands still at 2^64 - 1.
    fn total(&self) -> u64
        ensures { result ≡ total self.now };
}

/// What a store holds. Code that knows no more of an item has no other way to a second one than to twin it,
/// and no way to make a count.
pub trait Item: Sized + Drop {
    type Count: Tally;

    /// An equal item. It counts the call, whatever the answer is.
    fn twin(&self, alloc: Global, count: &mut Self::Count) -> Result<Self, NoMemory>
        ensures equal { IfOk result (λ made. made ≡ self.now) }
        ensures counted { Self.Count.total count.new ≡ next_count (Self.Count.total count.old) };

    /// Whether the two are equal.
    fn is_equal(&self, other: &Self) -> bool
        ensures { IsTrue result ↔ (self.now ≡ other.now) };
}
