use crate::memory::NoMemory;
use std::alloc::Global;
use std::marker::Model;

/// Items in their order. Contracts see the list of them, and not what room they have, as they would of a `Vec`.
#[derive(Debug, Drop)]
pub struct Sequence<T> {
    items: Vec<T>,
}

impl<T> Model for Sequence<T> {
    ghost use Rattle.std.specs.Prelude.{List};

    ghost Value = { List T };

    ghost view = { λ s. s.items.items };
}

/// What is copied in memory of its own.
pub trait Copied: Drop {
    ghost use Rattle.std.specs.Prelude.{◌≡◌, IfOk};

    /// An equal value. It takes memory for what this one holds.
    fn copy(&self, alloc: Global) -> Result<Self, NoMemory>
        ensures { IfOk result (λ made. made ≡ self.now) };
}

impl<T> Sequence<T> {
    ghost use Rattle.std.specs.Prelude.{◌≡◌};

    /// These items. It takes no memory.
    pub fn of(items: Vec<T>) -> Sequence<T>
        ensures { result ≡ items.items }
    {
        Sequence { items }
    }

    /// The items, in their order.
    pub fn items(&self) -> &[T]
        ensures { result.now ≡ self.now }
    {
        self.items.as_slice()
    }

    /// The items themselves. It takes no memory.
    pub fn into_vec(self) -> Vec<T>
        ensures { result.items ≡ self }
    {
        self.items
    }
}

impl<T: Copied> Sequence<T> {
    ghost use Rattle.std.specs.Prelude.{◌≡◌, IfOk};

    /// Equal items in the same order. It takes memory for the list, and for what they hold.
    pub fn copy(&self, alloc: Global) -> Result<Sequence<T>, NoMemory>
        ensures { IfOk result (λ made. made ≡ self.now) }
    {
        let mut made = Vec::with_capacity(alloc, self.items().len())?;
        for item in self.items() {
            made.push(item.copy(alloc)?)?;
        }
        Ok(Sequence::of(made))
    }
}
