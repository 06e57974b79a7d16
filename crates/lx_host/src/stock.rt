//! Vectors in stock, so that one more attribute takes no memory.

use crate::tag::Name;
use lx_node::{NoMemory, Txt};
use std::alloc::Global;
use std::marker::Model;

/// A host has an attribute of each name at most, and there are so many names.
const MOST_ATTRIBUTES: usize = 19;

/// Vectors without items, each with room for an attribute of each name. It is seen as their number.
#[derive(Drop)]
pub struct Stock {
    vectors: Vec<Vec<(Name, Txt)>>,
}

impl Model for Stock {
    ghost use Rattle.std.specs.Prelude.{ℕ, length};
    ghost use Rattle.lx_host.specs.Stocked.{AreRoomy};

    ghost Value = { ℕ };

    ghost view = { λ s. length s.vectors.items };

    ghost invariant = { λ s. AreRoomy s.vectors.items };
}

impl Stock {
    ghost use Rattle.std.specs.Prelude.{◌≡◌, ◌<◌, ◌≤◌, ◌+◌, [], OnOk};
    ghost use Rattle.std.specs.Vec.{vec_capacity};
    ghost use Rattle.lx_host.specs.Stocked.{most_attributes};

    /// A stock of none.
    pub fn new(alloc: Global) -> Stock
        ensures { result ≡ 0 }
    {
        Stock {
            vectors: Vec::new(alloc),
        }
    }

    /// Fills the stock up to that number. What is there stays.
    pub fn fill(&mut self, alloc: Global, number: usize) -> Result<(), NoMemory>
        ensures filled { OnOk result (number ≤ self.new) }
        ensures kept { self.old ≤ self.new }
    {
        for _ in self.vectors.len()..number {
            let roomy = Vec::with_capacity(alloc, MOST_ATTRIBUTES)?;
            self.vectors.push(roomy)?;
        }
        Ok(())
    }

    /// Takes a vector out of the stock.
    pub fn take(&mut self) -> Vec<(Name, Txt)>
        requires { 0 < self.old }
        ensures empty { result.items ≡ [] }
        ensures roomy { most_attributes ≤ vec_capacity result }
        ensures left { self.new + 1 ≡ self.old }
    {
        match self.vectors.pop() {
            Some(roomy) => roomy,
            None => unreachable!(),
        }
    }
}

ghost use Rattle.std.specs.Prelude.{◌≡◌, ◌<◌, ◌≤◌, ◌+◌, insert, length};
ghost use Rattle.std.specs.Vec.{vec_capacity, vec_len};
ghost use Rattle.lx_host.specs.Stocked.{most_attributes};

/// Makes room for one more attribute. Where there is none, a vector of the stock takes them all.
fn make_room(items: &mut Vec<(Name, Txt)>, stock: &mut Stock)
    requires few { length items.old.items < most_attributes }
    requires some { 0 < stock.old }
    ensures items { items.new.items ≡ items.old.items }
    ensures room { vec_len items.new < vec_capacity items.new }
    ensures left { stock.old ≤ stock.new + 1 }
{
    if items.len() < items.capacity() {
        return;
    }
    let mut roomy = stock.take();
    let _ = roomy.append(items);
    *items = roomy;
}

/// Puts an attribute in at a place. It takes no memory, but a vector of the stock where these have no room.
pub fn insert_within(
    items: &mut Vec<(Name, Txt)>,
    at: usize,
    attribute: (Name, Txt),
    stock: &mut Stock,
)
    requires at { at ≤ length items.old.items }
    requires few { length items.old.items < most_attributes }
    requires some { 0 < stock.old }
    ensures items { items.new.items ≡ insert items.old.items at attribute }
    ensures left { stock.old ≤ stock.new + 1 }
{
    make_room(items, stock);
    let _ = items.insert(at, attribute);
}
