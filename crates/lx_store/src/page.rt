ghost use Rattle.std.specs.Prelude.{◌≡◌, ◌<◌, ◌≤◌, ◌+◌, ℕ, length, replicate, is_some, option_map, IfSome, IfOk, OnOk, OnErr, IsTrue};
ghost use Rattle.std.specs.Option.{option_copied};
ghost use Rattle.std.specs.declared.option.Option.TheVariants.{None, Some};
ghost use Rattle.lx_store.specs.Pages.{slot_at, written};

use crate::edit::Edit;
use crate::item::Item;
use crate::slot::Slot;
use crate::slots::Slots;
use lx_node::NoMemory;
use std::alloc::Global;
use std::marker::Model;

/// How many slots a page has.
pub const SLOTS: u32 = 32;

/// 32 slots, each with an item or without one. Contracts see the list of the slots.
#[derive(Drop)]
pub struct Page<V: Item> {
    slots: Vec<Slot<V>>,
}

impl<V: Item> Model for Page<V> {
    ghost use Rattle.std.specs.Prelude.{◌≡◌, List, length};
    ghost use Rattle.std.specs.declared.option.Option.{Option};

    ghost Value = { List (Option V) };

    ghost view = { λ page. page.slots.items };

    ghost invariant = { λ page. length page.slots.items ≡ 32 };
}

impl<V: Item> Slots<V> for Page<V> {
    ghost size = { 32 };

    ghost slots = { λ slots. slots };

    fn new(alloc: Global) -> Result<Page<V>, NoMemory> {
        let mut slots = Vec::new(alloc);
        for _ in 0..SLOTS {
            slots.push(Slot::empty())?;
        }
        Ok(Page { slots })
    }

    fn fork(&self) -> Result<Page<V>, NoMemory> {
        Ok(Page {
            slots: self.slots.clone()?,
        })
    }

    fn get(&self, slot: u32) -> Option<&V> {
        self.slots[slot as usize].get()
    }

    fn put(
        &mut self,
        slot: u32,
        item: V,
        alloc: Global,
        count: &mut V::Count,
    ) -> Result<Option<V>, NoMemory> {
        Ok(self.slots[slot as usize].put(item, alloc, count)?)
    }

    fn change<E: Edit<V>>(
        &mut self,
        slot: u32,
        edit: E,
        alloc: Global,
        count: &mut V::Count,
    ) -> Result<bool, NoMemory> {
        Ok(self.slots[slot as usize].change(edit, alloc, count)?)
    }

    fn take(
        &mut self,
        slot: u32,
        alloc: Global,
        count: &mut V::Count,
    ) -> Result<Option<V>, NoMemory> {
        Ok(self.slots[slot as usize].take(alloc, count)?)
    }
}

impl<V: Item> Page<V> {
    /// Whether no slot has an item.
    pub fn is_empty(&self) -> bool
        ensures empty { IsTrue result → (slot : ℕ) → slot_at self.now slot ≡ None }
        ensures size { length self.now ≡ 32 }
    {
        for slot in &self.slots {
            if slot.is_some() {
                return false;
            }
        }
        true
    }
}
