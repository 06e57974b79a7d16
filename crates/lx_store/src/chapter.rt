ghost use Rattle.std.specs.Prelude.{◌≡◌, ◌<◌, ◌≤◌, ◌+◌, ◌*◌, ◌/◌, ◌%◌, ℕ, length, replicate, is_some, option_map, IfSome, IfOk, OnOk, OnErr, IsTrue};
ghost use Rattle.std.specs.Option.{option_copied};
ghost use Rattle.std.specs.declared.option.Option.TheVariants.{None, Some};
ghost use Rattle.lx_store.specs.Differing.{item_in};
ghost use Rattle.lx_store.specs.Pages.{slot_at, written};

use crate::edit::Edit;
use crate::item::Item;
use crate::leaf::Leaf;
use crate::page::{self, Page};
use crate::slots::Slots;
use lx_node::{Key, NoMemory};
use std::alloc::Global;
use std::marker::Model;

/// How many slots a chapter has.
pub const SLOTS: u32 = LEAVES * page::SLOTS;

// How many leaves a chapter has.
const LEAVES: u32 = 32;

/// 1,024 slots in 32 leaves, always as many: slot s is slot s mod 32 of leaf s div 32. Contracts see the list of
/// the slots, so that a chapter is a longer page. A copy shares the pages, and a page is copied once it is written.
#[derive(Drop)]
pub struct Chapter<V: Item> {
    leaves: Vec<Leaf<V>>,
}

impl<V: Item> Model for Chapter<V> {
    ghost use Rattle.std.specs.Prelude.{◌≡◌, List, length};
    ghost use Rattle.std.specs.declared.option.Option.{Option};
    ghost use Rattle.lx_store.specs.Pages.{joined};

    ghost Value = { List (Option V) };

    ghost view = { λ chapter. joined chapter.leaves.items };

    ghost invariant = { λ chapter. length chapter.leaves.items ≡ 32 };
}

impl<V: Item> Slots<V> for Chapter<V> {
    ghost size = { 1024 };

    ghost slots = { λ slots. slots };

    fn new(alloc: Global) -> Result<Chapter<V>, NoMemory> {
        let mut leaves = Vec::new(alloc);
        for _ in 0..LEAVES {
            leaves.push(Leaf::empty())?;
        }
        Ok(Chapter { leaves })
    }

    fn fork(&self) -> Result<Chapter<V>, NoMemory> {
        Ok(Chapter {
            leaves: self.leaves.clone()?,
        })
    }

    fn get(&self, slot: u32) -> Option<&V> {
        self.leaves[(slot / page::SLOTS) as usize].get(slot % page::SLOTS)
    }

    fn put(
        &mut self,
        slot: u32,
        item: V,
        alloc: Global,
        count: &mut V::Count,
    ) -> Result<Option<V>, NoMemory> {
        let leaf = &mut self.leaves[(slot / page::SLOTS) as usize];
        Ok(leaf.put(slot % page::SLOTS, item, alloc, count)?)
    }

    fn change<E: Edit<V>>(
        &mut self,
        slot: u32,
        edit: E,
        alloc: Global,
        count: &mut V::Count,
    ) -> Result<bool, NoMemory> {
        let leaf = &mut self.leaves[(slot / page::SLOTS) as usize];
        Ok(leaf.change(slot % page::SLOTS, edit, alloc, count)?)
    }

    fn take(
        &mut self,
        slot: u32,
        alloc: Global,
        count: &mut V::Count,
    ) -> Result<Option<V>, NoMemory> {
        let leaf = &mut self.leaves[(slot / page::SLOTS) as usize];
        Ok(leaf.take(slot % page::SLOTS, alloc, count)?)
    }
}

impl<V: Item> Chapter<V> {
    /// The page at a place, where there is one: it has the slots from 32 times the place on.
    pub fn page(&self, place: u32) -> Option<&Page<V>>
        requires { place < 32 }
        ensures { (slot : ℕ) → slot < 32 → item_in (option_copied result) slot ≡ slot_at self.now (place * 32 + slot) }
    {
        self.leaves[place as usize].page()
    }

    /// Whether no slot has an item.
    pub fn is_empty(&self) -> bool
        ensures { IsTrue result → (slot : ℕ) → slot_at self.now slot ≡ None }
    {
        for leaf in &self.leaves {
            if !leaf.is_empty() {
                return false;
            }
        }
        true
    }
}

/// The number of the chapter that the key is in.
pub fn number_of(key: Key) -> u32
    ensures number { result ≡ key / 1024 }
    ensures small { result < 4194304 }
{
    key.number() / SLOTS
}

/// The slot of the chapter that the key is in.
pub fn slot_of(key: Key) -> u32
    ensures { result ≡ key % 1024 }
{
    key.number() % SLOTS
}
