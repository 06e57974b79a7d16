ghost use Rattle.std.specs.Prelude.{◌≡◌, [], ◌∷◌, ◌<◌, ◌≤◌, ◌+◌, ◌*◌, ◌++◌, ℕ, length, take, replicate, is_some, option_map, IfSome, IfOk, IfErr, OnOk, OnErr};
ghost use Rattle.std.specs.Option.{option_copied};
ghost use Rattle.std.specs.declared.option.Option.TheVariants.{None, Some};
ghost use Rattle.std.specs.Ordering.{nat_cmp};
ghost use Rattle.std.specs.List.Sorted.{IsStrictlySortedBy};
ghost use Rattle.std.specs.Map.{keys_of};
ghost use Rattle.std.specs.FinMap as map;
ghost use Rattle.lx_store.specs.Differing.{item_in};
ghost use Rattle.lx_store.specs.Edits.{with_edit};
ghost use Rattle.lx_store.specs.Pages.{slot_at, written};
ghost use Rattle.lx_store.specs.Tables.{keyed, StandsAt, GoesAt};

use crate::chapter::{Chapter, SLOTS, number_of, slot_of};
use crate::edit::Edit;
use crate::item::Item;
use crate::slots::{Slots, change, holding, take_out, write};
use lx_node::{Key, NoMemory};
use std::alloc::Global;
use std::marker::Model;
use std::rc::Rc;

/// A map from key to item, in chapters that forks share. Contracts see it as a finite map. The chapters are in
/// the order of their numbers, and only those that have items.
#[derive(Drop)]
pub struct Table<V: Item> {
    alloc: Global,
    chapters: Vec<(u32, Rc<Chapter<V>>)>,
}

impl<V: Item> Model for Table<V> {
    ghost use Rattle.std.specs.Ordering.{nat_cmp};
    ghost use Rattle.std.specs.FinMap as map;
    ghost use Rattle.std.specs.Coded.{coded_ℕ};
    ghost use Rattle.lx_store.specs.Tables.{items_of, slots_of, IsTable};

    ghost Value = { map.FinMap nat_cmp V };

    ghost coded = { map.code coded_ℕ V.code };

    ghost view = { λ s. map.from_entries (items_of slots_of s.chapters.items) };

    ghost invariant = { λ s. IsTable s.chapters.items };
}

impl<V: Item> Table<V> {
    /// An empty map.
    pub fn new(alloc: Global) -> Table<V>
        ensures { result ≡ map.empty }
    {
        Table {
            alloc,
            chapters: Vec::new(alloc),
        }
    }

    /// An equal map, which shares each chapter with this one.
    pub fn fork(&self) -> Result<Table<V>, NoMemory>
        ensures { IfOk result (λ made. made ≡ self.now) }
    {
        Ok(Table {
            alloc: self.alloc,
            chapters: self.chapters.clone()?,
        })
    }

    /// The item under the key, where there is one.
    pub fn get(&self, key: Key) -> Option<&V>
        ensures { option_copied result ≡ map.get self.now key }
    {
        match place(&self.chapters, number_of(key)) {
            Ok(place) => self.chapters[place].1.get(slot_of(key)),
            Err(_) => None,
        }
    }

    /// The chapter with the number, where there is one.
    pub(crate) fn chapter(&self, number: u32) -> Option<&Chapter<V>>
        ensures { (slot : ℕ) → slot < 1024 → item_in (option_copied result) slot ≡ map.get self.now (number * 1024 + slot) }
    {
        match place(&self.chapters, number) {
            Ok(place) => Some(&self.chapters[place].1),
            Err(_) => None,
        }
    }

    /// A number after those of all chapters.
    pub(crate) fn end(&self) -> u32
        ensures small { result ≤ 4194304 }
        ensures end { (key : ℕ) → result * 1024 ≤ key → map.get self.now key ≡ None }
    {
        let count = self.chapters.len();
        if count == 0 {
            return 0;
        }
        self.chapters[count - 1].0 + 1
    }

    /// Puts the item under the key, and answers the one that was there.
    pub fn put(&mut self, key: Key, item: V, count: &mut V::Count) -> Result<Option<V>, NoMemory>
        ensures old { IfOk result (λ old. old ≡ map.get self.old key) }
        ensures put { OnOk result (self.new ≡ map.insert self.old key item) }
        ensures unchanged { OnErr result (self.new ≡ self.old) }
        ensures counted { V.Count.total count.old ≤ V.Count.total count.new }
        ensures few_twinned { V.Count.total count.new ≤ V.Count.total count.old + 1 }
    {
        let number = number_of(key);
        let slot = slot_of(key);
        match place(&self.chapters, number) {
            Ok(place) => {
                let chapter = &mut self.chapters[place].1;
                Ok(write(chapter, slot, item, self.alloc, count)?)
            }
            Err(place) => {
                let chapter = holding(slot, item, self.alloc, count)?;
                self.chapters.insert(place, (number, chapter))?;
                Ok(None)
            }
        }
    }

    /// Edits the item under the key, and says whether there is one.
    pub fn change<E: Edit<V>>(
        &mut self,
        key: Key,
        edit: E,
        count: &mut V::Count,
    ) -> Result<bool, NoMemory>
        requires { IfSome (map.get self.old key) (E.fits edit) }
        ensures found { IfOk result (λ found. found ≡ is_some (map.get self.old key)) }
        ensures changed { OnOk result (self.new ≡ with_edit (E.edited edit) key self.old) }
        ensures unchanged { OnErr result (self.new ≡ self.old) }
        ensures counted { V.Count.total count.old ≤ V.Count.total count.new }
        ensures few_twinned { V.Count.total count.new ≤ V.Count.total count.old + 1 }
    {
        let number = number_of(key);
        let slot = slot_of(key);
        let Ok(place) = place(&self.chapters, number) else {
            return Ok(false);
        };
        let chapter = &mut self.chapters[place].1;
        Ok(change(chapter, slot, edit, self.alloc, count)?)
    }

    /// Takes out the item under the key, where there is one.
    pub fn take(&mut self, key: Key, count: &mut V::Count) -> Result<Option<V>, NoMemory>
        ensures taken { IfOk result (λ taken. taken ≡ map.get self.old key) }
        ensures gone { OnOk result (self.new ≡ map.remove self.old key) }
        ensures unchanged { OnErr result (self.new ≡ self.old) }
        ensures counted { V.Count.total count.old ≤ V.Count.total count.new }
        ensures few_twinned { V.Count.total count.new ≤ V.Count.total count.old + 1 }
    {
        let number = number_of(key);
        let slot = slot_of(key);
        let Ok(place) = place(&self.chapters, number) else {
            return Ok(None);
        };
        let chapter = &mut self.chapters[place].1;
        let taken = take_out(chapter, slot, self.alloc, count)?;
        self.give_up(number);
        Ok(taken)
    }

    // Gives up the chapter if it has no items.
    fn give_up(&mut self, number: u32)
        ensures { self.new ≡ self.old }
    {
        let Ok(place) = place(&self.chapters, number) else {
            return;
        };
        if self.chapters[place].1.is_empty() {
            drop(self.chapters.remove(place));
        }
    }

    /// The keys, ascending.
    pub fn keys(&self) -> Result<Vec<Key>, NoMemory>
        ensures { IfOk result (λ keys. keys.items ≡ map.keys self.now) }
    {
        let mut keys = Vec::new(self.alloc);
        for chapter in &self.chapters {
            push_keys(chapter.0, &chapter.1, &mut keys)?;
        }
        Ok(keys)
    }
}

// Where the chapter with the number is, or where it would go. Where the numbers run from 0 without a gap,
// a chapter is at the place that its number says, so that is looked at first.
fn place<V: Item>(chapters: &[(u32, Rc<Chapter<V>>)], number: u32) -> Result<usize, usize>
    requires { IsStrictlySortedBy nat_cmp (keys_of chapters.now) }
    ensures stands { IfOk result (λ place. StandsAt chapters.now number place) }
    ensures goes { IfErr result (λ place. GoesAt chapters.now number place) }
{
    let guess = number as usize;
    if guess < chapters.len() && chapters[guess].0 == number {
        return Ok(guess);
    }
    chapters.binary_search_by_key(&number, |chapter| chapter.0)
}

// Pushes the keys of the items of a chapter.
fn push_keys<V: Item>(
    number: u32,
    chapter: &Chapter<V>,
    keys: &mut Vec<Key>,
) -> Result<(), NoMemory>
    requires { number < 4194304 }
    ensures { OnOk result (keys.new.items ≡ keys.old.items ++ keys_of (keyed (number * 1024) (take 1024 chapter.now))) }
{
    for slot in 0..SLOTS {
        push_key(Key(number * SLOTS + slot), chapter.get(slot), keys)?;
    }
    Ok(())
}

// Pushes the key if it has an item.
fn push_key<V: Item>(key: Key, item: Option<&V>, keys: &mut Vec<Key>) -> Result<(), NoMemory>
    ensures { OnOk result (keys.new.items ≡ keys.old.items ++ keys_of (keyed key (option_copied item.entry ∷ []))) }
{
    if item.is_some() {
        keys.push(key)?;
    }
    Ok(())
}
