ghost use Rattle.std.specs.Prelude.{◌≡◌, ◌<◌, ◌≤◌, ◌+◌, is_some, IfSome, IfOk, OnOk, OnErr};
ghost use Rattle.std.specs.Option.{option_copied};
ghost use Rattle.std.specs.FinMap as map;
ghost use Rattle.lx_node.specs.Limits.{last_u32};
ghost use Rattle.lx_store.specs.Differing.{first_after, AreSameTo};
ghost use Rattle.lx_store.specs.Edits.{with_edit};

use crate::differing;
use crate::edit::Edit;
use crate::item::Item;
use crate::table::Table;
use lx_node::{Key, NoMemory};
use std::alloc::Global;
use std::marker::Model;

/// A map from key to item, of at most 4,294,967,295 items.
#[derive(Drop)]
pub struct Store<V: Item> {
    held: Table<V>,
    count: u32,
}

impl<V: Item> Model for Store<V> {
    ghost use Rattle.std.specs.Prelude.{◌≡◌};
    ghost use Rattle.std.specs.Ordering.{nat_cmp};
    ghost use Rattle.std.specs.FinMap as map;
    ghost use Rattle.std.specs.Coded.{coded_ℕ};

    ghost Value = { map.FinMap nat_cmp V };

    ghost coded = { map.code coded_ℕ V.code };

    ghost view = { λ s. s.held };

    ghost invariant = { λ s. s.count ≡ map.len s.held };
}

impl<V: Item> Store<V> {
    /// An empty store, whose items take memory from the allocator.
    pub fn new(alloc: Global) -> Result<Store<V>, NoMemory>
        ensures { IfOk result (λ made. made ≡ map.empty) }
    {
        Ok(Store {
            held: Table::new(alloc),
            count: 0,
        })
    }

    /// An equal store. What is done to either of the two afterwards leaves the other as it was. No item is
    /// twinned here.
    pub fn fork(&self, count: &mut V::Count) -> Result<Store<V>, NoMemory>
        ensures equal { IfOk result (λ made. made ≡ self.now) }
        ensures counted { V.Count.total count.old ≤ V.Count.total count.new }
        ensures none_twinned { V.Count.total count.new ≡ V.Count.total count.old }
    {
        Ok(Store {
            held: self.held.fork()?,
            count: self.count,
        })
    }

    /// The item under the key, where there is one.
    pub fn get(&self, key: Key) -> Option<&V>
        ensures { option_copied result ≡ map.get self.now key }
    {
        self.held.get(key)
    }

    /// The first key after one, or the first of all, under which two stores have other items. Where no key is
    /// answered they have equal ones, or none, from there on. It looks at each page of either up to the answer, and
    /// goes over 1,024 keys at once where neither has any.
    pub fn next_difference(&self, other: &Store<V>, after: Option<Key>) -> Option<Key>
        ensures { AreSameTo (map.get self.now) (map.get other.now) (first_after after) result }
    {
        differing::next_difference(&self.held, &other.held, after)
    }

    /// Puts the item under the key, and answers the one that was there. Every other key keeps its item. The
    /// count may have risen, by at most one, also where memory ran out; the store is then as it was.
    pub fn put(&mut self, key: Key, item: V, count: &mut V::Count) -> Result<Option<V>, NoMemory>
        requires { map.get self.old key ≡ None → map.len self.old < last_u32 }
        ensures old { IfOk result (λ old. old ≡ map.get self.old key) }
        ensures put { OnOk result (self.new ≡ map.insert self.old key item) }
        ensures unchanged { OnErr result (self.new ≡ self.old) }
        ensures counted { V.Count.total count.old ≤ V.Count.total count.new }
        ensures few_twinned { V.Count.total count.new ≤ V.Count.total count.old + 1 }
    {
        let old = self.held.put(key, item, count)?;
        if old.is_none() {
            self.count += 1;
        }
        Ok(old)
    }

    /// Edits the item under the key where it is, and says whether there is one. Every other key keeps its
    /// item. The count may have risen, by at most one, also where memory ran out; the store is then as it
    /// was.
    pub fn change<E: Edit<V>>(
        &mut self,
        key: Key,
        edit: E,
        count: &mut V::Count,
    ) -> Result<bool, NoMemory>
        requires { IfSome (map.get self.old key) (E.fits edit) }
        ensures found { IfOk result (λ found. found ≡ is_some (map.get self.old key)) }
        ensures changed { OnOk result (self.new ≡ with_edit (E.edited edit) key self.old) }
        ensures unchanged { OnErr result (self.new ≡ self.old) }
        ensures counted { V.Count.total count.old ≤ V.Count.total count.new }
        ensures few_twinned { V.Count.total count.new ≤ V.Count.total count.old + 1 }
    {
        self.held.change(key, edit, count)
    }

    /// Takes out the item under the key, where there is one. Every other key keeps its item. The count may
    /// have risen, by at most one, also where memory ran out; the store is then as it was.
    pub fn take(&mut self, key: Key, count: &mut V::Count) -> Result<Option<V>, NoMemory>
        ensures taken { IfOk result (λ taken. taken ≡ map.get self.old key) }
        ensures gone { OnOk result (self.new ≡ map.remove self.old key) }
        ensures unchanged { OnErr result (self.new ≡ self.old) }
        ensures counted { V.Count.total count.old ≤ V.Count.total count.new }
        ensures few_twinned { V.Count.total count.new ≤ V.Count.total count.old + 1 }
    {
        let taken = self.held.take(key, count)?;
        if taken.is_some() {
            self.count -= 1;
        }
        Ok(taken)
    }

    /// The keys, ascending.
    pub fn keys(&self) -> Result<Vec<Key>, NoMemory>
        ensures { IfOk result (λ keys. keys.items ≡ map.keys self.now) }
    {
        self.held.keys()
    }

    /// How many items there are.
    pub fn len(&self) -> u32
        ensures { result ≡ map.len self.now }
    {
        self.count
    }
}
