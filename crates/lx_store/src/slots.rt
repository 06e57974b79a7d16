//! Slots that others may share: what a page and a chapter have in common.

ghost use Rattle.std.specs.Prelude.{◌≡◌, ◌<◌, ◌≤◌, ◌+◌, ℕ, List, length, replicate, is_some, option_map, IfSome, IfOk, OnOk, OnErr};
ghost use Rattle.std.specs.Option.{option_copied};
ghost use Rattle.std.specs.declared.option.Option.{Option};
ghost use Rattle.std.specs.declared.option.Option.TheVariants.{None, Some};
ghost use Rattle.lx_store.specs.Pages.{slot_at, written};

use crate::edit::Edit;
use crate::item::Item;
use lx_node::NoMemory;
use std::alloc::Global;
use std::rc::Rc;

/// Some number of slots, each with an item or without one.
pub trait Slots<V: Item>: Sized + Drop {
    /// How many there are.
    ghost size: { ℕ };

    /// The slots in their order.
    ghost slots: { Self → List (Option V) };

    /// Slots without items.
    fn new(alloc: Global) -> Result<Self, NoMemory>
        ensures { IfOk result (λ made. slots made ≡ replicate size None) };

    /// Equal slots, which share what they hold with these.
    fn fork(&self) -> Result<Self, NoMemory>
        ensures { IfOk result (λ made. made ≡ self.now) };

    /// The item in the slot, where there is one.
    fn get(&self, slot: u32) -> Option<&V>
        requires { slot < size }
        ensures item { option_copied result ≡ slot_at (slots self.now) slot }
        ensures size { length (slots self.now) ≡ size };

    /// Puts the item into the slot, and answers what was there.
    fn put(
        &mut self,
        slot: u32,
        item: V,
        alloc: Global,
        count: &mut V::Count,
    ) -> Result<Option<V>, NoMemory>
        requires { slot < size }
        ensures old { IfOk result (λ old. old ≡ slot_at (slots self.old) slot) }
        ensures written { OnOk result (slots self.new ≡ written (slots self.old) slot (Some item)) }
        ensures unchanged { OnErr result (self.new ≡ self.old) }
        ensures size { IfOk result (λ _. length (slots self.old) ≡ size) }
        ensures counted { V.Count.total count.old ≤ V.Count.total count.new }
        ensures few_twinned { V.Count.total count.new ≤ V.Count.total count.old + 1 };

    /// Edits the item in the slot, and says whether there is one.
    fn change<E: Edit<V>>(
        &mut self,
        slot: u32,
        edit: E,
        alloc: Global,
        count: &mut V::Count,
    ) -> Result<bool, NoMemory>
        requires slot { slot < size }
        requires fits { IfSome (slot_at (slots self.old) slot) (E.fits edit) }
        ensures found { IfOk result (λ found. found ≡ is_some (slot_at (slots self.old) slot)) }
        ensures changed { OnOk result (slots self.new ≡ written (slots self.old) slot (option_map (E.edited edit) (slot_at (slots self.old) slot))) }
        ensures unchanged { OnErr result (self.new ≡ self.old) }
        ensures size { IfOk result (λ _. length (slots self.old) ≡ size) }
        ensures counted { V.Count.total count.old ≤ V.Count.total count.new }
        ensures few_twinned { V.Count.total count.new ≤ V.Count.total count.old + 1 };

    /// Empties the slot, and answers what was there.
    fn take(
        &mut self,
        slot: u32,
        alloc: Global,
        count: &mut V::Count,
    ) -> Result<Option<V>, NoMemory>
        requires { slot < size }
        ensures old { IfOk result (λ old. old ≡ slot_at (slots self.old) slot) }
        ensures written { OnOk result (slots self.new ≡ written (slots self.old) slot None) }
        ensures unchanged { OnErr result (self.new ≡ self.old) }
        ensures size { IfOk result (λ _. length (slots self.old) ≡ size) }
        ensures counted { V.Count.total count.old ≤ V.Count.total count.new }
        ensures few_twinned { V.Count.total count.new ≤ V.Count.total count.old + 1 };
}

/// Slots with one item.
pub fn holding<V: Item, S: Slots<V>>(
    slot: u32,
    item: V,
    alloc: Global,
    count: &mut V::Count,
) -> Result<Rc<S>, NoMemory>
    requires { slot < S.size }
    ensures held { IfOk result (λ made. S.slots made.value ≡ written (replicate S.size None) slot (Some item)) }
    ensures counted { V.Count.total count.old ≤ V.Count.total count.new }
    ensures few_twinned { V.Count.total count.new ≤ V.Count.total count.old + 1 }
{
    let mut made = S::new(alloc)?;
    drop(made.put(slot, item, alloc, count)?);
    Ok(Rc::new(alloc, made)?)
}

/// Puts the item into the slot, and answers what was there. Slots that others hold too stay with them as they were, and
/// a copy takes their place here.
pub fn write<V: Item, S: Slots<V>>(
    held: &mut Rc<S>,
    slot: u32,
    item: V,
    alloc: Global,
    count: &mut V::Count,
) -> Result<Option<V>, NoMemory>
    requires { slot < S.size }
    ensures old { IfOk result (λ old. old ≡ slot_at (S.slots held.old.value) slot) }
    ensures written { OnOk result (S.slots held.new.value ≡ written (S.slots held.old.value) slot (Some item)) }
    ensures unchanged { OnErr result (held.new.value ≡ held.old.value) }
    ensures size { IfOk result (λ _. length (S.slots held.old.value) ≡ S.size) }
    ensures counted { V.Count.total count.old ≤ V.Count.total count.new }
    ensures few_twinned { V.Count.total count.new ≤ V.Count.total count.old + 1 }
{
    match Rc::get_mut(held) {
        Some(own) => Ok(own.put(slot, item, alloc, count)?),
        None => {
            let mut copy = held.fork()?;
            let old = copy.put(slot, item, alloc, count)?;
            *held = Rc::new(alloc, copy)?;
            Ok(old)
        }
    }
}

/// Edits the item in the slot, and says whether there is one. No copy is made for a slot that is empty. Slots that
/// others hold too stay with them as they were, and a copy takes their place here.
pub fn change<V: Item, S: Slots<V>, E: Edit<V>>(
    held: &mut Rc<S>,
    slot: u32,
    edit: E,
    alloc: Global,
    count: &mut V::Count,
) -> Result<bool, NoMemory>
    requires slot { slot < S.size }
    requires fits { IfSome (slot_at (S.slots held.old.value) slot) (E.fits edit) }
    ensures found { IfOk result (λ found. found ≡ is_some (slot_at (S.slots held.old.value) slot)) }
    ensures changed { OnOk result (S.slots held.new.value ≡ written (S.slots held.old.value) slot (option_map (E.edited edit) (slot_at (S.slots held.old.value) slot))) }
    ensures unchanged { OnErr result (held.new.value ≡ held.old.value) }
    ensures size { IfOk result (λ _. length (S.slots held.old.value) ≡ S.size) }
    ensures counted { V.Count.total count.old ≤ V.Count.total count.new }
    ensures few_twinned { V.Count.total count.new ≤ V.Count.total count.old + 1 }
{
    if held.get(slot).is_none() {
        return Ok(false);
    }
    match Rc::get_mut(held) {
        Some(own) => Ok(own.change(slot, edit, alloc, count)?),
        None => {
            let mut copy = held.fork()?;
            let found = copy.change(slot, edit, alloc, count)?;
            *held = Rc::new(alloc, copy)?;
            Ok(found)
        }
    }
}

/// Empties the slot, and answers what was there. No copy is made for a slot that is empty already.
pub fn take_out<V: Item, S: Slots<V>>(
    held: &mut Rc<S>,
    slot: u32,
    alloc: Global,
    count: &mut V::Count,
) -> Result<Option<V>, NoMemory>
    requires { slot < S.size }
    ensures old { IfOk result (λ old. old ≡ slot_at (S.slots held.old.value) slot) }
    ensures written { OnOk result (S.slots held.new.value ≡ written (S.slots held.old.value) slot None) }
    ensures unchanged { OnErr result (held.new.value ≡ held.old.value) }
    ensures size { IfOk result (λ _. length (S.slots held.old.value) ≡ S.size) }
    ensures counted { V.Count.total count.old ≤ V.Count.total count.new }
    ensures few_twinned { V.Count.total count.new ≤ V.Count.total count.old + 1 }
{
    if held.get(slot).is_none() {
        return Ok(None);
    }
    match Rc::get_mut(held) {
        Some(own) => Ok(own.take(slot, alloc, count)?),
        None => {
            let mut copy = held.fork()?;
            let taken = copy.take(slot, alloc, count)?;
            *held = Rc::new(alloc, copy)?;
            Ok(taken)
        }
    }
}
