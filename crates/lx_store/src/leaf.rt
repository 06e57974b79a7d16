ghost use Rattle.std.specs.Prelude.{◌≡◌, [], ◌<◌, ◌≤◌, ◌+◌, ℕ, length, replicate, is_some, option_map, IfSome, IfOk, OnOk, OnErr, IsTrue};
ghost use Rattle.std.specs.Option.{option_copied};
ghost use Rattle.std.specs.declared.option.Option.TheVariants.{None, Some};
ghost use Rattle.lx_store.specs.Differing.{item_in};
ghost use Rattle.lx_store.specs.Pages.{slot_at, written, fitted};

use crate::edit::Edit;
use crate::item::Item;
use crate::page::Page;
use crate::slots::{Slots, change, holding, take_out, write};
use lx_node::NoMemory;
use std::alloc::{AllocError, Global};
use std::marker::Model;
use std::rc::Rc;

/// A page that leaves of other chapters may share, or none, which stands for 32 empty slots. Contracts see the
/// slots of the page, or no slots, and compare leaves by their `fitted` slots, where no page is as good as an
/// empty one. A page that has lost its last item is given up.
#[derive(Drop)]
pub struct Leaf<V: Item> {
    held: Option<Rc<Page<V>>>,
}

impl<V: Item> Model for Leaf<V> {
    ghost use Rattle.std.specs.Prelude.{List};
    ghost use Rattle.std.specs.declared.option.Option.{Option};
    ghost use Rattle.lx_store.specs.Pages.{slots_held};

    ghost Value = { List (Option V) };

    ghost view = { λ leaf. slots_held leaf.held };
}

impl<V: Item> Clone for Leaf<V> {
    ghost is_clone = { λ leaf copy. copy ≡ leaf };

    fn clone(&self) -> Result<Leaf<V>, AllocError> {
        match &self.held {
            Some(page) => Ok(Leaf {
                held: Some(page.clone()?),
            }),
            None => Ok(Leaf::empty()),
        }
    }
}

impl<V: Item> Leaf<V> {
    /// A leaf without a page.
    pub fn empty() -> Leaf<V>
        ensures { result ≡ [] }
    {
        Leaf { held: None }
    }

    /// The item in the slot, where there is one.
    pub fn get(&self, slot: u32) -> Option<&V>
        requires { slot < 32 }
        ensures { option_copied result ≡ slot_at self.now slot }
    {
        match &self.held {
            Some(page) => page.get(slot),
            None => None,
        }
    }

    /// The page, where there is one.
    pub fn page(&self) -> Option<&Page<V>>
        ensures { (slot : ℕ) → item_in (option_copied result) slot ≡ slot_at self.now slot }
    {
        match &self.held {
            Some(page) => Some(page),
            None => None,
        }
    }

    /// Whether there is no page, and so no item.
    pub fn is_empty(&self) -> bool
        ensures { IsTrue result → self.now ≡ [] }
    {
        self.held.is_none()
    }

    /// Puts the item into the slot, and answers what was there.
    pub fn put(
        &mut self,
        slot: u32,
        item: V,
        alloc: Global,
        count: &mut V::Count,
    ) -> Result<Option<V>, NoMemory>
        requires { slot < 32 }
        ensures old { IfOk result (λ old. old ≡ slot_at self.old slot) }
        ensures written { OnOk result (fitted self.new ≡ written (fitted self.old) slot (Some item)) }
        ensures unchanged { OnErr result (self.new ≡ self.old) }
        ensures counted { V.Count.total count.old ≤ V.Count.total count.new }
        ensures few_twinned { V.Count.total count.new ≤ V.Count.total count.old + 1 }
    {
        match &mut self.held {
            Some(page) => Ok(write(page, slot, item, alloc, count)?),
            None => {
                self.held = Some(holding(slot, item, alloc, count)?);
                Ok(None)
            }
        }
    }

    /// Edits the item in the slot, and says whether there is one.
    pub fn change<E: Edit<V>>(
        &mut self,
        slot: u32,
        edit: E,
        alloc: Global,
        count: &mut V::Count,
    ) -> Result<bool, NoMemory>
        requires slot { slot < 32 }
        requires fits { IfSome (slot_at self.old slot) (E.fits edit) }
        ensures found { IfOk result (λ found. found ≡ is_some (slot_at self.old slot)) }
        ensures changed { OnOk result (fitted self.new ≡ written (fitted self.old) slot (option_map (E.edited edit) (slot_at self.old slot))) }
        ensures unchanged { OnErr result (self.new ≡ self.old) }
        ensures counted { V.Count.total count.old ≤ V.Count.total count.new }
        ensures few_twinned { V.Count.total count.new ≤ V.Count.total count.old + 1 }
    {
        let Some(page) = &mut self.held else {
            return Ok(false);
        };
        Ok(change(page, slot, edit, alloc, count)?)
    }

    /// Empties the slot, and answers what was there.
    pub fn take(
        &mut self,
        slot: u32,
        alloc: Global,
        count: &mut V::Count,
    ) -> Result<Option<V>, NoMemory>
        requires { slot < 32 }
        ensures old { IfOk result (λ old. old ≡ slot_at self.old slot) }
        ensures written { OnOk result (fitted self.new ≡ written (fitted self.old) slot None) }
        ensures unchanged { OnErr result (self.new ≡ self.old) }
        ensures counted { V.Count.total count.old ≤ V.Count.total count.new }
        ensures few_twinned { V.Count.total count.new ≤ V.Count.total count.old + 1 }
    {
        let Some(page) = &mut self.held else {
            return Ok(None);
        };
        let taken = take_out(page, slot, alloc, count)?;
        self.give_up();
        Ok(taken)
    }

    // Gives up the page if it has no items.
    fn give_up(&mut self)
        ensures { fitted self.new ≡ fitted self.old }
    {
        let Some(page) = &self.held else {
            return;
        };
        if page.is_empty() {
            drop(self.held.take());
        }
    }
}
