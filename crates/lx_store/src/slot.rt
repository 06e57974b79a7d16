ghost use Rattle.std.specs.Prelude.{◌≡◌, ◌≤◌, ◌+◌, is_some, option_map, IfSome, IfOk, IfErr, OnOk, OnErr};
ghost use Rattle.std.specs.Option.{option_copied};
ghost use Rattle.std.specs.declared.option.Option.TheVariants.{None, Some};

use crate::edit::Edit;
use crate::item::Item;
use lx_node::NoMemory;
use std::alloc::{AllocError, Global};
use std::marker::Model;
use std::rc::Rc;

/// An item that slots of other pages may share, or none. Contracts see the item.
#[derive(Drop)]
pub struct Slot<V: Item> {
    held: Option<Rc<V>>,
}

impl<V: Item> Model for Slot<V> {
    ghost use Rattle.std.specs.Prelude.{option_map};
    ghost use Rattle.std.specs.declared.option.Option.{Option};

    ghost Value = { Option V };

    ghost view = { λ slot. option_map (λ shared. shared.value) slot.held };
}

impl<V: Item> Clone for Slot<V> {
    ghost is_clone = { λ slot copy. copy ≡ slot };

    fn clone(&self) -> Result<Slot<V>, AllocError> {
        match &self.held {
            Some(shared) => Ok(Slot {
                held: Some(shared.clone()?),
            }),
            None => Ok(Slot::empty()),
        }
    }
}

impl<V: Item> Slot<V> {
    /// A slot without an item.
    pub fn empty() -> Slot<V>
        ensures { result ≡ None }
    {
        Slot { held: None }
    }

    /// The item, where there is one.
    pub fn get(&self) -> Option<&V>
        ensures { option_copied result ≡ self.now }
    {
        match &self.held {
            Some(shared) => Some(shared.as_ref()),
            None => None,
        }
    }

    /// Whether there is an item.
    pub fn is_some(&self) -> bool
        ensures { result ≡ is_some self.now }
    {
        self.held.is_some()
    }

    /// Puts the item, and answers the one that was there: its twin, where other slots hold it too.
    pub fn put(
        &mut self,
        item: V,
        alloc: Global,
        count: &mut V::Count,
    ) -> Result<Option<V>, NoMemory>
        ensures old { IfOk result (λ old. old ≡ self.old) }
        ensures put { OnOk result (self.new ≡ Some item) }
        ensures unchanged { OnErr result (self.new ≡ self.old) }
        ensures counted { V.Count.total count.old ≤ V.Count.total count.new }
        ensures few_twinned { V.Count.total count.new ≤ V.Count.total count.old + 1 }
    {
        match &mut self.held {
            Some(shared) => Ok(Some(exchange(shared, item, alloc, count)?)),
            None => {
                self.held = Some(Rc::new(alloc, item)?);
                Ok(None)
            }
        }
    }

    /// Edits the item, and says whether there is one. An item that other slots hold too stays with them as it
    /// was, and its twin is edited.
    pub fn change<E: Edit<V>>(
        &mut self,
        edit: E,
        alloc: Global,
        count: &mut V::Count,
    ) -> Result<bool, NoMemory>
        requires { IfSome self.old (E.fits edit) }
        ensures found { IfOk result (λ found. found ≡ is_some self.old) }
        ensures changed { OnOk result (self.new ≡ option_map (E.edited edit) self.old) }
        ensures unchanged { OnErr result (self.new ≡ self.old) }
        ensures counted { V.Count.total count.old ≤ V.Count.total count.new }
        ensures few_twinned { V.Count.total count.new ≤ V.Count.total count.old + 1 }
    {
        match &mut self.held {
            Some(shared) => {
                change(shared, edit, alloc, count)?;
                Ok(true)
            }
            None => Ok(false),
        }
    }

    /// Takes out the item, where there is one: its twin, where other slots hold it too.
    pub fn take(&mut self, alloc: Global, count: &mut V::Count) -> Result<Option<V>, NoMemory>
        ensures taken { IfOk result (λ taken. taken ≡ self.old) }
        ensures gone { OnOk result (self.new ≡ None) }
        ensures unchanged { OnErr result (self.new ≡ self.old) }
        ensures counted { V.Count.total count.old ≤ V.Count.total count.new }
        ensures few_twinned { V.Count.total count.new ≤ V.Count.total count.old + 1 }
    {
        let Some(shared) = self.held.take() else {
            return Ok(None);
        };
        match owned(shared, alloc, count) {
            Ok(item) => Ok(Some(item)),
            Err(shared) => {
                self.held = Some(shared);
                Err(NoMemory)
            }
        }
    }
}

// Puts another item in the place of one, and answers that one.
fn exchange<V: Item>(
    shared: &mut Rc<V>,
    item: V,
    alloc: Global,
    count: &mut V::Count,
) -> Result<V, NoMemory>
    ensures old { IfOk result (λ old. old ≡ shared.old.value) }
    ensures put { OnOk result (shared.new.value ≡ item) }
    ensures unchanged { OnErr result (shared.new.value ≡ shared.old.value) }
    ensures counted { V.Count.total count.old ≤ V.Count.total count.new }
    ensures few_twinned { V.Count.total count.new ≤ V.Count.total count.old + 1 }
{
    match Rc::get_mut(shared) {
        Some(own) => Ok(std::mem::replace(own, item)),
        None => {
            let old = shared.twin(alloc, count)?;
            *shared = Rc::new(alloc, item)?;
            Ok(old)
        }
    }
}

// Edits the item, or its twin where others hold it too.
fn change<V: Item, E: Edit<V>>(
    shared: &mut Rc<V>,
    edit: E,
    alloc: Global,
    count: &mut V::Count,
) -> Result<(), NoMemory>
    requires { E.fits edit shared.old.value }
    ensures changed { OnOk result (shared.new.value ≡ E.edited edit shared.old.value) }
    ensures unchanged { OnErr result (shared.new.value ≡ shared.old.value) }
    ensures counted { V.Count.total count.old ≤ V.Count.total count.new }
    ensures few_twinned { V.Count.total count.new ≤ V.Count.total count.old + 1 }
{
    match Rc::get_mut(shared) {
        Some(own) => edit.edit(own),
        None => {
            let mut twin = shared.twin(alloc, count)?;
            edit.edit(&mut twin)?;
            *shared = Rc::new(alloc, twin)?;
            Ok(())
        }
    }
}

// The item, or its twin where others hold it too. Where memory ran out, it is handed back.
fn owned<V: Item>(shared: Rc<V>, alloc: Global, count: &mut V::Count) -> Result<V, Rc<V>>
    ensures item { IfOk result (λ item. item ≡ shared.value) }
    ensures returned { IfErr result (λ kept. kept.value ≡ shared.value) }
    ensures counted { V.Count.total count.old ≤ V.Count.total count.new }
    ensures few_twinned { V.Count.total count.new ≤ V.Count.total count.old + 1 }
{
    match Rc::try_unwrap(shared) {
        Ok(item) => Ok(item),
        Err(shared) => match shared.twin(alloc, count) {
            Ok(twin) => Ok(twin),
            Err(_) => Err(shared),
        },
    }
}
