//! At which keys two trees may differ, as the marks of what led from one to the other say it.

ghost use Rattle.std.specs.Prelude.{◌≡◌, ◌≢◌, ◌∷◌, ℕ, [], true, OnOk};
ghost use Rattle.lx_trees.specs.Siblings.{is_among};
ghost use Rattle.lx_marks.specs.Marks.{is_touched, is_noted, is_true_flag, flag_in};
ghost use Rattle.lx_forest.specs.Lookups.{roots, is_within, IsForest};
ghost use Rattle.lx_forest.specs.Covered.{AreCovered};
ghost use Rattle.lx_compare.specs.Places.{IsListed, AreKept};

use lx_links::Links;
use lx_marks::Marks;
use lx_node::{Key, NoMemory};
use std::alloc::Global;
use std::marker::Model;
use std::mem::replace;

/// Where more keys than these are told already, or more leaves than these are marked, the trees may differ anywhere.
const MOST_KEYS: usize = 4096;

/// The keys at which two trees may differ, unless they may differ anywhere. A key may be there more than once.
#[derive(Drop)]
pub struct Places {
    keys: Vec<Key>,
    is_anywhere: bool,
}

impl Model for Places {
    ghost use Rattle.std.specs.Prelude.{ℕ, List, Option, None, Some, if◌then◌else◌};

    ghost Value = { Option (List ℕ) };

    ghost view = { λ p. if p.is_anywhere then None else Some p.keys.items };
}

impl Places {
    ghost use Rattle.std.specs.Prelude.{None, Some, option_map};
    ghost use Rattle.lx_compare.specs.Places.{IsOutside, IsAsBefore, IsJoined};

    /// No keys at all. Later ones take memory from the allocator.
    pub fn new(alloc: Global) -> Places
        ensures { result ≡ Some [] }
    {
        Places {
            keys: Vec::new(alloc),
            is_anywhere: false,
        }
    }

    /// The keys, unless the trees may differ anywhere.
    pub fn keys(&self) -> Option<&[Key]>
        ensures { option_map (λ keys. keys.now) result ≡ self.now }
    {
        if self.is_anywhere {
            None
        } else {
            Some(self.keys.as_slice())
        }
    }

    /// What was told so far. No keys are left then.
    pub fn take(&mut self) -> Places
        ensures taken { result ≡ self.old }
        ensures left { self.new ≡ Some [] }
    {
        let fresh = Places::new(*self.keys.allocator());
        replace(self, fresh)
    }

    /// Forgets all keys.
    pub fn clear(&mut self)
        ensures { self.new ≡ Some [] }
    {
        self.keys.clear();
        self.is_anywhere = false;
    }

    /// Forgets at which keys: the trees may differ anywhere.
    pub fn lose(&mut self)
        ensures { self.new ≡ None }
    {
        self.keys.clear();
        self.is_anywhere = true;
    }

    /// Adds those of the others. Where there is no memory for them, or they are too many, that is anywhere.
    pub fn join(&mut self, others: &Places)
        ensures { IsJoined self.old others.now self.new }
    {
        match others.keys() {
            Some(keys) => self.add(keys),
            None => self.is_anywhere = true,
        }
    }

    /// Adds keys. Where they are the last that were added nothing is done: typing adds the same again and again.
    fn add(&mut self, keys: &[Key])
        ensures { IsJoined self.old (Some keys.now) self.new }
    {
        if self.is_anywhere {
            return;
        }
        if self.keys.ends_with(keys) {
            return;
        }
        if self.keys.len() > MOST_KEYS || self.keys.extend_from_slice(keys).is_err() {
            self.is_anywhere = true;
        }
    }

    /// Adds the keys at which two trees may differ that the marks cover. Where there is no memory for them, or they are too
    /// many, that is anywhere. It costs a look at what is marked and at what went with it.
    pub fn add_changes(&mut self, old: &Links, new: &Links, marks: &Marks)
        requires old_order { IsForest old.now }
        requires new_order { IsForest new.now }
        requires alone { roots old.now ≡ 0 ∷ [] }
        requires covered { AreCovered old.now new.now (record { touched = is_touched marks.now; noted = is_noted marks.now }) }
        ensures { (q : ℕ) → IsOutside self.new q → IsOutside self.old q × IsAsBefore old.now new.now q }
    {
        if self.keys.len() > MOST_KEYS || marks.leaves().len() > MOST_KEYS {
            self.is_anywhere = true;
            return;
        }
        match add_marked(&mut self.keys, old, new, marks) {
            Ok(()) => {}
            Err(_) => self.is_anywhere = true,
        }
    }
}

/// Adds the keys below a node.
fn add_below(keys: &mut Vec<Key>, links: &Links, key: Key) -> Result<(), NoMemory>
    ensures kept { OnOk result (AreKept keys.old.items keys.new.items) }
    ensures below { OnOk result ((q : ℕ) → is_within links.now key q ≡ true → q ≢ key → is_among q keys.new.items ≡ true) }
{
    for child in links.children(key) {
        keys.push(child)?;
        add_below(keys, links, child)?;
    }
    Ok(())
}

/// Adds a key, and those that were below it where its node is gone.
fn add_key(keys: &mut Vec<Key>, old: &Links, new: &Links, key: Key) -> Result<(), NoMemory>
    ensures kept { OnOk result (AreKept keys.old.items keys.new.items) }
    ensures listed { OnOk result (IsListed old.now new.now keys.new.items key) }
{
    keys.push(key)?;
    if new.has(key) {
        return Ok(());
    }
    add_below(keys, old, key)
}

/// Adds leaves.
fn add_leaves(keys: &mut Vec<Key>, old: &Links, new: &Links, leaves: &[Key]) -> Result<(), NoMemory>
    ensures kept { OnOk result (AreKept keys.old.items keys.new.items) }
    ensures listed { OnOk result ((q : ℕ) → is_among q leaves.now ≡ true → IsListed old.now new.now keys.new.items q) }
{
    for key in leaves {
        add_key(keys, old, new, *key)?;
    }
    Ok(())
}

/// Adds an element where it is marked itself.
fn add_element(
    keys: &mut Vec<Key>,
    old: &Links,
    new: &Links,
    key: Key,
    flag: bool,
) -> Result<(), NoMemory>
    ensures kept { OnOk result (AreKept keys.old.items keys.new.items) }
    ensures listed { OnOk result (flag ≡ true → IsListed old.now new.now keys.new.items key) }
{
    if flag {
        return add_key(keys, old, new, key);
    }
    Ok(())
}

/// Adds the elements that are marked themselves.
fn add_elements(
    keys: &mut Vec<Key>,
    old: &Links,
    new: &Links,
    elements: &[(Key, bool)],
) -> Result<(), NoMemory>
    ensures kept { OnOk result (AreKept keys.old.items keys.new.items) }
    ensures listed { OnOk result ((q : ℕ) → is_true_flag (flag_in elements.now q) ≡ true → IsListed old.now new.now keys.new.items q) }
{
    for (key, flag) in elements {
        add_element(keys, old, new, *key, *flag)?;
    }
    Ok(())
}

/// Adds what is marked itself.
fn add_marked(keys: &mut Vec<Key>, old: &Links, new: &Links, marks: &Marks) -> Result<(), NoMemory>
    ensures kept { OnOk result (AreKept keys.old.items keys.new.items) }
    ensures listed { OnOk result ((q : ℕ) → is_touched marks.now q ≡ true → IsListed old.now new.now keys.new.items q) }
{
    add_leaves(keys, old, new, marks.leaves())?;
    add_elements(keys, old, new, marks.elements())
}
