ghost use Rattle.std.specs.Prelude.{◌≡◌, ◌==◌, ◌||◌, ◌&&◌, ◌++◌, ℕ, true, [], map, IfOk, OnOk};
ghost use Rattle.lx_trees.specs.Siblings.{is_among, is_named};
ghost use Rattle.lx_outline.specs.Events.{ascends, event_of};

use crate::event::Event;
use lx_node::{Key, NoMemory};
use std::alloc::Global;
use std::collections::BTreeSet;
use std::marker::Model;

/// What a commit did to all of some keys.
#[derive(Clone, Copy, Debug, PartialEq, Eq)]
pub(crate) enum Change {
    Destroyed,
    Created,
    Updated,
}

impl Change {
    /// The event that says so of a key.
    fn of(self, key: Key) -> Event
        ensures { result ≡ event_of self key }
    {
        match self {
            Change::Destroyed => Event::Destroyed(key),
            Change::Created => Event::Created(key),
            Change::Updated => Event::Updated(key),
        }
    }
}

/// Keys, each once. They are listed in ascending order.
#[derive(Drop)]
pub(crate) struct Keys {
    held: BTreeSet<u32>,
}

impl Model for Keys {
    ghost use Rattle.std.specs.Prelude.{List, ℕ};

    ghost Value = { List ℕ };

    ghost view = { λ k. k.held.keys };
}

impl Keys {
    /// No keys. Later ones take memory from the allocator.
    pub(crate) fn new(alloc: Global) -> Keys
        ensures { result ≡ [] }
    {
        Keys {
            held: BTreeSet::new(alloc),
        }
    }

    /// Puts a key where it belongs, unless it is there.
    pub(crate) fn insert(&mut self, key: Key) -> Result<(), NoMemory>
        ensures { OnOk result ((q : ℕ) → is_among q self.new ≡ (is_among q self.old || q == key)) }
    {
        self.held.insert(key.number())?;
        Ok(())
    }

    /// Puts a key where it belongs if the test was passed.
    pub(crate) fn insert_if(&mut self, passed: bool, key: Key) -> Result<(), NoMemory>
        ensures { OnOk result ((q : ℕ) → is_among q self.new ≡ (is_among q self.old || (passed && q == key))) }
    {
        if passed {
            return self.insert(key);
        }
        Ok(())
    }

    /// Puts a key where it belongs if one is given.
    pub(crate) fn insert_optional(&mut self, key: Option<Key>) -> Result<(), NoMemory>
        ensures { OnOk result ((q : ℕ) → is_among q self.new ≡ (is_among q self.old || is_named key q)) }
    {
        match key {
            Some(key) => self.insert(key),
            None => Ok(()),
        }
    }

    /// The keys, in ascending order.
    pub(crate) fn to_vec(&self, alloc: Global) -> Result<Vec<Key>, NoMemory>
        ensures keys { IfOk result (λ keys. keys.items ≡ self.now) }
        ensures ascending { OnOk result (ascends self.now ≡ true) }
    {
        let mut keys = Vec::new(alloc);
        for key in self.held.iter() {
            keys.push(Key(*key))?;
        }
        Ok(keys)
    }

    /// Adds an event for each key, by ascending keys.
    pub(crate) fn tell(&self, change: Change, events: &mut Vec<Event>) -> Result<(), NoMemory>
        ensures told { OnOk result (events.new.items ≡ events.old.items ++ map (event_of change) self.now) }
        ensures ascending { OnOk result (ascends self.now ≡ true) }
    {
        for key in self.held.iter() {
            events.push(change.of(Key(*key)))?;
        }
        Ok(())
    }
}
