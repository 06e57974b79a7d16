ghost use Rattle.std.specs.Prelude.{◌≡◌};
ghost use Rattle.lx_links.specs.Faults as faults;

use crate::links::Links;
use lx_node::{Cause, Key, Kind, Named};

/// A parent of the one kind may not hold a child of the other. Where one of the two isn't there, nothing is
/// wrong.
pub fn misfit(outer: Option<Kind>, inner: Option<Kind>) -> Option<Cause>
    ensures { result ≡ faults.misfit outer inner }
{
    let outer = outer?;
    let inner = inner?;
    if outer.may_hold(inner) {
        None
    } else {
        Some(Cause::WrongKind(inner))
    }
}

impl Links {
    ghost use Rattle.std.specs.Prelude.{◌==◌, ◌||◌, is_some};
    ghost use Rattle.lx_trees.specs.Siblings.{is_among};
    ghost use Rattle.lx_forest.specs.Lookups as lookups;

    /// Why a place isn't one for the key, the first cause: one of the nodes isn't there, the parent may not
    /// hold it, it can't go there, or the child that it is to come before isn't one of the parent's.
    pub(crate) fn place_fault(&self, parent: Key, before: &Option<Key>, key: Key) -> Option<Cause>
        ensures { result ≡ faults.place_fault parent before.now key self.now }
    {
        if let Some(cause) = self.missing(parent) {
            return Some(cause);
        }
        if let Some(cause) = self.missing_before(before) {
            return Some(cause);
        }
        if let Some(cause) = self.missing(key) {
            return Some(cause);
        }
        if let Some(cause) = misfit(self.kind(parent), self.kind(key)) {
            return Some(cause);
        }
        if let Some(cause) = self.bound(parent, key) {
            return Some(cause);
        }
        self.no_child(parent, before)
    }

    /// There is no node of the key.
    pub fn missing(&self, key: Key) -> Option<Cause>
        ensures { result ≡ faults.unknown self.now key }
    {
        if self.has(key) {
            None
        } else {
            Some(Cause::UnknownNode(Named::Key(key)))
        }
    }

    /// It is below nothing.
    pub fn not_below(&self, key: Key) -> Option<Cause>
        ensures { result ≡ faults.not_below self.now key }
    {
        if self.parent(key).is_some() {
            None
        } else {
            Some(Cause::BadPlace(key.number() as u64))
        }
    }

    /// It can't go below the parent: it is the root, or is below a node already, or the parent is in its
    /// tree.
    pub fn bound(&self, parent: Key, key: Key) -> Option<Cause>
        ensures { result ≡ faults.bound_to self.now parent key }
    {
        if self.is_bound(parent, key) {
            Some(Cause::BadPlace(key.number() as u64))
        } else {
            None
        }
    }

    fn missing_before(&self, before: &Option<Key>) -> Option<Cause>
        ensures { result ≡ faults.unknown_before self.now before.now }
    {
        match before {
            Some(before) => self.missing(*before),
            None => None,
        }
    }

    /// It is the root, or is below a node, or the parent is in its tree.
    fn is_bound(&self, parent: Key, key: Key) -> bool
        ensures { result ≡ (key == 0 || (is_some (lookups.parent_of self.now key) || lookups.is_within self.now key parent)) }
    {
        key == Key::root() || self.parent(key).is_some() || self.is_within(key, parent)
    }

    /// Whether the key is a child of the parent.
    fn is_child(&self, parent: Key, key: Key) -> bool
        ensures { result ≡ is_among key (lookups.children_of self.now parent) }
    {
        match self.parent(key) {
            Some(above) => parent == above,
            None => false,
        }
    }

    /// What it is to come before isn't a child of the parent.
    fn no_child(&self, parent: Key, before: &Option<Key>) -> Option<Cause>
        ensures { result ≡ faults.no_child self.now parent before.now }
    {
        match before {
            Some(before) => {
                if self.is_child(parent, *before) {
                    None
                } else {
                    Some(Cause::BadPlace(before.number() as u64))
                }
            }
            None => None,
        }
    }
}
