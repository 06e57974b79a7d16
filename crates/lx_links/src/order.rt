use crate::links::Links;
use lx_node::Key;
use std::cmp::Ordering;

impl Links {
    ghost use Rattle.std.specs.Prelude.{◌≡◌, ◌≢◌, ◌-◌, true, length, unwrap_or, Some};
    ghost use Rattle.lx_forest.specs.Lookups as lookups;
    ghost use Rattle.lx_links.specs.Stands.{Sound};
    ghost use Rattle.lx_links.specs.Parted.{same_named, IsLevel, IsParted};

    /// Which of the two comes first in the root's tree, each node before those below it and those before its
    /// next siblings. It walks the ways up from both to where they meet, and the siblings there.
    pub fn order_of(&self, a: Key, b: Key) -> Option<Ordering>
        ensures order { result ≡ lookups.order_of self.now a b }
        ensures sound { Sound self.now }
    {
        let Some(above_a) = self.depth(a) else {
            return None;
        };
        let Some(above_b) = self.depth(b) else {
            return None;
        };
        let x = self.raised(a, above_a.saturating_sub(above_b));
        let y = self.raised(b, above_b.saturating_sub(above_a));
        if x == y {
            return Some(above_a.cmp(&above_b));
        }
        let (x, y) = self.parted(x, y);
        self.order_of_siblings(x, y)
    }

    /// The key so many steps up, or the last on the way.
    fn raised(&self, key: Key, steps: u32) -> Key
        ensures within { lookups.is_within self.now result key ≡ lookups.has key self.now }
        ensures above { length (lookups.ancestors self.now result) ≡ length (lookups.ancestors self.now key) - steps }
        ensures same { steps ≡ 0 → result ≡ key }
        ensures attached { lookups.is_attached self.now result ≡ lookups.is_attached self.now key }
    {
        let mut at = key;
        let mut left = steps;
        while left > 0 {
            at = self.above(at);
            left -= 1;
        }
        at
    }

    /// The parent, or the key itself where it has none.
    fn above(&self, key: Key) -> Key
        ensures above { result ≡ unwrap_or (lookups.parent_of self.now key) key }
        ensures sound { Sound self.now }
    {
        match self.parent(key) {
            Some(parent) => parent,
            None => key,
        }
    }

    /// Whether both are below one parent, or both below none.
    fn are_siblings(&self, x: Key, y: Key) -> bool
        ensures { result ≡ same_named (lookups.parent_of self.now x) (lookups.parent_of self.now y) }
    {
        match self.parent(x) {
            Some(above_x) => match self.parent(y) {
                Some(above_y) => above_x == above_y,
                None => false,
            },
            None => self.parent(y).is_none(),
        }
    }

    /// The two nodes above these, or these themselves, that are siblings.
    fn parted(&self, a: Key, b: Key) -> (Key, Key)
        requires { IsLevel self.now a b }
        ensures { IsParted self.now a b result.0 result.1 }
    {
        let mut x = a;
        let mut y = b;
        while !self.are_siblings(x, y) {
            x = self.above(x);
            y = self.above(y);
        }
        (x, y)
    }

    /// Which of two siblings comes first.
    fn order_of_siblings(&self, x: Key, y: Key) -> Option<Ordering>
        ensures { result ≡ lookups.order_between (lookups.index_of self.now x) (lookups.index_of self.now y) }
    {
        let Some(before_x) = self.index_of(x) else {
            return None;
        };
        let Some(before_y) = self.index_of(y) else {
            return None;
        };
        Some(before_x.cmp(&before_y))
    }
}
