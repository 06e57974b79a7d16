ghost use Rattle.std.specs.Prelude.{◌≡◌};
ghost use Rattle.std.specs.Iterator.{YieldsFirst, YieldsLast, item_count};
ghost use Rattle.lx_forest.specs.Lookups as lookups;

use crate::links::Links;
use lx_node::Key;
use std::marker::Model;

/// The children of a node, from both ends. Contracts see the list of those that are left.
#[derive(Drop)]
pub struct Children<'a> {
    links: &'a Links,
    parent: Key,
    /// How many have been passed from the front, and how many are left.
    passed: u32,
    left: u32,
    /// The first that is left, and the last.
    front: Option<Key>,
    back: Option<Key>,
}

impl<'a> Model for Children<'a> {
    ghost use Rattle.std.specs.Prelude.{List, ℕ, take, drop};
    ghost use Rattle.lx_forest.specs.Lookups.{children_of};
    ghost use Rattle.lx_links.specs.Children.{IsAmid};

    ghost Value = { List ℕ };

    ghost view = { λ c. take c.left (drop c.passed (children_of c.links.now c.parent)) };

    ghost invariant = { λ c. IsAmid c.links.now c.parent c.passed c.left c.front c.back };
}

impl Links {
    ghost use Rattle.lx_links.specs.Stands.{Sound};

    /// The keys of the node's children: none where there is no such node.
    pub fn children(&self, key: Key) -> Children<'_>
        ensures children { result ≡ lookups.children_of self.now key }
        ensures sound { Sound self.now }
    {
        Children {
            links: self,
            parent: key,
            passed: 0,
            left: self.size(key),
            front: self.first(key),
            back: self.last(key),
        }
    }
}

impl<'a> Iterator for Children<'a> {
    type Item = Key;

    ghost next_gives = { YieldsFirst (λ left. left) };

    ghost remaining = { item_count (λ left. left) };

    fn next(&mut self) -> Option<Key> {
        if self.left == 0 {
            return None;
        }
        let key = self.front?;
        let links = self.links;
        self.front = links.next(key);
        self.passed += 1;
        self.left -= 1;
        Some(key)
    }
}

impl<'a> DoubleEndedIterator for Children<'a> {
    ghost next_back_gives = { YieldsLast (λ left. left) };

    fn next_back(&mut self) -> Option<Key> {
        if self.left == 0 {
            return None;
        }
        let key = self.back?;
        let links = self.links;
        self.back = links.previous(key);
        self.left -= 1;
        Some(key)
    }
}
