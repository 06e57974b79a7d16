//! The way up from a node.

ghost use Rattle.std.specs.Prelude.{◌≡◌, ◌∷◌};
ghost use Rattle.std.specs.Iterator.{YieldsFirst, item_count};
ghost use Rattle.lx_forest.specs.Lookups as lookups;

use lx_links::Links;
use lx_node::Key;
use std::marker::Model;

/// A node and those above it, the nearest first. Contracts see the list of those that are left.
#[derive(Drop)]
pub struct WayUp<'a> {
    links: &'a Links,
    at: Option<Key>,
}

impl<'a> Model for WayUp<'a> {
    ghost use Rattle.std.specs.Prelude.{List, ℕ};
    ghost use Rattle.lx_blocks.specs.Walks.{upward_from};

    ghost Value = { List ℕ };

    ghost view = { λ way. upward_from way.links.now way.at };
}

/// A node and those above it, the nearest first.
pub fn upward(links: &Links, key: Key) -> WayUp<'_>
    ensures { result ≡ key ∷ lookups.ancestors links.now key }
{
    WayUp {
        links,
        at: Some(key),
    }
}

impl<'a> Iterator for WayUp<'a> {
    type Item = Key;

    ghost next_gives = { YieldsFirst (λ left. left) };

    ghost remaining = { item_count (λ left. left) };

    #[tactic(auto, using(crate::proofs::Up::upward_on))]
    fn next(&mut self) -> Option<Key> {
        let key = self.at?;
        let links = self.links;
        self.at = links.parent(key);
        Some(key)
    }
}
