ghost use Rattle.std.specs.Prelude.{◌≡◌, ℕ, option_map};
ghost use Rattle.std.specs.Option.{option_copied};
ghost use Rattle.lx_store.specs.Counts.{next_count};
ghost use Rattle.lx_forest.specs.Forest.{Forest};
ghost use Rattle.lx_forest.specs.Records.{record_at};
ghost use Rattle.lx_links.specs.Stands.{node_of, Sound};

use crate::links::Links;
use lx_node::{Key, Node};
use std::marker::Model;

/// A reader of a forest's nodes that counts what it reads. A node borrows from what is read and not from the
/// reader, so several can be held at once.
pub trait Records<'a> {
    /// The forest that is read.
    ghost forest: { Self → Forest };

    /// How often it has been read.
    ghost count: { Self → ℕ };

    /// The node of the key, where the forest has one. It counts the call, up to 2^64 - 1.
    fn read(&mut self, key: Key) -> Option<&'a Node>
        ensures found { option_copied result ≡ option_map node_of (record_at (forest self.old) key) }
        ensures same { forest self.new ≡ forest self.old }
        ensures counted { count self.new ≡ next_count (count self.old) }
        ensures sound { Sound (forest self.old) };
}

/// A reader of links.
#[derive(Drop)]
pub struct Counted<'a> {
    links: &'a Links,
    reads: u64,
}

impl<'a> Model for Counted<'a> {
    ghost use Rattle.std.specs.Coded.{codes};
    ghost use Rattle.lx_trees.specs.Trees.{trees_code};
    ghost use Rattle.lx_links.specs.Reader.{Reader};

    ghost Value = { Reader };

    ghost coded = { Prim.hlevel (codes, trees_code) };

    ghost view = { λ c. record { forest = c.links.now; count = c.reads } };
}

impl<'a> Counted<'a> {
    /// A reader of these links that hasn't read yet.
    pub fn new(links: &'a Links) -> Counted<'a>
        ensures forest { result.forest ≡ links.now }
        ensures count { result.count ≡ 0 }
    {
        Counted { links, reads: 0 }
    }

    /// How often it has read. The number stands still at 2^64 - 1.
    pub fn reads(&self) -> u64
        ensures { result ≡ self.now.count }
    {
        self.reads
    }
}

impl<'a> Records<'a> for Counted<'a> {
    ghost forest = { λ c. c.forest };

    ghost count = { λ c. c.count };

    fn read(&mut self, key: Key) -> Option<&'a Node> {
        self.reads = self.reads.saturating_add(1);
        let links = self.links;
        links.node(key)
    }
}
