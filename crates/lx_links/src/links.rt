ghost use Rattle.lx_links.specs.Stands.{Standing, Standing-prop};

use crate::changes::put_node;
use crate::nodes::lone_node;
use crate::sums::Sums;
use lx_node::{Fields, Key, Kind, NoMemory, Node};
use lx_store::{Copies, Store};
use std::alloc::Global;
use std::marker::Model;

/// Nodes that stand for a forest. Links that ran out of memory in a call that changes them, or were made
/// to fail, have failed: they have no nodes, not even a root, and each call that can want memory wants it.
pub struct Links {
    pub(crate) alloc: Global,
    /// The nodes, or none where the links have failed.
    pub(crate) held: Option<Store<Node>>,
    /// The sums of all nodes, where there are any.
    pub(crate) sums: Sums,
    ghost stands: { Standing held } by { Standing-prop held },
}

// Written out, so that who drops one calls this: how each part is dropped is proved here alone.
impl Drop for Links {
    fn drop(self) {
        let Links {
            alloc: _,
            held,
            sums: _,
        } = self;
        drop(held);
    }
}

impl Model for Links {
    ghost use Rattle.std.specs.Coded.{codes};
    ghost use Rattle.lx_trees.specs.Trees.{trees_code};
    ghost use Rattle.lx_forest.specs.Forest.{Forest};

    ghost Value = { Forest };

    ghost coded = { Prim.hlevel (codes, trees_code) };

    ghost use Rattle.lx_links.specs.Stands.{forest_in};
    ghost use Rattle.lx_links.specs.Sums.{AreCounted};

    ghost view = { λ s. forest_in s.held s.stands };

    ghost invariant = { λ s. AreCounted s.sums (forest_in s.held s.stands) };
}

impl Links {
    ghost use Rattle.std.specs.Prelude.{◌≡◌, ◌≢◌, false, option_map, IsTrue, IfOk, OnOk, OnErr};
    ghost use Rattle.lx_trees.specs.Trees.{nil};
    ghost use Rattle.lx_forest.specs.Forest.{root_alone};
    ghost use Rattle.std.specs.Option.{option_copied};
    ghost use Rattle.lx_forest.specs.Records.{record_at};
    ghost use Rattle.lx_links.specs.Stands.{node_of, node_at, Sound};
    ghost use Rattle.lx_store.specs.Differing.{first_after, AreSameTo};

    /// Links of the root alone.
    pub fn new(alloc: Global) -> Result<Links, NoMemory>
        ensures { IfOk result (λ made. made ≡ root_alone) }
    {
        let mut store = Store::new(alloc)?;
        let fields = Fields::plain_element(alloc);
        put_node(&mut store, Key::root(), lone_node(Kind::Root, fields))?;
        Ok(Links {
            alloc,
            held: Some(store),
            sums: Sums {
                characters: 0,
                items: 0,
                item_characters: 0,
            },
        })
    }

    /// Equal links. What is done to either of the two afterwards leaves the other as it was.
    pub fn fork(&self) -> Result<Links, NoMemory>
        ensures equal { IfOk result (λ made. made ≡ self.now) }
        ensures living { OnOk result (self.now ≢ nil) }
        ensures sound { Sound self.now }
    {
        match &self.held {
            Some(store) => {
                let mut copies = Copies::new();
                let fork = store.fork(&mut copies)?;
                Ok(Links {
                    alloc: self.alloc,
                    held: Some(fork),
                    sums: self.sums,
                })
            }
            None => Err(NoMemory),
        }
    }

    /// Makes the links failed: from then on they have no nodes, not even a root. It wants no memory.
    pub fn fail(&mut self)
        ensures { self.new ≡ nil }
    {
        self.held = None;
    }

    /// Whether the links have failed, so that they have no nodes.
    pub fn has_failed(&self) -> bool
        ensures failed { IsTrue result → self.now ≡ nil }
        ensures living { result ≡ false → self.now ≢ nil }
        ensures sound { Sound self.now }
    {
        match &self.held {
            Some(_) => false,
            None => true,
        }
    }

    /// Whether the links haven't failed.
    pub(crate) fn living(&self) -> Result<(), NoMemory>
        ensures living { OnOk result (self.now ≢ nil) }
        ensures failed { OnErr result (self.now ≡ nil) }
    {
        match &self.held {
            Some(_) => Ok(()),
            None => Err(NoMemory),
        }
    }

    /// The node of a key, where there is one.
    pub fn node(&self, key: Key) -> Option<&Node>
        ensures node { option_copied result ≡ option_map node_of (record_at self.now key) }
        ensures sound { Sound self.now }
    {
        match &self.held {
            Some(store) => store.get(key),
            None => None,
        }
    }

    /// The first key after one, or the first of all, under which two links have other nodes: before it, and
    /// everywhere after that one where no key is answered, the two have equal nodes or none. Neither has failed.
    pub fn next_difference(&self, other: &Links, after: Option<Key>) -> Option<Key>
        requires living { self.now ≢ nil }
        requires other_living { other.now ≢ nil }
        ensures { AreSameTo (node_at self.now) (node_at other.now) (first_after after) result }
    {
        let Some(nodes) = &self.held else {
            return None;
        };
        let Some(others) = &other.held else {
            return None;
        };
        nodes.next_difference(others, after)
    }
}
