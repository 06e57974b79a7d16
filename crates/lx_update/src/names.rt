use lx_node::{Key, NoMemory, Txt};
use std::alloc::Global;
use std::collections::BTreeMap;
use std::marker::Model;

/// The names that the steps of a script have given to nodes. Contracts see the map from each name to the node
/// that got it last.
#[derive(Drop)]
pub(crate) struct Names {
    alloc: Global,
    held: BTreeMap<String, Key>,
}

impl Model for Names {
    ghost use Rattle.std.specs.Coded.{coded_ℕ, coded_list};
    ghost use Rattle.std.specs.FinMap.{code, from_entries};
    ghost use Rattle.lx_update.specs.Naming.{Naming, as_texts};

    ghost Value = { Naming };

    ghost coded = { code (coded_list coded_ℕ) coded_ℕ };

    ghost view = { λ n. from_entries (as_texts n.held.entries) };
}

impl Names {
    ghost use Rattle.std.specs.Prelude.{◌≡◌, OnOk};
    ghost use Rattle.std.specs.FinMap as map;
    ghost use Rattle.lx_update.specs.Naming.{no_names};

    /// No name.
    pub(crate) fn new(alloc: Global) -> Names
        ensures { result ≡ no_names }
    {
        Names {
            alloc,
            held: BTreeMap::new(alloc),
        }
    }

    /// The node that got the name last.
    pub(crate) fn find(&self, name: &Txt) -> Option<Key>
        ensures { result ≡ map.get self.now name.now }
    {
        self.held.get(name.as_str()).copied()
    }

    /// Gives a node a name, which from then on is that of no other node. It takes memory for the name.
    pub(crate) fn bind(&mut self, name: &Txt, key: Key) -> Result<(), NoMemory>
        ensures { OnOk result (self.new ≡ map.insert self.old name.now key) }
    {
        let name = String::from_str(self.alloc, name.as_str())?;
        self.held.insert(name, key)?;
        Ok(())
    }
}
