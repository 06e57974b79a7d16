//! Hosts that are taken away, with the keys that they showed: a tree from its leaves up, in no memory.

ghost use Rattle.std.specs.Prelude.{◌≡◌, ◌≢◌, ◌≤◌, [], Some, true};
ghost use Rattle.indexmap.specs.IndexMap.{spare};
ghost use Rattle.lx_host.specs.Hosts.{id_of, has, without};
ghost use Rattle.lx_trees.specs.Lookups as lookups;
ghost use Rattle.lx_host.specs.Weights.{AreKeyed};

use crate::grove::Grove;
use crate::keys::{Shown, take_shown};
use indexmap::IndexMap;

/// Takes a host away that has no child. The rooms stay.
pub fn remove_leaf(grove: &mut Grove, keys: &mut IndexMap<u32, Shown>, id: u32)
    requires other { id ≢ 0 }
    requires leaf { lookups.children_of id_of grove.old.hosts id ≡ [] }
    requires keyed { AreKeyed keys.old grove.old.hosts }
    ensures taken { grove.new.hosts ≡ without id grove.old.hosts }
    ensures keyed { AreKeyed keys.new grove.new.hosts }
    ensures room { grove.old.room ≤ grove.new.room }
    ensures keys_room { spare keys.old ≤ spare keys.new }
{
    let key = grove.key(id);
    grove.take_leaf(id);
    if let Some(key) = key {
        take_shown(keys, key.number(), id);
    }
}

/// Takes a host away, with all below it. The rooms stay.
pub fn remove_tree(grove: &mut Grove, keys: &mut IndexMap<u32, Shown>, id: u32)
    requires other { id ≢ 0 }
    requires there { has id grove.old.hosts ≡ true }
    requires keyed { AreKeyed keys.old grove.old.hosts }
    ensures taken { grove.new.hosts ≡ without id grove.old.hosts }
    ensures keyed { AreKeyed keys.new grove.new.hosts }
    ensures room { grove.old.room ≤ grove.new.room }
    ensures keys_room { spare keys.old ≤ spare keys.new }
{
    let mut at = grove.leaf_below(id);
    while at != id {
        let Some(parent) = grove.parent(at) else {
            return;
        };
        remove_leaf(grove, keys, at);
        at = grove.leaf_below(parent);
    }
    remove_leaf(grove, keys, id);
}
