//! Copies of the two tables of a host tree, entry by entry, in their order.

ghost use Rattle.std.specs.Prelude.{◌≡◌, IfOk};

use crate::keys::Shown;
use crate::linked::Linked;
use indexmap::IndexMap;
use lx_node::NoMemory;
use std::alloc::Global;

/// An equal table of hosts. It takes memory for each of them, with its text and its attributes.
pub fn copy_hosts(
    alloc: Global,
    table: &IndexMap<u32, Linked>,
) -> Result<IndexMap<u32, Linked>, NoMemory>
    ensures { IfOk result (λ made. made.entries ≡ table.now.entries) }
{
    let mut made = IndexMap::new(alloc);
    for (id, host) in table {
        made.insert(*id, host.copy(alloc)?)?;
    }
    Ok(made)
}

/// An equal table of the keys that hosts show.
pub fn copy_keys(
    alloc: Global,
    keys: &IndexMap<u32, Shown>,
) -> Result<IndexMap<u32, Shown>, NoMemory>
    ensures { IfOk result (λ made. made.entries ≡ keys.now.entries) }
{
    let mut made = IndexMap::new(alloc);
    for (key, shown) in keys {
        made.insert(*key, *shown)?;
    }
    Ok(made)
}
