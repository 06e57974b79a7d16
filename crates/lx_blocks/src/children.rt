//! The children of a node from one of them on.

ghost use Rattle.std.specs.Prelude.{◌≡◌, IfOk, drop};
ghost use Rattle.lx_forest.specs.Lookups as lookups;

use lx_links::Links;
use lx_node::{Key, NoMemory};
use std::alloc::Global;

/// The children of a node from an index on. Those before are passed from the nearer end, and aren't copied.
pub fn children_from(
    alloc: Global,
    links: &Links,
    key: Key,
    index: u32,
) -> Result<Vec<Key>, NoMemory>
    ensures { IfOk result (λ keys. keys.items ≡ drop index (lookups.children_of links.now key)) }
{
    let mut keys = Vec::new(alloc);
    let mut at = links.child_at(key, index);
    while let Some(child) = at {
        keys.push(child)?;
        at = links.next(child);
    }
    Ok(keys)
}
