//! The marked nodes that a view shows, by the host above theirs.

ghost use Rattle.std.specs.Prelude.{◌≡◌, ◌+◌, ◌<◌, ◌^◌, ℕ, nat_eq, Some, if◌then◌else◌, IfOk, OnOk};
ghost use Rattle.indexmap.specs.IndexMap.{get};
ghost use Rattle.lx_reconcile.specs.Allowing.{marking};
ghost use Rattle.lx_reconcile.specs.Families as families;
ghost use Rattle.lx_reconcile.specs.Families.{with_child, marked_keys, AreFamilies};

use indexmap::IndexMap;
use lx_host::HostTree;
use lx_marks::Marks;
use lx_node::{Key, NoMemory};
use std::alloc::Global;

/// Of the marked nodes whose hosts are right below one host: one of them, and how many they are.
#[derive(Clone, Copy, Drop)]
pub(crate) struct Family {
    pub(crate) child: Key,
    pub(crate) size: usize,
}

/// Whether a node carries any mark.
pub(crate) fn is_noted(marks: &Marks, key: Key) -> bool
    ensures { result ≡ (marking marks.now).noted key }
{
    marks.has_leaf(key) || marks.element(key).is_some()
}

/// Whether a node is marked itself.
pub(crate) fn is_touched(marks: &Marks, key: Key) -> bool
    ensures { result ≡ (marking marks.now).touched key }
{
    if marks.has_leaf(key) {
        return true;
    }
    match marks.element(key) {
        Some(flag) => flag,
        None => false,
    }
}

/// The host right above the one that shows a node, where there are both.
fn host_above(hosts: &HostTree, key: Key) -> Option<u32>
    ensures { result ≡ families.host_above hosts.now.tree key }
{
    hosts.parent(hosts.host_of(key)?)
}

/// One more marked node has its host right below that one.
fn add_child(families: &mut IndexMap<u32, Family>, host: u32, key: Key) -> Result<(), NoMemory>
    requires small { (family : Family) → get nat_eq families.old host ≡ Some family → family.size + 1 < 2 ^ 64 }
    ensures each { OnOk result ((q : ℕ) → get nat_eq families.new q ≡ (if nat_eq host q then Some (with_child key (get nat_eq families.old host)) else get nat_eq families.old q)) }
{
    if let Some(family) = families.get_mut(&host) {
        family.size += 1;
        return Ok(());
    }
    families.insert(
        host,
        Family {
            child: key,
            size: 1,
        },
    )?;
    Ok(())
}

ghost use Rattle.lx_reconcile.specs.declared.family.Family.{Family};

/// The families of the marked nodes, by the hosts above theirs. It looks at each of them once.
pub(crate) fn families_of(
    alloc: Global,
    marks: &Marks,
    hosts: &HostTree,
) -> Result<IndexMap<u32, Family>, NoMemory>
    ensures families { IfOk result (λ made. AreFamilies hosts.now.tree (marked_keys marks.now) made) }
{
    let keys = marks.keys()?;
    let mut made = IndexMap::new(alloc);
    for key in keys.as_slice() {
        if let Some(host) = host_above(hosts, *key) {
            add_child(&mut made, host, *key)?;
        }
    }
    Ok(made)
}
