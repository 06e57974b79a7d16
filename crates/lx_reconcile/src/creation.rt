//! The operations that make hosts for a node and for all below it.

ghost use Rattle.lx_node.specs.Limits.{last_u32};
ghost use Rattle.std.specs.Prelude.{◌≡◌, ◌+◌, ◌*◌, ◌≤◌, ◌++◌, ◌∷◌, [], ℕ, true, None, Some, option_map, IfOk, OnOk};
ghost use Rattle.lx_trees.specs.NamedTrees.{total};
ghost use Rattle.lx_host.specs.declared.op.Op.TheVariants.{Place};
ghost use Rattle.lx_forest.specs.Lookups.{alone, trees_of, children_of, first_child, next_of, has};
ghost use Rattle.lx_forest.specs.Records.{record_at};
ghost use Rattle.lx_forest.specs.Views.{kind_at};
ghost use Rattle.lx_links.specs.Stands.{node_of, Sound};
ghost use Rattle.lx_reconcile.specs.Looking.{Stays};
ghost use Rattle.lx_reconcile.specs.Created.{create_op, creations, creation_of};

use crate::looks::{Look, Looked};
use lx_host::Op;
use lx_node::{Key, Kind, NoMemory, Node};
use lx_render::{describe, needs_break};
use std::alloc::Global;

/// The kind of the node of the key, where one is given and there is one. It reads that node.
pub(crate) fn read_kind<S, L: Look<S>>(source: &mut S, key: Option<Key>) -> Option<Kind>
    requires there { (k : ℕ) → key ≡ Some k → has k (L.forest source.old) ≡ true }
    ensures kind { result ≡ kind_at (L.forest source.old) key }
    ensures same { L.forest source.new ≡ L.forest source.old }
    ensures backing { Stays (L.backing source.old) (L.backing source.new) }
    ensures reads { L.count source.new ≤ L.count source.old + 1 }
{
    let found = L::look(source, key?)?;
    Some(found.node().kind)
}

/// Adds the operation that makes a node's host, with this id. It reads the node's last child.
fn create_host<S, L: Look<S>>(
    alloc: Global,
    source: &mut S,
    key: Key,
    node: &Node,
    id: u32,
    ops: &mut Vec<Op>,
) -> Result<(), NoMemory>
    requires there { (k : ℕ) → node.now.last ≡ Some k → has k (L.forest source.old) ≡ true }
    ensures ops { OnOk result (ops.new.items ≡ ops.old.items ++ create_op id (record { key = key; kind = node.now.kind; fields = node.now.fields }) (kind_at (L.forest source.old) node.now.last) ∷ []) }
    ensures same { L.forest source.new ≡ L.forest source.old }
    ensures backing { Stays (L.backing source.old) (L.backing source.new) }
    ensures reads { L.count source.new ≤ L.count source.old + 1 }
{
    let last = read_kind::<S, L>(source, node.last);
    let shape = describe(alloc, node)?;
    ops.push(Op::Create {
        id,
        key,
        tag: shape.tag,
        attrs: shape.attrs,
        text: shape.text,
        ending: needs_break(node.kind, last),
    })?;
    Ok(())
}

/// Adds the operations that make the hosts of a node, which was read, and of all below it, with ids that go
/// on from this one. The node's own host isn't placed. Gives the next id. Without memory some of them may
/// have been added.
#[cycle(creation)]
pub fn create_tree<S, L: Look<S>>(
    alloc: Global,
    source: &mut S,
    key: Key,
    node: &Node,
    id: u32,
    ops: &mut Vec<Op>,
) -> Result<u32, NoMemory>
    requires sound { Sound (L.forest source.old) }
    requires read { Some node.now ≡ option_map node_of (record_at (L.forest source.old) key) }
    requires room { id + total (alone key (L.forest source.old)) ≤ last_u32 }
    ensures ops { OnOk result (ops.new.items ≡ ops.old.items ++ creation_of id (alone key (L.forest source.old))) }
    ensures next { IfOk result (λ next. next ≡ id + total (alone key (L.forest source.old))) }
    ensures same { L.forest source.new ≡ L.forest source.old }
    ensures backing { Stays (L.backing source.old) (L.backing source.new) }
    ensures reads { L.count source.new + 1 ≤ L.count source.old + 2 * total (alone key (L.forest source.old)) }
{
    create_host::<S, L>(alloc, source, key, node, id, ops)?;
    create_children::<S, L>(alloc, source, key, node.first, id, ops)
}

/// Adds the operations that make the hosts of a node's children, of which this is the first, and of all
/// below them, at the end of this host's children. Their ids go on from the host's. Gives the next id.
/// Without memory some of them may have been added.
#[cycle(creation)]
pub fn create_children<S, L: Look<S>>(
    alloc: Global,
    source: &mut S,
    key: Key,
    first: Option<Key>,
    host: u32,
    ops: &mut Vec<Op>,
) -> Result<u32, NoMemory>
    requires sound { Sound (L.forest source.old) }
    requires first { first ≡ first_child (L.forest source.old) key }
    requires room { host + 1 + total (trees_of (L.forest source.old) (children_of (L.forest source.old) key)) ≤ last_u32 }
    ensures ops { OnOk result (ops.new.items ≡ ops.old.items ++ creations host (host + 1) (trees_of (L.forest source.old) (children_of (L.forest source.old) key))) }
    ensures next { IfOk result (λ next. next ≡ host + 1 + total (trees_of (L.forest source.old) (children_of (L.forest source.old) key))) }
    ensures same { L.forest source.new ≡ L.forest source.old }
    ensures backing { Stays (L.backing source.old) (L.backing source.new) }
    ensures reads { L.count source.new ≤ L.count source.old + 2 * total (trees_of (L.forest source.old) (children_of (L.forest source.old) key)) }
{
    let mut at = first;
    let mut id = host + 1;
    while let Some(child) = at {
        match create_child::<S, L>(alloc, source, child, host, id, ops) {
            Ok((next_id, next)) => {
                id = next_id;
                at = next;
            }
            Err(error) => return Err(error),
        }
    }
    Ok(id)
}

/// The same for one child. Gives the next id, and the next child.
#[cycle(creation)]
fn create_child<S, L: Look<S>>(
    alloc: Global,
    source: &mut S,
    key: Key,
    host: u32,
    id: u32,
    ops: &mut Vec<Op>,
) -> Result<(u32, Option<Key>), NoMemory>
    requires sound { Sound (L.forest source.old) }
    requires there { has key (L.forest source.old) ≡ true }
    requires room { id + total (alone key (L.forest source.old)) ≤ last_u32 }
    ensures ops { OnOk result (ops.new.items ≡ ops.old.items ++ creation_of id (alone key (L.forest source.old)) ++ Place host id None ∷ []) }
    ensures next_id { IfOk result (λ next. next.0 ≡ id + total (alone key (L.forest source.old))) }
    ensures next { IfOk result (λ next. next.1 ≡ next_of (L.forest source.old) key) }
    ensures same { L.forest source.new ≡ L.forest source.old }
    ensures backing { Stays (L.backing source.old) (L.backing source.new) }
    ensures reads { L.count source.new ≤ L.count source.old + 2 * total (alone key (L.forest source.old)) }
{
    let Some(found) = L::look(source, key) else {
        unreachable!();
    };
    let node = found.node();
    let next = create_tree::<S, L>(alloc, source, key, node, id, ops)?;
    ops.push(Op::Place {
        parent: host,
        child: id,
        before: None,
    })?;
    Ok((next, node.next))
}
