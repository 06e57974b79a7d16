//! A view made from nothing.

ghost use Rattle.std.specs.Prelude.{◌≡◌, ◌≢◌, ◌++◌, IfOk, OnOk};
ghost use Rattle.lx_trees.specs.Trees.{nil};
ghost use Rattle.lx_trees.specs.NamedTrees.{total};
ghost use Rattle.lx_forest.specs.Lookups.{alone};
ghost use Rattle.lx_links.specs.Stands.{Sound};
ghost use Rattle.lx_host.specs.Branches.{IsRooted};
ghost use Rattle.lx_reconcile.specs.Allowed.{Shows};
ghost use Rattle.lx_render.specs.Render.{attributes_of, text_of};
ghost use Rattle.lx_reconcile.specs.Created.{attribute_ops, text_ops, fresh_ops};

use crate::creation::create_children;
use crate::looks::Reads;
use lx_draft::State;
use lx_host::{Attrs, HostTree, Op};
use lx_links::{Counted, Links};
use lx_node::{Key, NoMemory, Node, Txt};
use lx_render::describe;
use std::alloc::Global;

/// The view made from nothing: a host tree that shows the root's tree of the state, and nothing else. It
/// gives as many ids as that tree has nodes. Links that have failed have no root, and are out of memory.
pub fn fresh(alloc: Global, state: &State) -> Result<HostTree, NoMemory>
    ensures shows { IfOk result (λ view. Shows view.tree (alone 0 state.now.links)) }
    ensures rooted { IfOk result (λ view. IsRooted view.tree.hosts) }
    ensures next { IfOk result (λ view. view.tree.next ≡ total (alone 0 state.now.links)) }
    ensures living { OnOk result (state.now.links ≢ nil) }
{
    let ops = operations(alloc, &state.links)?;
    let mut view = HostTree::new(alloc)?;
    view.reserve(&ops)?;
    view.apply(ops);
    Ok(view)
}

/// The operations that make a new host tree show the root's tree.
fn operations(alloc: Global, links: &Links) -> Result<Vec<Op>, NoMemory>
    ensures ops { IfOk result (λ ops. ops.items ≡ fresh_ops (alone 0 links.now)) }
    ensures living { OnOk result (links.now ≢ nil) }
    ensures sound { Sound links.now }
{
    let key = Key::root();
    let Some(root) = links.node(key) else {
        return Err(NoMemory);
    };
    let mut ops = Vec::new(alloc);
    push_root(alloc, root, &mut ops)?;
    let mut source = Counted::new(links);
    create_children::<_, Reads<'_>>(alloc, &mut source, key, root.first, 0, &mut ops)?;
    Ok(ops)
}

/// Adds the operations that make host 0 show this node, where it has no attributes and no text.
fn push_root(alloc: Global, root: &Node, ops: &mut Vec<Op>) -> Result<(), NoMemory>
    ensures { OnOk result (ops.new.items ≡ ops.old.items ++ attribute_ops 0 (attributes_of root.now.kind root.now.fields) ++ text_ops 0 (text_of root.now.fields)) }
{
    let shape = describe(alloc, root)?;
    push_attributes(shape.attrs, ops)?;
    push_text(shape.text, ops)
}

/// Adds the operations that give host 0 these attributes.
fn push_attributes(attrs: Attrs, ops: &mut Vec<Op>) -> Result<(), NoMemory>
    ensures { OnOk result (ops.new.items ≡ ops.old.items ++ attribute_ops 0 attrs) }
{
    for (name, value) in attrs.into_vec() {
        ops.push(Op::Attr {
            id: 0,
            name,
            value: Some(value),
        })?;
    }
    Ok(())
}

/// Adds the operation that gives host 0 this text, if there is one.
fn push_text(text: Option<Txt>, ops: &mut Vec<Op>) -> Result<(), NoMemory>
    ensures { OnOk result (ops.new.items ≡ ops.old.items ++ text_ops 0 text) }
{
    if let Some(text) = text {
        ops.push(Op::Text { id: 0, text })?;
    }
    Ok(())
}
