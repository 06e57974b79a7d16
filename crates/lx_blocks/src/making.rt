//! New nodes like others.

ghost use Rattle.std.specs.Prelude.{◌≡◌, ◌≢◌, Some, true, IfOk, IfSome, IfNone, None};
ghost use Rattle.lx_node.specs.OfKind.{IsOfKind};
ghost use Rattle.lx_node.specs.declared.kind.Kind.TheVariants.{Root};
ghost use Rattle.lx_forest.specs.Lookups as lookups;
ghost use Rattle.lx_edit.specs.Standing.{Does};
ghost use Rattle.lx_blocks.specs.Making as making;

use lx_draft::Draft;
use lx_links::Links;
use lx_node::{Fault, Key, Node};
use std::alloc::Global;

/// The node of a key, where there is one. Its fields are of its kind.
pub fn node_at(links: &Links, key: Key) -> Option<&Node>
    ensures label { IfSome result (λ node. lookups.label_of links.now key ≡ Some (record { key = key; kind = node.now.kind; fields = node.now.fields })) }
    ensures suited { IfSome result (λ node. IsOfKind node.now.kind node.now.fields) }
    ensures none { IfNone result (lookups.label_of links.now key ≡ None) }
{
    links.node(key)
}

/// Makes a node with the kind and the fields of another, without children and placed nowhere yet, and answers its key.
/// It is refused as `Draft::new_node` is.
pub fn make_like(alloc: Global, draft: &mut Draft, key: Key) -> Result<Key, Fault>
    requires there { lookups.has key draft.old.forest ≡ true }
    requires other { lookups.kind_of draft.old.forest key ≢ Some Root }
    ensures does { Does (making.new_like (lookups.label_of draft.old.forest key) draft.old) draft.new result }
    ensures key { IfOk result (λ new. new ≡ draft.old.next_key) }
{
    match node_at(draft.links(), key) {
        Some(node) => {
            let kind = node.kind;
            let fields = node.fields.copy(alloc)?;
            draft.new_node(kind, fields)
        }
        None => unreachable!(),
    }
}
