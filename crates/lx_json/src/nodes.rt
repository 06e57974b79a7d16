//! Nodes that are read into a draft, each made as soon as its members are read.

ghost use Rattle.std.specs.Prelude.{◌≡◌, ◌≢◌, ◌++◌, ◌∷◌, [], Ok, None, Some, OnOk, IfOk, IfErr, chars};
ghost use Rattle.serde_json.specs.View.{view, items_view};
ghost use Rattle.lx_node.specs.OfKind.{IsOfKind};
ghost use Rattle.lx_node.specs.declared.kind.Kind.TheVariants.{Root};
ghost use Rattle.lx_draft.specs.Faults.{TellsStep};
ghost use Rattle.lx_json.specs.Nodes as spec;

use crate::pieces::{Told, children_of, piece_of};
use crate::places::{bad_state, under, under_child, under_index};
use lx_draft::Draft;
use lx_node::{Fault, Key, Kind, NoMemory};
use serde_json::Value;
use std::alloc::Global;

/// Puts a node after the children of a parent, where there is one.
fn put_below(draft: &mut Draft, parent: Option<Key>, key: Key) -> Result<(), Fault>
    ensures ok { OnOk result (spec.put_below parent key draft.old ≡ Ok draft.new) }
    ensures err { IfErr result (λ e. TellsStep e (spec.put_below parent key draft.old)) }
{
    match parent {
        Some(parent) => {
            let size = draft.links().size(parent);
            draft.put(key, parent, size)
        }
        None => Ok(()),
    }
}

/// Makes a node from what was read of it, after the children of a parent where there is one, and answers its key.
fn make(draft: &mut Draft, parent: Option<Key>, told: Told) -> Result<Key, Fault>
    requires other { told.kind ≢ Root }
    requires of_kind { IsOfKind told.kind told.fields }
    ensures ok { OnOk result (spec.node_new (record { kind = told.kind; fields = told.fields }) parent draft.old ≡ Ok draft.new) }
    ensures key { IfOk result (λ key. key ≡ draft.old.next_key) }
    ensures err { IfErr result (λ e. TellsStep e (spec.node_new (record { kind = told.kind; fields = told.fields }) parent draft.old)) }
{
    let key = draft.new_node(told.kind, told.fields)?;
    put_below(draft, parent, key)?;
    Ok(key)
}

/// Makes the node that a value is below one of this kind, with all below it, and answers its key. It goes after the
/// children of a parent, where there is one.
#[cycle(make)]
fn make_node(
    alloc: Global,
    draft: &mut Draft,
    parent: Option<Key>,
    above: Kind,
    value: &Value,
) -> Result<Key, Fault>
    ensures ok { OnOk result (spec.node_made (view value.now) above parent draft.old ≡ Ok draft.new) }
    ensures key { IfOk result (λ key. key ≡ draft.old.next_key) }
    ensures err { IfErr result (λ e. TellsStep e (spec.node_made (view value.now) above parent draft.old)) }
{
    let told = match piece_of(alloc, Some(above), value) {
        Ok(told) => told,
        Err(fault) => return Err(fault),
    };
    let kind = told.kind;
    let key = match make(draft, parent, told) {
        Ok(key) => key,
        Err(fault) => return Err(fault),
    };
    match make_children(alloc, draft, key, kind, value) {
        Ok(()) => Ok(key),
        Err(fault) => Err(fault),
    }
}

/// Makes the children that an object gives a node of the kind.
#[cycle(make)]
fn make_children(
    alloc: Global,
    draft: &mut Draft,
    parent: Key,
    kind: Kind,
    object: &Value,
) -> Result<(), Fault>
    ensures ok { OnOk result (spec.children_given kind parent (view object.now) draft.old ≡ Ok draft.new) }
    ensures err { IfErr result (λ e. TellsStep e (spec.children_given kind parent (view object.now) draft.old)) }
{
    if !kind.is_element() {
        return Ok(());
    }
    match children_of(object) {
        Some(items) => match make_each(alloc, draft, parent, kind, items) {
            Ok(()) => Ok(()),
            Err(fault) => Err(fault),
        },
        None => Ok(()),
    }
}

/// Makes nodes, each with all below it, in their order after the children of a parent of this kind.
#[cycle(make)]
fn make_each(
    alloc: Global,
    draft: &mut Draft,
    parent: Key,
    kind: Kind,
    items: &[Value],
) -> Result<(), Fault>
    ensures ok { OnOk result (spec.items_made (items_view items.now) 0 kind parent draft.old ≡ Ok draft.new) }
    ensures err { IfErr result (λ e. TellsStep e (spec.items_made (items_view items.now) 0 kind parent draft.old)) }
{
    for (index, child) in items.iter().enumerate() {
        match make_node(alloc, draft, Some(parent), kind, child) {
            Ok(_) => {}
            Err(fault) => return Err(under_child(alloc, index, fault)),
        }
    }
    Ok(())
}

/// Keeps a key.
fn keep_key(keys: &mut Vec<Key>, key: Key) -> Result<(), NoMemory>
    ensures { OnOk result (keys.new.items ≡ keys.old.items ++ key ∷ []) }
{
    keys.push(key)?;
    Ok(())
}

/// Makes nodes, each with all below it, that are below nothing, and answers their keys.
fn make_apart(
    alloc: Global,
    draft: &mut Draft,
    items: &[Value],
    kind: Kind,
) -> Result<Vec<Key>, Fault>
    ensures ok { IfOk result (λ keys. spec.nodes_made (items_view items.now) 0 kind draft.old ≡ Ok (record { draft = draft.new; keys = keys.items })) }
    ensures err { IfErr result (λ e. TellsStep e (spec.nodes_made (items_view items.now) 0 kind draft.old)) }
{
    let mut keys = Vec::new(alloc);
    for (index, item) in items.iter().enumerate() {
        match make_node(alloc, draft, None, kind, item) {
            Ok(key) => keep_key(&mut keys, key)?,
            Err(fault) => return Err(under_index(alloc, index, fault)),
        }
    }
    Ok(keys)
}

/// Reads a list of nodes, each with all below it, as the children of a node of the kind, and answers their keys. They
/// are below nothing, and get keys in preorder from the next one on. A node is made as soon as its members are read. It
/// is refused as a document is, at the first thing that isn't as it has to be, with `place` in front of the place of
/// that; and as the edits of a draft are. A draft on which it was refused is only fit to be dropped.
#[tactic(auto, unfolding(crate::specs::Nodes::nodes_read))]
pub fn read_nodes(
    alloc: Global,
    draft: &mut Draft,
    list: &Value,
    kind: Kind,
    place: &str,
) -> Result<Vec<Key>, Fault>
    ensures ok { IfOk result (λ keys. spec.nodes_read (chars place.now) (view list.now) kind draft.old ≡ Ok (record { draft = draft.new; keys = keys.items })) }
    ensures err { IfErr result (λ e. TellsStep e (spec.nodes_read (chars place.now) (view list.now) kind draft.old)) }
{
    match list.as_array() {
        Some(items) => match make_apart(alloc, draft, items, kind) {
            Ok(keys) => Ok(keys),
            Err(fault) => Err(under(alloc, place, fault)),
        },
        None => Err(bad_state(alloc, place)),
    }
}
