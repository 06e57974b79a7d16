//! A document's value is read in document order: a node, and then its children.

ghost use Rattle.std.specs.Prelude.{◌≡◌, ◌<◌, Ok, None, Some, OnOk, IfOk, IfErr};
ghost use Rattle.serde_json.specs.View.{view, items_view};
ghost use Rattle.lx_draft.specs.Faults.{TellsStep};
ghost use Rattle.lx_json.specs.Reading.{and_then, tree_of, trees_of};
ghost use Rattle.lx_json.specs.Importing.{if_filled, root_in, document_of};
ghost use Rattle.lx_json.specs.Growing.{grown_by, children_told, rooted_by, IsGrowing};

use crate::growing::Growth;
use crate::pieces::{children_of, piece_of};
use crate::places::{bad_state, under, under_child};
use lx_node::{Cause, Fault, Key, Kind};
use serde_json::Value;
use std::alloc::Global;

/// Reads a node, with all below it, after the children of a parent of this kind.
#[cycle(read)]
fn read_node(
    alloc: Global,
    growth: &mut Growth,
    parent: Key,
    above: Kind,
    value: &Value,
) -> Result<(), Fault>
    requires growing { IsGrowing growth.old }
    requires below { parent < growth.old.next }
    ensures ok { OnOk result (grown_by parent (tree_of (view value.now) (Some above)) growth.old ≡ Ok growth.new) }
    ensures growing { OnOk result (IsGrowing growth.new) }
    ensures err { IfErr result (λ e. TellsStep e (tree_of (view value.now) (Some above))) }
{
    match piece_of(alloc, Some(above), value) {
        Ok(told) => match growth.add(parent, told.kind, told.fields) {
            Ok(key) => match read_children(alloc, growth, key, told.kind, value) {
                Ok(()) => Ok(()),
                Err(fault) => Err(fault),
            },
            Err(_) => Err(Fault::Memory),
        },
        Err(fault) => Err(fault),
    }
}

/// Reads the children that an object gives a node of the kind, after those that it has.
#[cycle(read)]
fn read_children(
    alloc: Global,
    growth: &mut Growth,
    parent: Key,
    kind: Kind,
    object: &Value,
) -> Result<(), Fault>
    requires growing { IsGrowing growth.old }
    requires below { parent < growth.old.next }
    ensures ok { OnOk result (grown_by parent (children_told kind (view object.now)) growth.old ≡ Ok growth.new) }
    ensures growing { OnOk result (IsGrowing growth.new) }
    ensures err { IfErr result (λ e. TellsStep e (children_told kind (view object.now))) }
{
    if !kind.is_element() {
        return Ok(());
    }
    match children_of(object) {
        Some(items) => match read_nodes(alloc, growth, parent, kind, items) {
            Ok(()) => Ok(()),
            Err(fault) => Err(fault),
        },
        None => Ok(()),
    }
}

/// Reads nodes, each with all below it, in their order after the children of a parent of this kind.
#[cycle(read)]
fn read_nodes(
    alloc: Global,
    growth: &mut Growth,
    parent: Key,
    kind: Kind,
    items: &[Value],
) -> Result<(), Fault>
    requires growing { IsGrowing growth.old }
    requires below { parent < growth.old.next }
    ensures ok { OnOk result (grown_by parent (trees_of (items_view items.now) 0 kind) growth.old ≡ Ok growth.new) }
    ensures growing { OnOk result (IsGrowing growth.new) }
    ensures err { IfErr result (λ e. TellsStep e (trees_of (items_view items.now) 0 kind)) }
{
    for (index, child) in items.iter().enumerate() {
        match read_node(alloc, growth, parent, kind, child) {
            Ok(()) => {}
            Err(fault) => return Err(under_child(alloc, index, fault)),
        }
    }
    Ok(())
}

/// Reads the root, with all below it. It has to have children.
fn read_root(alloc: Global, value: &Value, next_key: u32) -> Result<Growth, Fault>
    requires { 0 < next_key }
    ensures ok { IfOk result (λ growth. rooted_by next_key (and_then (tree_of (view value.now) None) if_filled) ≡ Ok growth) }
    ensures growing { IfOk result (IsGrowing) }
    ensures err { IfErr result (λ e. TellsStep e (and_then (tree_of (view value.now) None) if_filled)) }
{
    if !value.is_object() {
        return Err(bad_state(alloc, ""));
    }
    let told = match piece_of(alloc, None, value) {
        Ok(told) => told,
        Err(fault) => return Err(fault),
    };
    let mut growth = Growth::new(alloc, told.fields, next_key)?;
    match read_children(alloc, &mut growth, Key::root(), Kind::Root, value) {
        Ok(()) => {}
        Err(fault) => return Err(fault),
    }
    if growth.next == next_key {
        return Err(Fault::Cause(Cause::EmptyState));
    }
    Ok(growth)
}

/// Reads a document, whose root gets the key 0 and its other nodes keys from `next_key` on.
#[tactic(auto, unfolding(crate::specs::Importing::document_of))]
pub(crate) fn read_document(alloc: Global, document: &Value, next_key: u32) -> Result<Growth, Fault>
    requires { 0 < next_key }
    ensures ok { IfOk result (λ growth. rooted_by next_key (document_of (view document.now)) ≡ Ok growth) }
    ensures growing { IfOk result (IsGrowing) }
    ensures err { IfErr result (λ e. TellsStep e (document_of (view document.now))) }
{
    if !document.is_object() {
        return Err(bad_state(alloc, ""));
    }
    match document.get("root") {
        Some(root) => match read_root(alloc, root, next_key) {
            Ok(growth) => Ok(growth),
            Err(fault) => Err(under(alloc, "/root", fault)),
        },
        None => Err(bad_state(alloc, "/root")),
    }
}
