//! A slice put into a draft at the caret.

ghost use Rattle.std.specs.Prelude.{◌≡◌, ℕ, Ok, OnOk, IfOk, IfErr, chars};
ghost use Rattle.serde_json.specs.View.{view, items_view};
ghost use Rattle.lx_node.specs.declared.cause.Cause.TheVariants.{BadCommand};
ghost use Rattle.lx_node.specs.declared.cause.Fault.TheVariants as fault;
ghost use Rattle.lx_draft.specs.Faults.{TellsStep};
ghost use Rattle.lx_edit.specs.Standing.{Does};
ghost use Rattle.lx_caret.specs.Lying.{IsLying};
ghost use Rattle.lx_clip.specs.Pasting as pasting;
ghost use Rattle.lx_clip.specs.Pasting.{insert_step, paste_step};

use crate::adding::add_nodes;
use crate::blocks::add_blocks;
use lx_blocks::ready;
use lx_caret::{anchored, remove_text};
use lx_draft::Draft;
use lx_fields::kind_of_type;
use lx_json::read_nodes;
use lx_node::{Cause, Fault, Key, Kind, Point};
use lx_value::{Room, Unread, read_value};
use serde_json::Value;
use std::alloc::Global;

fn bad_command() -> Fault
    ensures { result ≡ fault.Cause BadCommand }
{
    Fault::Cause(Cause::BadCommand)
}

// ---- nodes

/// Whether a value's type is that of an inline.
fn has_inline_type(node: &Value) -> bool
    ensures { result ≡ pasting.has_inline_type (view node.now) }
{
    match node.get("type") {
        Some(told) => match told.as_str() {
            Some(text) => match kind_of_type(text) {
                Some(kind) => kind.is_inline(),
                None => false,
            },
            None => false,
        },
        None => false,
    }
}

/// Whether the first node's type is that of an inline.
fn begins_inline(nodes: &[Value]) -> bool
    ensures { result ≡ pasting.begins_inline (items_view nodes.now) }
{
    match nodes {
        [first, ..] => has_inline_type(first),
        [] => false,
    }
}

/// What the nodes are read as the children of.
fn holder(inline: bool) -> Kind
    ensures { result ≡ pasting.holder inline }
{
    if inline { Kind::Paragraph } else { Kind::Root }
}

/// Puts inlines or blocks at a point.
fn place_at(
    alloc: Global,
    draft: &mut Draft,
    inline: bool,
    keys: &[Key],
    point: &Point,
) -> Result<(), Fault>
    ensures { (format : ℕ) → Does (pasting.placed_at inline keys.now point.now format draft.old) draft.new result }
{
    if inline {
        add_nodes(alloc, draft, keys, point)
    } else {
        add_blocks(alloc, draft, keys, point)
    }
}

/// Puts inlines or blocks at the caret.
fn place(alloc: Global, draft: &mut Draft, inline: bool, keys: &[Key]) -> Result<(), Fault>
    ensures { Does (pasting.placed inline keys.now draft.old) draft.new result }
{
    if keys.is_empty() {
        return Ok(());
    }
    let range = anchored(draft)?;
    place_at(alloc, draft, inline, keys, &range.anchor)
}

// ---- slices

/// Makes the nodes of a list, and puts them at the caret.
#[tactic(auto, using(crate::proofs::Telling::chars_nodes))]
fn insert_list(alloc: Global, draft: &mut Draft, list: &Value, inline: bool) -> Result<(), Fault>
    ensures ok { OnOk result (pasting.list_inserted inline (view list.now) draft.old ≡ Ok draft.new) }
    ensures err { IfErr result (λ e. TellsStep e (pasting.list_inserted inline (view list.now) draft.old)) }
{
    let keys = read_nodes(alloc, draft, list, holder(inline), "/nodes")?;
    place(alloc, draft, inline, &keys)
}

/// Puts the nodes of a slice at the caret.
#[tactic(auto, unfolding(crate::specs::Pasting::insert_step))]
fn put_slice(alloc: Global, draft: &mut Draft, slice: &Value) -> Result<(), Fault>
    ensures ok { OnOk result (insert_step (view slice.now) draft.old ≡ Ok draft.new) }
    ensures err { IfErr result (λ e. TellsStep e (insert_step (view slice.now) draft.old)) }
{
    let Some(nodes) = slice.get("nodes") else {
        return Err(bad_command());
    };
    match nodes.as_array() {
        Some(items) => insert_list(alloc, draft, nodes, begins_inline(items)),
        None => Err(bad_command()),
    }
}

/// Puts the nodes of a slice into a draft at the caret, and the caret to the end of the last. A slice is an object with a list of
/// nodes, which are read as those of a document: as the children of a paragraph where the first is an inline by its type, and as
/// those of the root otherwise. Inlines go where the caret is; blocks between the parts of the block that holds the caret, where
/// that is below the root or a table cell, and else after what holds it there. With no nodes nothing happens.
///
/// It is refused with `BadCommand` where the value is no such object; with `BadState` and the place in the slice, or
/// `UnknownType`, as a document is; with `WrongKind` and the kind of what may not hold one of the nodes; and as the edits of a
/// draft are. The nodes are made before anything is parted.
pub fn insert(alloc: Global, draft: &mut Draft, slice: &Value) -> Result<(), Fault>
    ensures ok { OnOk result (insert_step (view slice.now) draft.old ≡ Ok draft.new) }
    ensures lying { OnOk result (IsLying draft.old → IsLying draft.new) }
    ensures err { IfErr result (λ e. TellsStep e (insert_step (view slice.now) draft.old)) }
{
    ready(draft)?;
    put_slice(alloc, draft, slice)
}

/// The JSON value that a text is.
fn value_of(alloc: Global, text: &str) -> Result<Value, Fault>
    ensures ok { IfOk result (λ value. pasting.json_of (chars text.now) ≡ Ok (view value)) }
    ensures err { IfErr result (λ e. TellsStep e (pasting.json_of (chars text.now))) }
{
    let Ok(mut room) = Room::new(alloc) else {
        return Err(Fault::Memory);
    };
    match read_value(alloc, text.as_bytes(), &mut room) {
        Ok(value) => Ok(value),
        Err(Unread::NoJson) => Err(bad_command()),
        Err(Unread::Memory) => Err(Fault::Memory),
    }
}

/// Puts the slice of a text in the place of what is selected.
#[tactic(auto, unfolding(crate::specs::Pasting::paste_step))]
fn put_text(alloc: Global, draft: &mut Draft, text: &str) -> Result<(), Fault>
    ensures ok { OnOk result (paste_step (chars text.now) draft.old ≡ Ok draft.new) }
    ensures err { IfErr result (λ e. TellsStep e (paste_step (chars text.now) draft.old)) }
{
    remove_text(alloc, draft)?;
    let slice = value_of(alloc, text)?;
    insert(alloc, draft, &slice)
}

/// Puts the slice of a text, which is the JSON of one, in the place of what is selected, as `remove_text` removes it. It
/// is refused as that is, as `insert` is, and with `BadCommand` where the text is no JSON.
pub fn paste(alloc: Global, draft: &mut Draft, text: &str) -> Result<(), Fault>
    ensures ok { OnOk result (paste_step (chars text.now) draft.old ≡ Ok draft.new) }
    ensures lying { OnOk result (IsLying draft.new) }
    ensures err { IfErr result (λ e. TellsStep e (paste_step (chars text.now) draft.old)) }
{
    ready(draft)?;
    put_text(alloc, draft, text)
}
