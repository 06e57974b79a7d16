//! The operations that change what a host shows of a node itself: its attributes, its text and its ending.

ghost use Rattle.std.specs.Prelude.{◌≡◌, ◌↔◌, ◌++◌, ◌∷◌, ◌+◌, ◌≤◌, [], ℕ, Bool, List, true, drop, IsTrue, OnOk, None, Some};
ghost use Rattle.lx_host.specs.declared.op.Op.TheVariants.{Attr};
ghost use Rattle.lx_host.specs.declared.tag.Tag.{Tag};
ghost use Rattle.lx_host.specs.Words.{names_rise};
ghost use Rattle.lx_host.specs.Hosts.{Face, with_ending};
ghost use Rattle.lx_forest.specs.Lookups.{has};
ghost use Rattle.lx_forest.specs.Views.{kind_at};
ghost use Rattle.lx_render.specs.Render as shown;
ghost use Rattle.lx_reconcile.specs.Looking.{Stays};
ghost use Rattle.lx_reconcile.specs.Changing.{next_order, Writes, Changes, shown_face};

use crate::creation::read_kind;
use crate::looks::Look;
use lx_host::{Name, Op};
use lx_node::{Fields, NoMemory, Node, TextFields, Txt};
use lx_render::{describe, needs_break};
use std::alloc::Global;
use std::cmp::Ordering;

/// Which of the next attributes of two lists comes first, where there is any left. Where one list has none, it is the
/// other one's.
fn order_at(old: &[(Name, Txt)], i: usize, new: &[(Name, Txt)], j: usize) -> Option<Ordering>
    ensures { result ≡ next_order (drop i old.now) (drop j new.now) }
{
    if i < old.len() {
        if j < new.len() {
            Some(old[i].0.word().cmp(new[j].0.word()))
        } else {
            Some(Ordering::Less)
        }
    } else if j < new.len() {
        Some(Ordering::Greater)
    } else {
        None
    }
}

/// Adds the operation that takes a host's attribute of that name away.
fn push_away(host: u32, attribute: &(Name, Txt), ops: &mut Vec<Op>) -> Result<(), NoMemory>
    ensures { OnOk result (ops.new.items ≡ ops.old.items ++ Attr host attribute.now.0 None ∷ []) }
{
    ops.push(Op::Attr {
        id: host,
        name: attribute.0,
        value: None,
    })?;
    Ok(())
}

/// Adds the operation that gives a host this attribute.
fn push_given(
    alloc: Global,
    host: u32,
    attribute: &(Name, Txt),
    ops: &mut Vec<Op>,
) -> Result<(), NoMemory>
    ensures { OnOk result (ops.new.items ≡ ops.old.items ++ Attr host attribute.now.0 (Some attribute.now.1) ∷ []) }
{
    let value = attribute.1.copy(alloc)?;
    ops.push(Op::Attr {
        id: host,
        name: attribute.0,
        value: Some(value),
    })?;
    Ok(())
}

/// Whether two attributes are equal.
fn are_equal(old: &(Name, Txt), new: &(Name, Txt)) -> bool
    ensures { result ≡ true ↔ (old.now ≡ new.now) }
{
    old.0 == new.0 && old.1.is_equal(&new.1)
}

/// Adds the operations that make a host's attributes, which are the first of these lists, the second. Both are in
/// byte order of the names, and so do the operations.
fn push_attributes(
    alloc: Global,
    host: u32,
    old: &[(Name, Txt)],
    new: &[(Name, Txt)],
    ops: &mut Vec<Op>,
) -> Result<(), NoMemory>
    requires old { names_rise old.now ≡ true }
    requires new { names_rise new.now ≡ true }
    ensures { OnOk result (Writes host old.now new.now ops.old.items ops.new.items) }
{
    let mut i = 0;
    let mut j = 0;
    while let Some(order) = order_at(old, i, new, j) {
        match order {
            Ordering::Less => {
                push_away(host, &old[i], ops)?;
                i += 1;
            }
            Ordering::Greater => {
                push_given(alloc, host, &new[j], ops)?;
                j += 1;
            }
            Ordering::Equal => {
                if !are_equal(&old[i], &new[j]) {
                    push_given(alloc, host, &new[j], ops)?;
                }
                i += 1;
                j += 1;
            }
        }
    }
    Ok(())
}

/// Adds the operation that makes a host's text, which is the first, the second, where they differ. A text that is there
/// stays one, since no operation takes it away.
fn push_text(
    host: u32,
    old: Option<Txt>,
    new: Option<Txt>,
    ops: &mut Vec<Op>,
) -> Result<(), NoMemory>
    requires stays { new ≡ None → old ≡ None }
    ensures { OnOk result ((key : ℕ) (tag : Tag) (attrs : List (Name × List ℕ)) (ending : Bool) → Changes host (record { key = key; tag = tag; attrs = attrs; text = old; ending = ending }) (record { key = key; tag = tag; attrs = attrs; text = new; ending = ending }) ops.old.items ops.new.items) }
{
    match (old, new) {
        (None, None) => Ok(()),
        (Some(_), None) => unreachable!(),
        (None, Some(new)) => {
            ops.push(Op::Text {
                id: host,
                text: new,
            })?;
            Ok(())
        }
        (Some(old), Some(new)) => {
            if old.is_equal(&new) {
                return Ok(());
            }
            ops.push(Op::Text {
                id: host,
                text: new,
            })?;
            Ok(())
        }
    }
}

/// Adds the operation that makes a host's text another, where they differ. Nothing is copied where they don't.
fn push_other_text(
    alloc: Global,
    host: u32,
    old: &Txt,
    new: &Txt,
    ops: &mut Vec<Op>,
) -> Result<(), NoMemory>
    ensures { OnOk result ((key : ℕ) (tag : Tag) (attrs : List (Name × List ℕ)) (ending : Bool) → Changes host (record { key = key; tag = tag; attrs = attrs; text = Some old.now; ending = ending }) (record { key = key; tag = tag; attrs = attrs; text = Some new.now; ending = ending }) ops.old.items ops.new.items) }
{
    if old.is_equal(new) {
        return Ok(());
    }
    ops.push(Op::Text {
        id: host,
        text: new.copy(alloc)?,
    })?;
    Ok(())
}

/// Whether two texts show the same attributes: they have one format and one style.
fn show_alike(old: &TextFields, new: &TextFields) -> bool
    ensures { IsTrue result → shown.text_attributes old.now ≡ shown.text_attributes new.now }
{
    old.format == new.format && old.style.is_equal(&new.style)
}

/// Whether a node has the kind and the fields that it had.
fn is_same(was: &Node, now: &Node) -> bool
    ensures { result ≡ true ↔ (was.now.kind ≡ now.now.kind) × (was.now.fields ≡ now.now.fields) }
{
    was.kind == now.kind && was.fields.is_equal(&now.fields)
}

/// Adds the operations that make the host of a node, which shows its attributes and text as they were, show them as
/// they are. A text stays one. Where neither the kind nor the fields differ, or only what a text says, it makes no
/// description.
pub(crate) fn push_face(
    alloc: Global,
    host: u32,
    was: &Node,
    now: &Node,
    ops: &mut Vec<Op>,
) -> Result<(), NoMemory>
    requires stays { shown.text_of now.now.fields ≡ None → shown.text_of was.now.fields ≡ None }
    ensures none { OnOk result (was.now.kind ≡ now.now.kind → was.now.fields ≡ now.now.fields → ops.new.items ≡ ops.old.items) }
    ensures face { OnOk result ((key : ℕ) (tag : Tag) (ending : Bool) → Changes host (shown_face key tag was.now.kind was.now.fields ending) (shown_face key tag now.now.kind now.now.fields ending) ops.old.items ops.new.items) }
{
    if is_same(was, now) {
        return Ok(());
    }
    if let (Fields::Text(old), Fields::Text(new)) = (&was.fields, &now.fields)
        && show_alike(old, new)
    {
        return push_other_text(alloc, host, &old.text, &new.text, ops);
    }
    let old = describe(alloc, was)?;
    let new = describe(alloc, now)?;
    push_attributes(alloc, host, old.attrs.items(), new.attrs.items(), ops)?;
    push_text(host, old.text, new.text, ops)
}

/// Adds the operation that has a line break end a host or none, where that differs.
pub(crate) fn push_ending(
    host: u32,
    old: bool,
    new: bool,
    ops: &mut Vec<Op>,
) -> Result<(), NoMemory>
    ensures none { OnOk result (old ≡ new → ops.new.items ≡ ops.old.items) }
    ensures ending { OnOk result ((face : Face) → face.ending ≡ old → Changes host face (with_ending new face) ops.old.items ops.new.items) }
{
    if old == new {
        return Ok(());
    }
    ops.push(Op::Break {
        id: host,
        ending: new,
    })?;
    Ok(())
}

/// Whether a line break ends this node. It reads its last child.
pub(crate) fn is_ended<S, L: Look<S>>(source: &mut S, node: &Node) -> bool
    requires there { (k : ℕ) → node.now.last ≡ Some k → has k (L.forest source.old) ≡ true }
    ensures ended { result ≡ shown.needs_break node.now.kind (kind_at (L.forest source.old) node.now.last) }
    ensures same { L.forest source.new ≡ L.forest source.old }
    ensures backing { Stays (L.backing source.old) (L.backing source.new) }
    ensures reads { L.count source.new ≤ L.count source.old + 1 }
{
    let last = read_kind::<S, L>(source, node.last);
    needs_break(node.kind, last)
}
