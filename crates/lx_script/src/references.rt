//! How lines name nodes, points and selections.

ghost use Rattle.std.specs.Prelude.{◌≡◌, IfOk, codes, option_map, option_and_then};
ghost use Rattle.std.specs.Option.{option_zip};
ghost use Rattle.serde_json.specs.View.{view, items_view};
ghost use Rattle.lx_fields.specs.Values as values;
ghost use Rattle.lx_script.specs.References as references;

use crate::words::point_kind_of;
use lx_fields::{has_only, long_within, short_within};
use lx_node::{Key, NoMemory, Txt};
use lx_step::{PointRef, Reference, References, SelectionRef};
use serde_json::Value;
use std::alloc::Global;

/// The node that a string names.
fn named_node(alloc: Global, text: &str) -> Result<Reference, NoMemory>
    ensures { IfOk result (λ made. made ≡ references.named_node text.now) }
{
    if text == "@anchor" {
        return Ok(Reference::Anchor);
    }
    if text == "@focus" {
        return Ok(Reference::Focus);
    }
    if text == "@block" {
        return Ok(Reference::Block);
    }
    Ok(Reference::Name(Txt::new(alloc, text)?))
}

/// A node, by its key or by a string.
pub(crate) fn reference_of(alloc: Global, value: &Value) -> Result<Option<Reference>, NoMemory>
    ensures { IfOk result (λ made. made ≡ references.reference_of (view value.now)) }
{
    if let Some(number) = long_within(u32::MAX, value) {
        return Ok(Some(Reference::Key(Key(number))));
    }
    match value.as_str() {
        Some(text) => Ok(Some(named_node(alloc, text)?)),
        None => Ok(None),
    }
}

/// A node, where there is a value.
fn reference_in(alloc: Global, value: Option<&Value>) -> Result<Option<Reference>, NoMemory>
    ensures { IfOk result (λ made. made ≡ option_and_then references.reference_of (option_map (λ found. view found.now) value.entry)) }
{
    match value {
        Some(value) => reference_of(alloc, value),
        None => Ok(None),
    }
}

/// The node that a member names.
pub(crate) fn member_reference(
    alloc: Global,
    name: &str,
    value: &Value,
) -> Result<Option<Reference>, NoMemory>
    ensures { IfOk result (λ made. made ≡ values.required references.reference_of name.now (view value.now)) }
{
    reference_in(alloc, value.get(name))
}

/// The nodes that two members name.
pub(crate) fn two_references(
    alloc: Global,
    first: &str,
    second: &str,
    value: &Value,
) -> Result<Option<(Reference, Reference)>, NoMemory>
    ensures { IfOk result (λ made. made ≡ option_zip (values.required references.reference_of first.now (view value.now)) (values.required references.reference_of second.now (view value.now))) }
{
    let one = member_reference(alloc, first, value)?;
    let two = member_reference(alloc, second, value)?;
    Ok(one.zip(two))
}

/// Whether it is a list of three items.
pub(crate) fn has_three(value: &Value) -> bool
    ensures { result ≡ references.has_three (view value.now) }
{
    match value.as_array() {
        Some(items) => items.len() == 3,
        None => false,
    }
}

/// A node, and an offset in it.
fn point_of(alloc: Global, value: &Value) -> Result<Option<PointRef>, NoMemory>
    ensures { IfOk result (λ made. made ≡ references.point_of (view value.now)) }
{
    if !has_three(value) {
        return Ok(None);
    }
    let offset = value.get(1usize).and_then(Value::as_u64);
    let kind = value.get(2usize).and_then(point_kind_of);
    let node = reference_in(alloc, value.get(0usize))?;
    match node.zip(offset).zip(kind) {
        Some(((node, offset), kind)) => Ok(Some(PointRef { node, offset, kind })),
        None => Ok(None),
    }
}

/// The point that a member names.
fn member_point(alloc: Global, name: &str, value: &Value) -> Result<Option<PointRef>, NoMemory>
    ensures { IfOk result (λ made. made ≡ values.required references.point_of name.now (view value.now)) }
{
    match value.get(name) {
        Some(value) => point_of(alloc, value),
        None => Ok(None),
    }
}

/// A format that may be missing, from 0 to 65,535.
fn optional_format(value: &Value) -> Option<Option<u16>>
    ensures { result ≡ values.optional (values.number_within 0 65535) (codes "format") (view value.now) }
{
    match value.get("format") {
        Some(value) => match short_within(0, u16::MAX, value) {
            Some(format) => Some(Some(format)),
            None => None,
        },
        None => Some(None),
    }
}

/// The nodes that each item of a list names.
fn references_of(alloc: Global, items: &[Value]) -> Result<Option<References>, NoMemory>
    ensures { IfOk result (λ made. made ≡ values.all_of references.reference_of (items_view items.now)) }
{
    let mut made = Vec::with_capacity(alloc, items.len())?;
    'items: for item in items {
        match reference_of(alloc, item)? {
            Some(reference) => made.push(reference)?,
            None => return Ok(None),
        }
    }
    Ok(Some(References::of(made)))
}

/// A selection of nodes.
fn nodes_of(alloc: Global, value: &Value) -> Result<Option<SelectionRef>, NoMemory>
    ensures { IfOk result (λ made. made ≡ references.nodes_of (view value.now)) }
{
    if !has_only(&["keys"], value) {
        return Ok(None);
    }
    let Some(items) = value.get("keys").and_then(Value::as_array) else {
        return Ok(None);
    };
    match references_of(alloc, items.as_slice())? {
        Some(nodes) => Ok(Some(SelectionRef::Nodes(nodes))),
        None => Ok(None),
    }
}

/// A range.
fn range_of(alloc: Global, value: &Value) -> Result<Option<SelectionRef>, NoMemory>
    ensures { IfOk result (λ made. made ≡ references.range_of (view value.now)) }
{
    if !has_only(&["anchor", "focus", "format"], value) {
        return Ok(None);
    }
    let format = optional_format(value);
    let anchor = member_point(alloc, "anchor", value)?;
    let focus = member_point(alloc, "focus", value)?;
    match anchor.zip(focus).zip(format) {
        Some(((anchor, focus), format)) => Ok(Some(SelectionRef::Range {
            anchor,
            focus,
            format,
        })),
        None => Ok(None),
    }
}

/// Cells of a table.
fn cells_of(alloc: Global, value: &Value) -> Result<Option<SelectionRef>, NoMemory>
    ensures { IfOk result (λ made. made ≡ references.cells_of (view value.now)) }
{
    if !has_only(&["anchor", "focus", "table"], value) {
        return Ok(None);
    }
    let table = member_reference(alloc, "table", value)?;
    match table.zip(two_references(alloc, "anchor", "focus", value)?) {
        Some((table, (anchor, focus))) => Ok(Some(SelectionRef::Cells {
            table,
            anchor,
            focus,
        })),
        None => Ok(None),
    }
}

/// What is to be selected: nothing, nodes, cells or a range.
#[tactic(auto, unfolding(crate::specs::References::selection_of))]
pub(crate) fn selection_of(alloc: Global, value: &Value) -> Result<Option<SelectionRef>, NoMemory>
    ensures { IfOk result (λ made. made ≡ references.selection_of (view value.now)) }
{
    if value.is_null() {
        return Ok(Some(SelectionRef::Nothing));
    }
    if let Some(nodes) = nodes_of(alloc, value)? {
        return Ok(Some(nodes));
    }
    if let Some(cells) = cells_of(alloc, value)? {
        return Ok(Some(cells));
    }
    range_of(alloc, value)
}
