//! Steps but for those that hold commands or other steps.

ghost use Rattle.std.specs.Prelude.{◌≡◌, IfOk, codes, option_map};
ghost use Rattle.serde_json.specs.Data.{null};
ghost use Rattle.serde_json.specs.View.{view, items_view};
ghost use Rattle.serde_json.specs.Find.{get};
ghost use Rattle.lx_script.specs.Patches.{patch_of as patch_of_data};
ghost use Rattle.lx_script.specs.Steps as steps;
ghost use Rattle.lx_fields.specs.Values as values;

use crate::members::truth_in;
use crate::new_nodes::{kind_with, new_fields};
use crate::patches::patch_of;
use crate::references::{member_reference, selection_of, two_references};
use crate::words::kind_of;
use lx_fields::{has_only, member_text, number_of, optional_text};
use lx_node::{Kind, NoMemory, Txt};
use lx_step::{Offsets, Patch, Reference, Step};
use serde_json::Value;
use std::alloc::Global;

pub(crate) fn append_of(alloc: Global, value: &Value) -> Result<Option<Step>, NoMemory>
    ensures { IfOk result (λ made. made ≡ steps.append_of (view value.now)) }
{
    if !has_only(&["append"], value) {
        return Ok(None);
    }
    match member_text(alloc, "append", value)? {
        Some(text) => Ok(Some(Step::Append(text))),
        None => Ok(None),
    }
}

fn index_in(value: &Value) -> Option<Option<u64>>
    ensures { result ≡ values.optional values.whole_of (codes "at") (view value.now) }
{
    match value.get("at") {
        Some(value) => match number_of(value) {
            Some(index) => Some(Some(index)),
            None => None,
        },
        None => Some(None),
    }
}

pub(crate) fn put_of(alloc: Global, value: &Value) -> Result<Option<Step>, NoMemory>
    ensures { IfOk result (λ made. made ≡ steps.put_of (view value.now)) }
{
    if !has_only(&["put", "into", "at"], value) {
        return Ok(None);
    }
    let index = index_in(value);
    let nodes = two_references(alloc, "put", "into", value)?;
    match nodes.zip(index) {
        Some(((node, into), index)) => Ok(Some(Step::Put { node, into, index })),
        None => Ok(None),
    }
}

pub(crate) fn replace_of(alloc: Global, value: &Value) -> Result<Option<Step>, NoMemory>
    ensures { IfOk result (λ made. made ≡ steps.replace_of (view value.now)) }
{
    if !has_only(&["replace", "with", "keep"], value) {
        return Ok(None);
    }
    let keep = truth_in("keep", value);
    let nodes = two_references(alloc, "replace", "with", value)?;
    match nodes.zip(keep) {
        Some(((node, with), keep)) => Ok(Some(Step::Replace { node, with, keep })),
        None => Ok(None),
    }
}

fn member_patch(alloc: Global, value: &Value) -> Result<Option<Patch>, NoMemory>
    ensures { IfOk result (λ made. option_map (λ patch. patch.members) made ≡ values.required patch_of_data (codes "fields") (view value.now)) }
{
    match value.get("fields") {
        Some(value) => patch_of(alloc, value),
        None => Ok(None),
    }
}

pub(crate) fn set_of(alloc: Global, value: &Value) -> Result<Option<Step>, NoMemory>
    ensures { IfOk result (λ made. made ≡ steps.set_of (view value.now)) }
{
    if !has_only(&["set", "fields"], value) {
        return Ok(None);
    }
    let node = member_reference(alloc, "set", value)?;
    let patch = member_patch(alloc, value)?;
    match node.zip(patch) {
        Some((node, patch)) => Ok(Some(Step::Set { node, patch })),
        None => Ok(None),
    }
}

/// A list of numbers.
fn offsets_of(alloc: Global, items: &[Value]) -> Result<Option<Offsets>, NoMemory>
    ensures { IfOk result (λ made. made ≡ values.all_of values.whole_of (items_view items.now)) }
{
    let mut made = Vec::with_capacity(alloc, items.len())?;
    'items: for item in items {
        match number_of(item) {
            Some(offset) => made.push(offset)?,
            None => return Ok(None),
        }
    }
    Ok(Some(Offsets::of(made)))
}

fn member_offsets(alloc: Global, value: &Value) -> Result<Option<Offsets>, NoMemory>
    ensures { IfOk result (λ made. made ≡ values.required (values.list_of values.whole_of) (codes "at") (view value.now)) }
{
    match value.get("at").and_then(Value::as_array) {
        Some(items) => offsets_of(alloc, items.as_slice()),
        None => Ok(None),
    }
}

pub(crate) fn split_of(alloc: Global, value: &Value) -> Result<Option<Step>, NoMemory>
    ensures { IfOk result (λ made. made ≡ steps.split_of (view value.now)) }
{
    if !has_only(&["split", "at", "as"], value) {
        return Ok(None);
    }
    let node = member_reference(alloc, "split", value)?;
    let offsets = member_offsets(alloc, value)?;
    let name = optional_text(alloc, "as", value)?;
    match node.zip(offsets).zip(name) {
        Some(((node, offsets), name)) => Ok(Some(Step::Split {
            node,
            offsets,
            name,
        })),
        None => Ok(None),
    }
}

pub(crate) fn select_of(alloc: Global, value: &Value) -> Result<Option<Step>, NoMemory>
    ensures { IfOk result (λ made. made ≡ steps.select_of (view value.now)) }
{
    if !has_only(&["select"], value) {
        return Ok(None);
    }
    let Some(selection) = value.get("select") else {
        return Ok(None);
    };
    match selection_of(alloc, selection)? {
        Some(selection) => Ok(Some(Step::Select(selection))),
        None => Ok(None),
    }
}

/// The node of a step that names one node.
pub(crate) fn one_of(
    alloc: Global,
    name: &str,
    value: &Value,
) -> Result<Option<Reference>, NoMemory>
    ensures { IfOk result (λ made. made ≡ steps.one_node name.now (view value.now)) }
{
    if !has_only(&[name], value) {
        return Ok(None);
    }
    member_reference(alloc, name, value)
}

/// The nodes of a step that names two nodes.
pub(crate) fn two_of(
    alloc: Global,
    first: &str,
    second: &str,
    value: &Value,
) -> Result<Option<(Reference, Reference)>, NoMemory>
    ensures { IfOk result (λ made. made ≡ steps.two_nodes first.now second.now (view value.now)) }
{
    if !has_only(&[first, second], value) {
        return Ok(None);
    }
    two_references(alloc, first, second, value)
}

/// The object of a new node's fields, or what stands for none.
pub(crate) fn fields_or<'v>(value: &'v Value, nothing: &'v Value) -> Option<&'v Value>
    requires { view nothing.now ≡ null }
    ensures { option_map (λ found. view found.now) result ≡ steps.fields_in (get (codes "fields") (view value.now)) }
{
    match value.get("fields") {
        Some(found) => {
            let is_object = found.is_object();
            if is_object { Some(found) } else { None }
        }
        None => Some(nothing),
    }
}

/// A step that makes a node of the kind.
fn new_step(
    alloc: Global,
    kind: Kind,
    object: &Value,
    name: Option<Txt>,
) -> Result<Option<Step>, NoMemory>
    ensures { IfOk result (λ made. made ≡ steps.new_in kind (view object.now) name) }
{
    match new_fields(alloc, kind, object)? {
        Some(fields) => Ok(Some(Step::New { kind, fields, name })),
        None => Ok(None),
    }
}

/// A step that makes a node of the type, whose fields the object gives.
fn new_with(
    alloc: Global,
    kind: Kind,
    object: &Value,
    value: &Value,
) -> Result<Option<Step>, NoMemory>
    ensures { IfOk result (λ made. made ≡ steps.new_with kind (view object.now) (values.optional values.string_of (codes "as") (view value.now))) }
{
    let Some(kind) = kind_with(kind, object) else {
        return Ok(None);
    };
    match optional_text(alloc, "as", value)? {
        Some(name) => new_step(alloc, kind, object, name),
        None => Ok(None),
    }
}

pub(crate) fn new_of(alloc: Global, value: &Value) -> Result<Option<Step>, NoMemory>
    ensures { IfOk result (λ made. made ≡ steps.new_of (view value.now)) }
{
    if !has_only(&["new", "fields", "as"], value) {
        return Ok(None);
    }
    let Some(kind) = value.get("new").and_then(kind_of) else {
        return Ok(None);
    };
    let nothing = Value::Null;
    match fields_or(value, &nothing) {
        Some(object) => new_with(alloc, kind, object, value),
        None => Ok(None),
    }
}
