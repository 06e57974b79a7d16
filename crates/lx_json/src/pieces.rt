//! What a node's object says of the node alone: its kind and its fields.

ghost use Rattle.std.specs.Prelude.{◌≡◌, ◌&&◌, Ok, Err, None, Some, chars, IfOk, IfErr, IsTrue, option_map, option_and_then, codes};
ghost use Rattle.serde_json.specs.Find.{get, as_array};
ghost use Rattle.serde_json.specs.View.{view, items_view};
ghost use Rattle.lx_node.specs.Kinds.{is_element, is_possible};
ghost use Rattle.lx_node.specs.OfKind.{IsOfKind};
ghost use Rattle.lx_draft.specs.Faults.{TellsStep};
ghost use Rattle.lx_fields.specs.Types as types;
ghost use Rattle.lx_json.specs.Pieces.{IsToldKind};
ghost use Rattle.lx_json.specs.Reading as reading;

use crate::places::{bad_member, bad_state, unknown_type};
use lx_fields::{FieldFault, fields_of, kind_of_type, kind_told};
use lx_node::{Fault, Fields, Kind};
use serde_json::Value;
use std::alloc::Global;
use std::cmp::Ordering;

/// What an object says of a node.
#[derive(Drop)]
pub(crate) struct Told {
    pub(crate) kind: Kind,
    pub(crate) fields: Fields,
}

/// A node without a type: the root's, at the root alone.
fn untyped(alloc: Global, above: Option<Kind>, object: &Value) -> Result<Kind, Fault>
    ensures ok { IfOk result (λ kind. reading.kind_by above reading.missing (view object.now) ≡ Ok kind) }
    ensures err { IfErr result (λ e. TellsStep e (reading.kind_by above reading.missing (view object.now))) }
{
    let _ = object;
    match above {
        None => Ok(Kind::Root),
        Some(_) => Err(bad_state(alloc, "")),
    }
}

/// A node whose type is this text: of a kind that the kind above may hold, and at the root the root's.
fn typed(alloc: Global, above: Option<Kind>, text: &str, object: &Value) -> Result<Kind, Fault>
    ensures ok { IfOk result (λ kind. reading.kind_by above (reading.typed text.now) (view object.now) ≡ Ok kind) }
    ensures err { IfErr result (λ e. TellsStep e (reading.kind_by above (reading.typed text.now) (view object.now))) }
{
    let Some(kind) = kind_of_type(text) else {
        return Err(unknown_type(alloc, text));
    };
    match above {
        None => match kind {
            Kind::Root => Ok(Kind::Root),
            _ => Err(bad_state(alloc, "/type")),
        },
        Some(parent) => {
            if parent.may_hold(kind) {
                Ok(kind_told(kind, object))
            } else {
                Err(bad_state(alloc, "/type"))
            }
        }
    }
}

/// The kind of a node below one of this kind, or of the root.
fn kind_of(alloc: Global, above: Option<Kind>, object: &Value) -> Result<Kind, Fault>
    ensures ok { IfOk result (λ kind. reading.kind_by above (reading.typed_by (get (codes "type") (view object.now))) (view object.now) ≡ Ok kind) }
    ensures err { IfErr result (λ e. TellsStep e (reading.kind_by above (reading.typed_by (get (codes "type") (view object.now))) (view object.now))) }
    ensures kind { IfOk result (IsToldKind above) }
{
    let Some(told) = object.get("type") else {
        return untyped(alloc, above, object);
    };
    if told.is_null() {
        return untyped(alloc, above, object);
    }
    match told.as_str() {
        Some(text) => typed(alloc, above, text, object),
        None => Err(bad_state(alloc, "")),
    }
}

/// The list of an object's children, where it has one.
pub(crate) fn children_of(object: &Value) -> Option<&Vec<Value>>
    ensures { option_map (λ list. items_view list.now.items) result ≡ option_and_then as_array (get (codes "children") (view object.now)) }
{
    match object.get("children") {
        Some(children) => children.as_array(),
        None => None,
    }
}

/// Whether an object's children are anything but a list. They may be missing or null.
fn are_bad(object: &Value) -> bool
    ensures { result ≡ reading.are_bad (get (codes "children") (view object.now)) }
{
    match object.get("children") {
        Some(children) => !children.is_array() && !children.is_null(),
        None => false,
    }
}

/// Whether an object gives a node of the kind bad children. Where it can have none they are ignored.
fn has_bad_children(kind: Kind, object: &Value) -> bool
    ensures { result ≡ (is_element kind && reading.are_bad (get (codes "children") (view object.now))) }
{
    kind.is_element() && are_bad(object)
}

/// The fields that an object gives a node of the kind. The list of its children counts among the members, the first of
/// which that is bad is said.
fn fields_told(alloc: Global, kind: Kind, object: &Value) -> Result<Fields, Fault>
    ensures ok { IfOk result (λ fields. reading.fields_told kind (view object.now) ≡ Ok fields) }
    ensures err { IfErr result (λ e. TellsStep e (reading.fields_told kind (view object.now))) }
    ensures of_kind { IsTrue (is_possible kind) → IfOk result (IsOfKind kind) }
{
    let is_bad = has_bad_children(kind, object);
    match fields_of(alloc, kind, object) {
        Ok(fields) => {
            if is_bad {
                Err(bad_member(alloc, "children"))
            } else {
                Ok(fields)
            }
        }
        Err(FieldFault::Bad(name)) => Err(first_bad(alloc, is_bad, name.as_str())),
        Err(FieldFault::Memory) => Err(Fault::Memory),
    }
}

/// The first of the bad members by byte order: this one, or the children where they are bad.
fn first_bad(alloc: Global, is_bad: bool, name: &str) -> Fault
    ensures { TellsStep result (reading.fields_or_bad (reading.first_bad is_bad (Err (chars name.now)))) }
{
    if is_bad {
        if let Ordering::Greater = name.cmp("children") {
            return bad_member(alloc, "children");
        }
    }
    bad_member(alloc, name)
}

/// The kind and the fields of a node below one of this kind, or of the root.
#[tactic(auto, unfolding(crate::specs::Reading::piece_of))]
pub(crate) fn piece_of(alloc: Global, above: Option<Kind>, object: &Value) -> Result<Told, Fault>
    ensures ok { IfOk result (λ told. reading.piece_of above (view object.now) ≡ Ok (record { kind = told.kind; fields = told.fields })) }
    ensures err { IfErr result (λ e. TellsStep e (reading.piece_of above (view object.now))) }
    ensures of_kind { IfOk result (λ told. IsOfKind told.kind told.fields) }
    ensures kind { IfOk result (λ told. IsToldKind above told.kind) }
{
    let kind = match kind_of(alloc, above, object) {
        Ok(kind) => kind,
        Err(fault) => return Err(fault),
    };
    match fields_told(alloc, kind, object) {
        Ok(fields) => Ok(Told { kind, fields }),
        Err(fault) => Err(fault),
    }
}
