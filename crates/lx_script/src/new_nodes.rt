//! The kind and the fields of a new node, by its type and an object of fields.

ghost use Rattle.std.specs.Prelude.{◌≡◌, IfOk, codes, option_map};
ghost use Rattle.serde_json.specs.View.{view, members_view};
ghost use Rattle.serde_json.specs.Find.{get};
ghost use Rattle.lx_script.specs.NewNodes as new_nodes;
ghost use Rattle.lx_fields.specs.Values.{named};
ghost use Rattle.lx_fields.specs.Words.{levels, list_types};

use crate::members::told_in;
use lx_fields::{FieldFault, Name, fields_of, level_of, list_type_of, name_in};
use lx_node::{Fields, Kind, ListType, NoMemory};
use serde_json::{Map, Value};
use std::alloc::Global;

/// The level that an object's tag says, or else this one.
fn level_or(default: u8, object: &Value) -> Option<u8>
    ensures { result ≡ new_nodes.or_default default (named levels) (get (codes "tag") (view object.now)) }
{
    match told_in("tag", object) {
        Some(value) => level_of(value),
        None => Some(default),
    }
}

/// The list's type that an object says, or else this one.
fn list_type_or(default: ListType, object: &Value) -> Option<ListType>
    ensures { result ≡ new_nodes.or_default default (named list_types) (get (codes "listType") (view object.now)) }
{
    match told_in("listType", object) {
        Some(value) => list_type_of(value),
        None => Some(default),
    }
}

/// The kind of a type, with a heading's level and a list's type as the object says.
#[tactic(auto, unfolding(crate::specs::NewNodes::kind_with))]
pub(crate) fn kind_with(kind: Kind, object: &Value) -> Option<Kind>
    ensures { result ≡ new_nodes.kind_with kind (view object.now) }
{
    match kind {
        Kind::Heading(level) => match level_or(level, object) {
            Some(level) => Some(Kind::Heading(level)),
            None => None,
        },
        Kind::List(list_type) => match list_type_or(list_type, object) {
            Some(list_type) => Some(Kind::List(list_type)),
            None => None,
        },
        _ => Some(kind),
    }
}

/// Whether a new node may be given a member.
fn may_be_given(name: Option<Name>, value: &Value) -> bool
    ensures { result ≡ new_nodes.may_be_given name (view value.now) }
{
    match name {
        None => false,
        Some(Name::Value) => value.is_null(),
        Some(_) => true,
    }
}

/// Whether a new node of the kind may be given all members of an object.
fn may_all_be_given(kind: Kind, object: &Map<String, Value>) -> bool
    ensures { result ≡ new_nodes.may_all_be_given kind (members_view object.now.entries) }
{
    'members: for (name, value) in object.iter() {
        if !may_be_given(name_in(kind, name.as_str()), value) {
            return false;
        }
    }
    true
}

/// Whether a new node of the kind may be given all that an object has, or nothing for what is no object.
fn may_have(kind: Kind, object: &Value) -> bool
    ensures { result ≡ new_nodes.may_all_be_given kind (new_nodes.members_in (view object.now)) }
{
    match object.as_object() {
        Some(members) => may_all_be_given(kind, members),
        None => true,
    }
}

/// The fields of a new node.
#[tactic(auto, unfolding(crate::specs::NewNodes::new_fields))]
pub(crate) fn new_fields(
    alloc: Global,
    kind: Kind,
    object: &Value,
) -> Result<Option<Fields>, NoMemory>
    ensures { IfOk result (λ made. made ≡ new_nodes.new_fields kind (view object.now)) }
{
    if !may_have(kind, object) {
        return Ok(None);
    }
    match fields_of(alloc, kind, object) {
        Ok(fields) => Ok(Some(fields)),
        Err(FieldFault::Bad(_)) => Ok(None),
        Err(FieldFault::Memory) => Err(NoMemory),
    }
}
