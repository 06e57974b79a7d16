//! The edits of rules. Each is an object of one member, whose name says what is done.

ghost use Rattle.std.specs.Prelude.{◌≡◌, IfOk, codes};
ghost use Rattle.serde_json.specs.View.{view, items_view};
ghost use Rattle.lx_script.specs.Rules as rules;
ghost use Rattle.lx_fields.specs.Values as values;

use crate::conditions::where_true;
use crate::new_nodes::{kind_with, new_fields};
use crate::patches::patch_of;
use crate::steps::fields_or;
use crate::words::{EditWord, edit_in, type_of};
use lx_fields::has_only;
use lx_node::{Kind, NoMemory, Txt};
use lx_step::{NewNode, Patch, SelfEdit, SelfEdits};
use lx_text::length;
use serde_json::Value;
use std::alloc::Global;

/// The greatest length of a text that a rule adds.
const MOST_ADDED: u32 = 256;

/// A patch, all of whose members can be set on the kind.
fn patch_on(alloc: Global, kind: Kind, value: &Value) -> Result<Option<Patch>, NoMemory>
    ensures { IfOk result (λ made. made ≡ rules.patch_on kind (view value.now)) }
{
    match patch_of(alloc, value)? {
        Some(patch) => {
            if patch.is_of(kind) {
                Ok(Some(patch))
            } else {
                Ok(None)
            }
        }
        None => Ok(None),
    }
}

/// A text that a rule adds to a text.
#[tactic(auto, unfolding(lx_node::specs::Kinds::is_text))]
fn added_on(alloc: Global, kind: Kind, value: &Value) -> Result<Option<Txt>, NoMemory>
    ensures { IfOk result (λ made. made ≡ rules.added_on kind (view value.now)) }
{
    if !matches!(kind, Kind::Text) {
        return Ok(None);
    }
    let Some(text) = value.as_str() else {
        return Ok(None);
    };
    if length(text) > MOST_ADDED {
        return Ok(None);
    }
    Ok(Some(Txt::new(alloc, text)?))
}

/// A new node of the kind, whose fields the object gives.
fn new_node_in(alloc: Global, kind: Kind, object: &Value) -> Result<Option<NewNode>, NoMemory>
    ensures { IfOk result (λ made. made ≡ rules.new_node_in kind (view object.now)) }
{
    match new_fields(alloc, kind, object)? {
        Some(fields) => Ok(Some(NewNode { kind, fields })),
        None => Ok(None),
    }
}

/// A new node of the type. A heading's level and a list's type are those that the object gives.
fn new_node_with(alloc: Global, kind: Kind, object: &Value) -> Result<Option<NewNode>, NoMemory>
    ensures { IfOk result (λ made. made ≡ rules.new_node_with kind (view object.now)) }
{
    match kind_with(kind, object) {
        Some(kind) => new_node_in(alloc, kind, object),
        None => Ok(None),
    }
}

/// A new node, by its type and an object of fields, which may be missing.
fn new_node_of(alloc: Global, value: &Value) -> Result<Option<NewNode>, NoMemory>
    ensures { IfOk result (λ made. made ≡ rules.new_node_of (view value.now)) }
{
    if !has_only(&["type", "fields"], value) {
        return Ok(None);
    }
    let Some(kind) = value.get("type").and_then(type_of) else {
        return Ok(None);
    };
    let nothing = Value::Null;
    match fields_or(value, &nothing) {
        Some(object) => new_node_with(alloc, kind, object),
        None => Ok(None),
    }
}

/// An edit of nodes of the kind's type, by what it does.
#[tactic(auto, unfolding(crate::specs::Rules::edit_for))]
fn edit_for(
    alloc: Global,
    kind: Kind,
    word: EditWord,
    value: &Value,
) -> Result<Option<SelfEdit>, NoMemory>
    ensures { IfOk result (λ made. made ≡ rules.edit_for kind word (view value.now)) }
{
    match word {
        EditWord::Set => Ok(patch_on(alloc, kind, value)?.map(|patch| SelfEdit::Set(patch))),
        EditWord::Add => Ok(added_on(alloc, kind, value)?.map(|text| SelfEdit::Add(text))),
        EditWord::Remove => Ok(where_true(SelfEdit::Remove, value)),
        EditWord::Replace => Ok(new_node_of(alloc, value)?.map(|new| SelfEdit::Replace(new))),
        EditWord::Wrap => Ok(new_node_of(alloc, value)?.map(|new| SelfEdit::Wrap(new))),
        EditWord::Unwrap => Ok(where_true(SelfEdit::Unwrap, value)),
        EditWord::Before => Ok(new_node_of(alloc, value)?.map(|new| SelfEdit::Before(new))),
        EditWord::After => Ok(new_node_of(alloc, value)?.map(|new| SelfEdit::After(new))),
        EditWord::Child => Ok(new_node_of(alloc, value)?.map(|new| SelfEdit::Child(new))),
        EditWord::MergeNext => Ok(where_true(SelfEdit::MergeNext, value)),
    }
}

/// An edit of nodes of the kind's type.
#[tactic(auto, unfolding(crate::specs::Rules::edit_of))]
fn edit_of(alloc: Global, kind: Kind, value: &Value) -> Result<Option<SelfEdit>, NoMemory>
    ensures { IfOk result (λ made. made ≡ rules.edit_of kind (view value.now)) }
{
    match edit_in(value) {
        Some((word, value)) => edit_for(alloc, kind, word, value),
        None => Ok(None),
    }
}

/// The edits of a rule.
fn edits_of(alloc: Global, kind: Kind, items: &[Value]) -> Result<Option<SelfEdits>, NoMemory>
    ensures { IfOk result (λ made. made ≡ values.all_of (rules.edit_of kind) (items_view items.now)) }
{
    let mut made = Vec::with_capacity(alloc, items.len())?;
    'items: for item in items {
        match edit_of(alloc, kind, item)? {
            Some(edit) => made.push(edit)?,
            None => return Ok(None),
        }
    }
    Ok(Some(SelfEdits::of(made)))
}

/// What a rule does with its node, which is of the kind's type.
pub(crate) fn done_by(
    alloc: Global,
    kind: Kind,
    rule: &Value,
) -> Result<Option<SelfEdits>, NoMemory>
    ensures { IfOk result (λ made. made ≡ values.required (values.list_of (rules.edit_of kind)) (codes "do") (view rule.now)) }
{
    match rule.get("do").and_then(Value::as_array) {
        Some(items) => edits_of(alloc, kind, items.as_slice()),
        None => Ok(None),
    }
}
