//! The conditions of rules. Each is an object of one member, whose name says what is asked.

ghost use Rattle.std.specs.Prelude.{◌≡◌, IfOk, codes};
ghost use Rattle.serde_json.specs.View.{view, items_view};
ghost use Rattle.lx_script.specs.Rules as rules;
ghost use Rattle.lx_fields.specs.Values as values;

use crate::words::{ConditionWord, condition_in, type_of};
use lx_fields::{number_of, text_of};
use lx_node::NoMemory;
use lx_step::{Condition, Conditions, TypeRow};
use serde_json::Value;
use std::alloc::Global;

/// The type of nodes that a string is.
fn row_of(value: &Value) -> Option<TypeRow>
    ensures { result ≡ rules.row_named (view value.now) }
{
    match type_of(value) {
        Some(kind) => Some(TypeRow::of(kind)),
        None => None,
    }
}

/// A type of nodes, or none for null.
fn row_or_null(value: &Value) -> Option<Option<TypeRow>>
    ensures { result ≡ values.or_null_of rules.row_named (view value.now) }
{
    if value.is_null() {
        return Some(None);
    }
    match row_of(value) {
        Some(row) => Some(Some(row)),
        None => None,
    }
}

/// What is meant where the value is true, which it has to be.
pub(crate) fn where_true<T: Drop>(meant: T, value: &Value) -> Option<T>
    ensures { result ≡ rules.where_true meant (view value.now) }
{
    match value.as_bool() {
        Some(true) => Some(meant),
        _ => None,
    }
}

/// A condition, by what it asks.
#[tactic(auto, unfolding(crate::specs::Rules::condition_for))]
fn condition_for(
    alloc: Global,
    word: ConditionWord,
    value: &Value,
) -> Result<Option<Condition>, NoMemory>
    ensures { IfOk result (λ made. made ≡ rules.condition_for word (view value.now)) }
{
    match word {
        ConditionWord::Text => Ok(text_of(alloc, value)?.map(|text| Condition::Text(text))),
        ConditionWord::Contains => {
            Ok(text_of(alloc, value)?.map(|piece| Condition::Contains(piece)))
        }
        ConditionWord::Shorter => Ok(number_of(value).map(|limit| Condition::Shorter(limit))),
        ConditionWord::Format => Ok(number_of(value).map(|format| Condition::Format(format))),
        ConditionWord::Parent => Ok(row_of(value).map(|row| Condition::Parent(row))),
        ConditionWord::Previous => Ok(row_or_null(value).map(|row| Condition::Previous(row))),
        ConditionWord::Next => Ok(row_or_null(value).map(|row| Condition::Next(row))),
        ConditionWord::Childless => Ok(where_true(Condition::Childless, value)),
    }
}

/// A condition.
#[tactic(auto, unfolding(crate::specs::Rules::condition_of))]
fn condition_of(alloc: Global, value: &Value) -> Result<Option<Condition>, NoMemory>
    ensures { IfOk result (λ made. made ≡ rules.condition_of (view value.now)) }
{
    match condition_in(value) {
        Some((word, value)) => condition_for(alloc, word, value),
        None => Ok(None),
    }
}

/// The conditions of a rule.
fn conditions_of(alloc: Global, items: &[Value]) -> Result<Option<Conditions>, NoMemory>
    ensures { IfOk result (λ made. made ≡ values.all_of rules.condition_of (items_view items.now)) }
{
    let mut made = Vec::with_capacity(alloc, items.len())?;
    'items: for item in items {
        match condition_of(alloc, item)? {
            Some(condition) => made.push(condition)?,
            None => return Ok(None),
        }
    }
    Ok(Some(Conditions::of(made)))
}

/// What a rule asks of its node.
pub(crate) fn asked_by(alloc: Global, rule: &Value) -> Result<Option<Conditions>, NoMemory>
    ensures { IfOk result (λ made. made ≡ values.required (values.list_of rules.condition_of) (codes "if") (view rule.now)) }
{
    match rule.get("if").and_then(Value::as_array) {
        Some(items) => conditions_of(alloc, items.as_slice()),
        None => Ok(None),
    }
}
