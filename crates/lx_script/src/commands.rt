//! Commands: their names, and what they are given.
//!
//! `inside` is true among the steps of a listener. There "@payload" stands for what the command was given with which
//! the listener is reached; elsewhere it is a text like others.

ghost use Rattle.std.specs.Prelude.{◌≡◌, IfOk, codes, option_and_then};
ghost use Rattle.serde_json.specs.Find.{get};
ghost use Rattle.serde_json.specs.View.{view};
ghost use Rattle.lx_script.specs.Commands as commands;
ghost use Rattle.lx_fields.specs.Values as values;

use crate::references::has_three;
use lx_fields::{has_only, member_text, short_within};
use lx_node::{NoMemory, Txt};
use lx_step::{BuiltIn, Command, Payload, Step};
use serde_json::Value;
use std::alloc::Global;

/// The greatest number of rows, and of columns, of a table that a command is given.
const MOST_IN_GRID: u16 = 50;

/// A text, or what stands for a listener's payload.
fn text_or_given(alloc: Global, inside: bool, text: &str) -> Result<Payload, NoMemory>
    ensures { IfOk result (λ made. made ≡ commands.text_or_given inside text.now) }
{
    let is_given = inside && text == "@payload";
    if is_given {
        return Ok(Payload::Given);
    }
    Ok(Payload::Text(Txt::new(alloc, text)?))
}

/// A number of rows or of columns.
fn grid_length(value: &Value) -> Option<u16>
    ensures { result ≡ values.number_within 1 50 (view value.now) }
{
    short_within(1, MOST_IN_GRID, value)
}

/// The size of a table: rows, columns, and whether it has headers.
fn grid_of(value: &Value) -> Option<Payload>
    ensures { result ≡ commands.grid_of (view value.now) }
{
    if !has_three(value) {
        return None;
    }
    let rows = value.get(0usize).and_then(grid_length);
    let columns = value.get(1usize).and_then(grid_length);
    let headers = value.get(2usize).and_then(Value::as_bool);
    match rows.zip(columns).zip(headers) {
        Some(((rows, columns), headers)) => Some(Payload::Grid {
            rows,
            columns,
            headers,
        }),
        None => None,
    }
}

/// What a command is given.
#[tactic(auto, unfolding(crate::specs::Commands::payload_of))]
fn payload_of(alloc: Global, inside: bool, value: &Value) -> Result<Option<Payload>, NoMemory>
    ensures { IfOk result (λ made. made ≡ commands.payload_of inside (view value.now)) }
{
    if value.is_null() {
        return Ok(Some(Payload::Nothing));
    }
    match value.as_str() {
        Some(text) => Ok(Some(text_or_given(alloc, inside, text)?)),
        None => Ok(grid_of(value)),
    }
}

/// What the command is given that an object names, where it may be nothing.
fn payload_in(alloc: Global, inside: bool, value: &Value) -> Result<Option<Payload>, NoMemory>
    ensures { IfOk result (λ made. made ≡ commands.payload_in inside (get (codes "payload") (view value.now))) }
{
    match value.get("payload") {
        Some(value) => payload_of(alloc, inside, value),
        None => Ok(Some(Payload::Nothing)),
    }
}

/// The command that an object dispatches, whatever else it holds.
pub(crate) fn command_in(
    alloc: Global,
    inside: bool,
    value: &Value,
) -> Result<Option<Command>, NoMemory>
    ensures { IfOk result (λ made. made ≡ commands.command_in inside (view value.now)) }
{
    let name = member_text(alloc, "dispatch", value)?;
    let payload = payload_in(alloc, inside, value)?;
    match name.zip(payload) {
        Some((name, payload)) => Ok(Some(Command { name, payload })),
        None => Ok(None),
    }
}

/// A command that is dispatched by an object that holds nothing else.
pub(crate) fn command_of(
    alloc: Global,
    inside: bool,
    value: &Value,
) -> Result<Option<Command>, NoMemory>
    ensures { IfOk result (λ made. made ≡ commands.command_of inside (view value.now)) }
{
    if !has_only(&["dispatch", "payload"], value) {
        return Ok(None);
    }
    command_in(alloc, inside, value)
}

/// The name of the built-in command that is done.
fn built_in_name(alloc: Global, value: &Value) -> Result<Option<Txt>, NoMemory>
    ensures { IfOk result (λ made. made ≡ option_and_then commands.built_in_name (values.required values.string_of (codes "do") (view value.now))) }
{
    let Some(name) = member_text(alloc, "do", value)? else {
        return Ok(None);
    };
    match BuiltIn::named(name.as_str()) {
        Some(_) => Ok(Some(name)),
        None => Ok(None),
    }
}

/// A step that does what a built-in command does.
pub(crate) fn do_of(alloc: Global, inside: bool, value: &Value) -> Result<Option<Step>, NoMemory>
    ensures { IfOk result (λ made. made ≡ commands.do_of inside (view value.now)) }
{
    if !has_only(&["do", "payload"], value) {
        return Ok(None);
    }
    let name = built_in_name(alloc, value)?;
    let payload = payload_in(alloc, inside, value)?;
    match name.zip(payload) {
        Some((name, payload)) => Ok(Some(Step::Do(Command { name, payload }))),
        None => Ok(None),
    }
}
