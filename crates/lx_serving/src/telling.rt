//! The replies to lines about an outline.

ghost use Rattle.std.specs.Prelude.{◌≡◌, map, IfOk};
ghost use Rattle.serde_json.specs.View.{view as data_of};
ghost use Rattle.serde_json.specs.Written.{compact_text};
ghost use Rattle.lx_outline.specs.Outline.{IsOutlineOf};
ghost use Rattle.lx_serving.specs.Outlining.{about_data, entry_data, event_data, events_data, outline_data, outline_text};

use crate::asking::{AboutOutline, about_outline};
use crate::outlined::Outlined;
use crate::refusing::refuse;
use lx_draft::State;
use lx_node::NoMemory;
use lx_outline::{Entry, Event, Outline};
use serde_json::{Value, json};
use std::alloc::{AllocError, Global};

/// Answers a line about the outline, by the value of its member.
pub(crate) fn answer_about_outline(
    alloc: Global,
    outlined: &Outlined,
    state: &State,
    asked: &Value,
) -> Result<Vec<u8>, NoMemory>
    requires { IsOutlineOf outlined.now.outline state.now.links }
    ensures { IfOk result (λ reply. reply.items ≡ outline_text (data_of asked.now) state.now.links outlined.now.events) }
{
    match about_outline(asked) {
        Some(about) => answer_about(alloc, outlined, state, about),
        None => refuse(alloc),
    }
}

fn answer_about(
    alloc: Global,
    outlined: &Outlined,
    state: &State,
    about: AboutOutline,
) -> Result<Vec<u8>, NoMemory>
    requires { IsOutlineOf outlined.now.outline state.now.links }
    ensures { IfOk result (λ reply. reply.items ≡ compact_text (about_data about state.now.links outlined.now.events)) }
{
    let value = value_about(alloc, outlined, state, about)?;
    Ok(value.to_vec(alloc)?)
}

/// What a line asks for.
fn value_about(
    alloc: Global,
    outlined: &Outlined,
    state: &State,
    about: AboutOutline,
) -> Result<Value, NoMemory>
    requires { IsOutlineOf outlined.now.outline state.now.links }
    ensures { IfOk result (λ value. data_of value ≡ about_data about state.now.links outlined.now.events) }
{
    match about {
        AboutOutline::Headings => outline_value(alloc, outlined.outline(), state),
        AboutOutline::LastEvents => events_value(alloc, outlined.events()),
    }
}

/// What the outline says, whose headings are in the order that the state gives them.
fn outline_value(alloc: Global, outline: &Outline, state: &State) -> Result<Value, NoMemory>
    requires { IsOutlineOf outline.now state.now.links }
    ensures { IfOk result (λ value. data_of value ≡ outline_data state.now.links) }
{
    let entries = outline.entries(state)?;
    let listed = entry_values(alloc, entries.as_slice())?;
    Ok(json!(in alloc; {"outline": {
        "characters": outline.characters(),
        "entries": listed,
        "nodes": outline.nodes()
    }})?)
}

fn entry_values(alloc: Global, entries: &[Entry]) -> Result<Vec<Value>, NoMemory>
    ensures { IfOk result (λ values. map data_of values.items ≡ map entry_data entries.now) }
{
    let mut values = Vec::new(alloc);
    for entry in entries {
        values.push(entry_value(alloc, entry)?)?;
    }
    Ok(values)
}

fn entry_value(alloc: Global, entry: &Entry) -> Result<Value, AllocError>
    ensures { IfOk result (λ value. data_of value ≡ entry_data entry.now) }
{
    let text = Value::try_from_str(alloc, entry.text.as_str())?;
    json!(in alloc; [entry.key.number(), entry.level, text])
}

/// What events say.
fn events_value(alloc: Global, events: &[Event]) -> Result<Value, NoMemory>
    ensures { IfOk result (λ value. data_of value ≡ events_data events.now) }
{
    let listed = event_values(alloc, events)?;
    Ok(json!(in alloc; {"events": listed})?)
}

fn event_values(alloc: Global, events: &[Event]) -> Result<Vec<Value>, NoMemory>
    ensures { IfOk result (λ values. map data_of values.items ≡ map event_data events.now) }
{
    let mut values = Vec::new(alloc);
    for event in events {
        values.push(event_value(alloc, *event)?)?;
    }
    Ok(values)
}

fn event_value(alloc: Global, event: Event) -> Result<Value, AllocError>
    ensures { IfOk result (λ value. data_of value ≡ event_data event) }
{
    match event {
        Event::Destroyed(key) => json!(in alloc; ["destroyed", key.number()]),
        Event::Created(key) => json!(in alloc; ["created", key.number()]),
        Event::Updated(key) => json!(in alloc; ["updated", key.number()]),
    }
}
