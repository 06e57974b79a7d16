//! Listeners.

ghost use Rattle.std.specs.Prelude.{◌≡◌, IfOk, codes};
ghost use Rattle.serde_json.specs.Find.{get, as_bool};
ghost use Rattle.serde_json.specs.View.{view};
ghost use Rattle.lx_script.specs.Listeners as listeners;
ghost use Rattle.lx_fields.specs.Values as values;

use crate::scripts::member_script;
use lx_fields::{has_only, member_text, optional_text, small_within};
use lx_node::NoMemory;
use lx_step::{Listener, When};
use serde_json::Value;
use std::alloc::Global;

/// The priority of listeners that come first.
const MOST_PRIORITY: u8 = 4;

/// What has to hold for a listener to run its steps.
fn when_of(alloc: Global, value: &Value) -> Result<Option<When>, NoMemory>
    ensures { IfOk result (λ made. made ≡ listeners.when_of (view value.now)) }
{
    if !has_only(&["payload", "selection", "block"], value) {
        return Ok(None);
    }
    let payload = optional_text(alloc, "payload", value)?;
    let selection = optional_text(alloc, "selection", value)?;
    let block = optional_text(alloc, "block", value)?;
    match payload.zip(selection).zip(block) {
        Some(((payload, selection), block)) => Ok(Some(When {
            payload,
            selection,
            block,
        })),
        None => Ok(None),
    }
}

/// What has to hold for a listener to run its steps, where it says so.
fn when_in(alloc: Global, value: &Value) -> Result<Option<When>, NoMemory>
    ensures { IfOk result (λ made. made ≡ listeners.when_in (get (codes "when") (view value.now))) }
{
    match value.get("when") {
        Some(value) => when_of(alloc, value),
        None => Ok(Some(When {
            payload: None,
            selection: None,
            block: None,
        })),
    }
}

/// A listener's priority.
fn priority_in(value: &Value) -> Option<u8>
    ensures { result ≡ values.required (values.number_within 0 4) (codes "priority") (view value.now) }
{
    match value.get("priority") {
        Some(value) => small_within(MOST_PRIORITY, value),
        None => None,
    }
}

/// Whether no later listener is offered the command.
fn handled_in(value: &Value) -> Option<bool>
    ensures { result ≡ values.required as_bool (codes "handled") (view value.now) }
{
    match value.get("handled") {
        Some(value) => value.as_bool(),
        None => None,
    }
}

/// A listener.
pub(crate) fn listener_of(alloc: Global, value: &Value) -> Result<Option<Listener>, NoMemory>
    ensures { IfOk result (λ made. made ≡ listeners.listener_of (view value.now)) }
{
    if !has_only(&["on", "priority", "when", "steps", "handled"], value) {
        return Ok(None);
    }
    let priority = priority_in(value);
    let handled = handled_in(value);
    let on = member_text(alloc, "on", value)?;
    let when = when_in(alloc, value)?;
    let steps = member_script(alloc, true, "steps", value)?;
    match on.zip(priority).zip(when.zip(steps)).zip(handled) {
        Some((((on, priority), (when, steps)), handled)) => Ok(Some(Listener {
            priority,
            on,
            when,
            steps,
            handled,
        })),
        None => Ok(None),
    }
}
