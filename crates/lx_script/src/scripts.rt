//! Scripts: lists of steps, of which some hold lists of steps.
//!
//! `inside` is true among the steps of a listener, which a payload can name.

ghost use Rattle.std.specs.Prelude.{◌≡◌, IfOk, codes};
ghost use Rattle.serde_json.specs.View.{view, items_view};
ghost use Rattle.lx_script.specs.Steps as steps;
ghost use Rattle.lx_fields.specs.Values as values;

use crate::commands::{command_of, do_of};
use crate::steps::{
    append_of, new_of, one_of, put_of, replace_of, select_of, set_of, split_of, two_of,
};
use crate::words::{Verb, verb_of};
use lx_fields::{has_only, items_in};
use lx_node::NoMemory;
use lx_step::{Step, Steps};
use serde_json::Value;
use std::alloc::Global;

/// A step, by the word that sets it apart from others.
#[cycle(read)]
#[tactic(auto, unfolding(crate::specs::Steps::step_for))]
fn step_for(
    alloc: Global,
    inside: bool,
    verb: Verb,
    value: &Value,
) -> Result<Option<Step>, NoMemory>
    ensures { IfOk result (λ made. made ≡ steps.step_for inside verb (view value.now) (values.required (steps.script_in inside) (codes "later") (view value.now))) }
{
    match verb {
        Verb::Append => append_of(alloc, value),
        Verb::New => new_of(alloc, value),
        Verb::Put => put_of(alloc, value),
        Verb::Remove => Ok(one_of(alloc, "remove", value)?.map(|node| Step::Remove(node))),
        Verb::Replace => replace_of(alloc, value),
        Verb::Set => set_of(alloc, value),
        Verb::Mark => Ok(one_of(alloc, "mark", value)?.map(|node| Step::Mark(node))),
        Verb::Split => split_of(alloc, value),
        Verb::Join => match two_of(alloc, "join", "with", value)? {
            Some((node, with)) => Ok(Some(Step::Join { node, with })),
            None => Ok(None),
        },
        Verb::Wrap => match two_of(alloc, "wrap", "in", value)? {
            Some((node, outer)) => Ok(Some(Step::Wrap { node, outer })),
            None => Ok(None),
        },
        Verb::Unwrap => Ok(one_of(alloc, "unwrap", value)?.map(|node| Step::Unwrap(node))),
        Verb::Children => match two_of(alloc, "children", "into", value)? {
            Some((from, into)) => Ok(Some(Step::Children { from, into })),
            None => Ok(None),
        },
        Verb::Select => select_of(alloc, value),
        Verb::Do => do_of(alloc, inside, value),
        Verb::Dispatch => {
            Ok(command_of(alloc, inside, value)?.map(|command| Step::Dispatch(command)))
        }
        Verb::Later => match later_of(alloc, inside, value) {
            Ok(step) => Ok(step),
            Err(error) => Err(error),
        },
    }
}

/// A step.
#[cycle(read)]
fn step_of(alloc: Global, inside: bool, value: &Value) -> Result<Option<Step>, NoMemory>
    ensures { IfOk result (λ made. made ≡ steps.step_of inside (view value.now)) }
{
    match verb_of(value) {
        Some(verb) => match step_for(alloc, inside, verb, value) {
            Ok(step) => Ok(step),
            Err(error) => Err(error),
        },
        None => Ok(None),
    }
}

/// A step that queues steps.
#[cycle(read)]
fn later_of(alloc: Global, inside: bool, value: &Value) -> Result<Option<Step>, NoMemory>
    ensures { IfOk result (λ made. made ≡ steps.later_of (view value.now) (values.required (steps.script_in inside) (codes "later") (view value.now))) }
{
    if !has_only(&["later"], value) {
        return Ok(None);
    }
    match member_script(alloc, inside, "later", value) {
        Ok(Some(steps)) => Ok(Some(Step::Later(steps))),
        Ok(None) => Ok(None),
        Err(error) => Err(error),
    }
}

/// The steps that a member lists.
#[cycle(read)]
pub(crate) fn member_script(
    alloc: Global,
    inside: bool,
    name: &str,
    value: &Value,
) -> Result<Option<Steps>, NoMemory>
    ensures { IfOk result (λ made. made ≡ values.required (steps.script_in inside) name.now (view value.now)) }
{
    match items_in(name, value) {
        Some(items) => match script_of(alloc, inside, items) {
            Ok(steps) => Ok(steps),
            Err(error) => Err(error),
        },
        None => Ok(None),
    }
}

/// The steps that items list.
#[cycle(read)]
fn script_of(alloc: Global, inside: bool, items: &[Value]) -> Result<Option<Steps>, NoMemory>
    ensures { IfOk result (λ made. made ≡ steps.script_from inside (items_view items.now)) }
{
    let mut made = Vec::with_capacity(alloc, items.len())?;
    'items: for item in items {
        match step_of(alloc, inside, item) {
            Ok(Some(step)) => made.push(step)?,
            Ok(None) => return Ok(None),
            Err(error) => return Err(error),
        }
    }
    Ok(Some(Steps::of(made)))
}
