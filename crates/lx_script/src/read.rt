//! Lines: the grammar of commands over the JSON value that a line is.

ghost use Rattle.std.specs.Prelude.{◌≡◌, IfOk, IfErr, codes, option_map};
ghost use Rattle.serde_json.specs.Find.{get};
ghost use Rattle.serde_json.specs.View.{view};
ghost use Rattle.lx_step.specs.Sound.{IsSoundForm};
ghost use Rattle.lx_script.specs.Grammar.{IsJson, TellsLine, TellsNoJson};
ghost use Rattle.lx_script.specs.Grammar as grammar;

use crate::commands::command_in;
use crate::listeners::listener_of;
use crate::members::{alone_in, truth_in};
use crate::recording::{moment_of, tags_of};
use crate::rules::rule_of;
use crate::scripts::member_script;
use crate::words::shown_of;
use lx_fields::has_only;
use lx_node::{Cause, Fault, NoMemory};
use lx_step::{Form, Line, Steps};
use lx_value::{Room, Unread};
use serde_json::Value;
use std::alloc::Global;

/// Reads a line of bytes, without its end. It is refused as `BadLine` where it isn't JSON, and as
/// `BadCommand` where the JSON is no command. A new node that a step of the line makes has fields of its kind,
/// which isn't the root's, and the members that a step sets have values within their ranges: a step of the line itself,
/// of a listener, or that another step queues. A listener's priority is from 0 to 4.
///
/// An update waits for a line that commits it where `defer` is true beside it.
///
/// Any line may carry its time as `at`, a whole number of milliseconds from 0 to 9,007,199,254,740,991. An update,
/// a flush, a dispatch and a load may have `tags`, a list of strings: `historic`, `history-merge` and `history-push` say how the
/// commit is recorded, and others say nothing. A line that has any member beside these and those of its form is refused
/// as `BadCommand`.
///
/// The room is lent to any number of lines, one after another.
pub fn read_line(alloc: Global, bytes: &[u8], room: &mut Room) -> Result<Line, Fault>
    ensures tells { TellsLine bytes.now result }
    ensures sound { IfOk result (λ line. IsSoundForm line.form) }
{
    match read_value(alloc, bytes, room) {
        Ok(value) => line_of(alloc, value),
        Err(fault) => Err(fault),
    }
}

/// Reads the JSON value that bytes are, or refuses them as `BadLine`.
pub fn read_value(alloc: Global, bytes: &[u8], room: &mut Room) -> Result<Value, Fault>
    ensures ok { IfOk result (λ value. IsJson bytes.now (view value)) }
    ensures refused { IfErr result (TellsNoJson bytes.now) }
{
    match lx_value::read_value(alloc, bytes, room) {
        Ok(value) => Ok(value),
        Err(Unread::NoJson) => Err(Fault::Cause(Cause::BadLine)),
        Err(Unread::Memory) => Err(Fault::Memory),
    }
}

/// An update, which waits where it is deferred.
fn update_with(steps: Steps, defer: bool) -> Form
    ensures { result ≡ grammar.update_with steps defer }
{
    if defer {
        Form::Defer(steps)
    } else {
        Form::Update(steps)
    }
}

/// An update, which may wait.
fn update_of(alloc: Global, value: &Value) -> Result<Option<Form>, NoMemory>
    ensures { IfOk result (λ made. made ≡ grammar.update_of (view value.now)) }
{
    // It is looked for first, so that another line costs no more than that.
    if value.get("update").is_none() {
        return Ok(None);
    }
    if !has_only(&["at", "tags", "update", "defer"], value) {
        return Ok(None);
    }
    let defer = truth_in("defer", value);
    let steps = member_script(alloc, false, "update", value)?;
    match steps.zip(defer) {
        Some((steps, defer)) => Ok(Some(update_with(steps, defer))),
        None => Ok(None),
    }
}

/// What commits the updates that wait.
fn flush_of(value: &Value) -> Option<Form>
    ensures { result ≡ grammar.flush_of (view value.now) }
{
    let Some(true) = value.get("flush").and_then(Value::as_bool) else {
        return None;
    };
    if !has_only(&["at", "tags", "flush"], value) {
        return None;
    }
    Some(Form::Flush)
}

/// A command that is dispatched.
fn dispatch_form_of(alloc: Global, value: &Value) -> Result<Option<Form>, NoMemory>
    ensures { IfOk result (λ made. made ≡ grammar.dispatch_form_of (view value.now)) }
{
    if !has_only(&["at", "tags", "dispatch", "payload"], value) {
        return Ok(None);
    }
    match command_in(alloc, false, value)? {
        Some(command) => Ok(Some(Form::Dispatch(command))),
        None => Ok(None),
    }
}

/// A rule that is registered.
fn rule_form_of(alloc: Global, value: &Value) -> Result<Option<Form>, NoMemory>
    ensures { IfOk result (λ made. made ≡ grammar.rule_form_of (view value.now)) }
{
    match alone_in("rule", value) {
        Some(rule) => Ok(rule_of(alloc, rule)?.map(|rule| Form::Rule(rule))),
        None => Ok(None),
    }
}

/// A listener that is registered.
fn listener_form_of(alloc: Global, value: &Value) -> Result<Option<Form>, NoMemory>
    ensures { IfOk result (λ made. made ≡ grammar.listener_form_of (view value.now)) }
{
    match alone_in("listener", value) {
        Some(listener) => match listener_of(alloc, listener)? {
            Some(listener) => Ok(Some(Form::Listener(listener))),
            None => Ok(None),
        },
        None => Ok(None),
    }
}

/// A question.
fn show_of(value: &Value) -> Option<Form>
    ensures { result ≡ grammar.show_of (view value.now) }
{
    let shown = alone_in("show", value).and_then(shown_of)?;
    Some(Form::Show(shown))
}

/// What clears the history.
fn clear_of(value: &Value) -> Option<Form>
    ensures { result ≡ grammar.clear_of (view value.now) }
{
    let Some("history") = value.get("clear").and_then(Value::as_str) else {
        return None;
    };
    if !has_only(&["at", "clear"], value) {
        return None;
    }
    Some(Form::Clear)
}

/// The form of a line.
fn form_of(alloc: Global, value: &Value) -> Result<Option<Form>, NoMemory>
    ensures { IfOk result (λ made. made ≡ grammar.form_of (view value.now)) }
{
    if let Some(form) = update_of(alloc, value)? {
        return Ok(Some(form));
    }
    if let Some(form) = flush_of(value) {
        return Ok(Some(form));
    }
    if let Some(form) = dispatch_form_of(alloc, value)? {
        return Ok(Some(form));
    }
    if let Some(form) = rule_form_of(alloc, value)? {
        return Ok(Some(form));
    }
    if let Some(form) = listener_form_of(alloc, value)? {
        return Ok(Some(form));
    }
    if let Some(form) = show_of(value) {
        return Ok(Some(form));
    }
    Ok(clear_of(value))
}

/// The member `load` of an object, which is taken out of it.
fn taken_load(value: Value) -> Option<Value>
    ensures { option_map view result ≡ get (codes "load") (view value) }
{
    match value {
        Value::Object(mut members) => members.remove("load"),
        _other => None,
    }
}

/// The document of a load, which is taken out of the value.
fn load_of(value: Value) -> Option<Value>
    ensures { option_map view result ≡ grammar.document_in (view value) }
{
    if !has_only(&["at", "tags", "load"], &value) {
        return None;
    }
    taken_load(value)
}

/// A line. A value that is none is refused as no command. A load takes its document out of the value, so the time and
/// the tags are read before.
pub fn line_of(alloc: Global, value: Value) -> Result<Line, Fault>
    ensures makes { grammar.Makes (view value) result }
    ensures sound { IfOk result (λ line. IsSoundForm line.form) }
{
    let Some(at) = moment_of(&value) else {
        return Err(Fault::Cause(Cause::BadCommand));
    };
    let Some(tags) = tags_of(&value) else {
        return Err(Fault::Cause(Cause::BadCommand));
    };
    match form_of(alloc, &value) {
        Ok(Some(form)) => Ok(Line { at, tags, form }),
        Ok(None) => match load_of(value) {
            Some(document) => Ok(Line {
                at,
                tags,
                form: Form::Load(document),
            }),
            None => Err(Fault::Cause(Cause::BadCommand)),
        },
        Err(_) => Err(Fault::Memory),
    }
}
