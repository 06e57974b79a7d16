//! Replies: JSON is written a token at a time, without spaces. Only a document and a slice are values first.

ghost use Rattle.std.specs.Prelude.{◌≡◌, false, IfOk, OnOk, Some, option_map};
ghost use Rattle.serde_json.specs.Data.{Data};
ghost use Rattle.serde_json.specs.View.{view};
ghost use Rattle.serde_json.specs.Written.{has_float};
ghost use Rattle.lx_script.specs.Replies.{reply_data, reply_text, commit_data, refusal_data, idle_data, cleared_data, history_data, state_data, state_text, slice_text, shown_slice_data, view_data, shown_selection_data};
ghost use Rattle.lx_script.specs.Sent.{Sends, Tells, handled_tokens, view_tokens};
ghost use Rattle.lx_script.specs.declared.reply.Reply.TheVariants.{Committed};

use crate::causes::{cause_name, put_detail};
use crate::ops::put_ops;
use crate::parts::{
    put_flag_member, put_number_alone, put_number_member, put_number_or_null, put_word_member,
};
use crate::reply::Reply;
use crate::selection::put_selection;
use json::Writer;
use lx_host::Op;
use lx_node::{Cause, NoMemory, Txt};
use lx_select::Selection;
use serde_json::{Value, json};
use std::alloc::{AllocError, Global};

/// How many bytes there is room for when a reply is begun. A commit made by typing rarely has more.
const FIRST_ROOM: usize = 256;

/// The bytes of a reply, without a line end: compact JSON whose members are in byte order.
pub fn write_reply(alloc: Global, reply: &Reply) -> Result<Vec<u8>, NoMemory>
    ensures { IfOk result (λ bytes. bytes.items ≡ reply_text reply.now) }
{
    let mut writer = Writer::new(Vec::with_capacity(alloc, FIRST_ROOM)?);
    put_reply(&mut writer, reply)?;
    Ok(writer.into_inner())
}

/// The bytes of the reply to a commit, as of `Reply::Committed`. The operations aren't copied.
pub fn write_commit(
    alloc: Global,
    number: u32,
    ops: &[Op],
    handled: Option<bool>,
    view: &Option<Txt>,
) -> Result<Vec<u8>, NoMemory>
    ensures { IfOk result (λ bytes. bytes.items ≡ reply_text (Committed number ops.now handled view.now)) }
{
    let mut writer = Writer::new(Vec::with_capacity(alloc, FIRST_ROOM)?);
    put_commit(&mut writer, number, ops, handled, view)?;
    Ok(writer.into_inner())
}

/// The bytes of the reply that shows a document, which has no number with a fraction.
pub fn write_state(alloc: Global, document: Value) -> Result<Vec<u8>, NoMemory>
    requires whole { has_float (view document) ≡ false }
    ensures { IfOk result (λ bytes. bytes.items ≡ state_text (view document)) }
{
    let value = state_value(alloc, document)?;
    Ok(value.to_vec(alloc)?)
}

/// The bytes of the reply that shows a slice, which has no number with a fraction, or says that there is none.
pub fn write_slice(alloc: Global, slice: Option<Value>) -> Result<Vec<u8>, NoMemory>
    requires whole { (d : Data) → option_map view slice ≡ Some d → has_float d ≡ false }
    ensures { IfOk result (λ bytes. bytes.items ≡ slice_text (option_map view slice)) }
{
    let value = slice_value(alloc, slice)?;
    Ok(value.to_vec(alloc)?)
}

fn slice_value(alloc: Global, slice: Option<Value>) -> Result<Value, AllocError>
    ensures { IfOk result (λ v. view v ≡ shown_slice_data (option_map view slice)) }
{
    match slice {
        Some(slice) => json!(in alloc; {"slice": slice}),
        None => json!(in alloc; {"slice": null}),
    }
}

fn state_value(alloc: Global, document: Value) -> Result<Value, AllocError>
    ensures { IfOk result (λ v. view v ≡ state_data (view document)) }
{
    json!(in alloc; {"state": document})
}

#[tactic(auto, unfolding(crate::specs::Replies::reply_data))]
fn put_reply(writer: &mut Writer, reply: &Reply) -> Result<(), AllocError>
    ensures { OnOk result (Tells (reply_data reply.now) writer.old writer.new) }
{
    match reply {
        Reply::Committed {
            number,
            ops,
            handled,
            view,
        } => put_commit(writer, *number, ops.items(), *handled, view),
        Reply::Refused { cause, step } => put_refusal(writer, cause, *step),
        Reply::Idle { handled } => put_idle(writer, *handled),
        Reply::Gathered(count) => put_number_alone(writer, "gathered", *count as u64),
        Reply::Registered(number) => put_number_alone(writer, "registered", *number as u64),
        Reply::Cleared => put_cleared(writer),
        Reply::View(html) => put_view(writer, html),
        Reply::Selection(selection) => put_shown_selection(writer, selection),
        Reply::History { redo, undo } => put_history(writer, *redo, *undo),
    }
}

fn put_commit(
    writer: &mut Writer,
    number: u32,
    ops: &[Op],
    handled: Option<bool>,
    html: &Option<Txt>,
) -> Result<(), AllocError>
    ensures { OnOk result (Tells (commit_data number ops.now handled html.now) writer.old writer.new) }
{
    writer.begin_object()?;
    put_number_member(writer, "commit", number as u64)?;
    put_handled(writer, handled)?;
    writer.key("ops")?;
    put_ops(writer, ops)?;
    put_told_view(writer, html)?;
    writer.end_object()?;
    Ok(())
}

/// Whether a command was handled, as a member, where one was dispatched.
fn put_handled(writer: &mut Writer, handled: Option<bool>) -> Result<(), AllocError>
    ensures { OnOk result (Sends (handled_tokens handled) writer.old writer.new) }
{
    match handled {
        Some(handled) => put_flag_member(writer, "handled", handled),
        None => Ok(()),
    }
}

/// The view as a member, where replies include it.
fn put_told_view(writer: &mut Writer, html: &Option<Txt>) -> Result<(), AllocError>
    ensures { OnOk result (Sends (view_tokens html.now) writer.old writer.new) }
{
    match html {
        Some(html) => put_word_member(writer, "view", html.as_str()),
        None => Ok(()),
    }
}

fn put_refusal(writer: &mut Writer, cause: &Cause, step: Option<u32>) -> Result<(), AllocError>
    ensures { OnOk result (Tells (refusal_data cause.now step) writer.old writer.new) }
{
    writer.begin_object()?;
    writer.key("refused")?;
    writer.begin_object()?;
    put_word_member(writer, "cause", cause_name(cause))?;
    put_number_member(writer, "code", cause.code() as u64)?;
    writer.key("detail")?;
    put_detail(writer, cause)?;
    writer.key("step")?;
    put_number_or_null(writer, step)?;
    writer.end_object()?;
    writer.end_object()?;
    Ok(())
}

fn put_idle(writer: &mut Writer, handled: Option<bool>) -> Result<(), AllocError>
    ensures { OnOk result (Tells (idle_data handled) writer.old writer.new) }
{
    writer.begin_object()?;
    put_handled(writer, handled)?;
    put_flag_member(writer, "idle", true)?;
    writer.end_object()?;
    Ok(())
}

fn put_cleared(writer: &mut Writer) -> Result<(), AllocError>
    ensures { OnOk result (Tells cleared_data writer.old writer.new) }
{
    writer.begin_object()?;
    put_flag_member(writer, "cleared", true)?;
    writer.end_object()?;
    Ok(())
}

fn put_view(writer: &mut Writer, html: &Txt) -> Result<(), AllocError>
    ensures { OnOk result (Tells (view_data html.now) writer.old writer.new) }
{
    writer.begin_object()?;
    put_word_member(writer, "view", html.as_str())?;
    writer.end_object()?;
    Ok(())
}

fn put_shown_selection(writer: &mut Writer, selection: &Selection) -> Result<(), AllocError>
    ensures { OnOk result (Tells (shown_selection_data selection.now) writer.old writer.new) }
{
    writer.begin_object()?;
    writer.key("selection")?;
    put_selection(writer, selection)?;
    writer.end_object()?;
    Ok(())
}

fn put_history(writer: &mut Writer, redo: u32, undo: u32) -> Result<(), AllocError>
    ensures { OnOk result (Tells (history_data redo undo) writer.old writer.new) }
{
    writer.begin_object()?;
    writer.key("history")?;
    writer.begin_object()?;
    put_number_member(writer, "redo", redo as u64)?;
    put_number_member(writer, "undo", undo as u64)?;
    writer.end_object()?;
    writer.end_object()?;
    Ok(())
}
