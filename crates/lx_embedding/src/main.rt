//! Uses the editor as a library, as a program does that embeds it: each call of `Editor`, and `line` through `answer_line`.
//! Nothing is read, and each line of standard output says what one call answered.
#![tactic(auto)]

mod asking;
mod begin;
mod editing;
mod gridded;
mod large;
mod registering;
mod waiting;

use anyhow::Result;
use lx_editor::Editor;
use std::alloc::Global;
use std::io::Write;

fn main(rt: HostRuntime) -> Result<()> {
    tell_all(rt.alloc(), &mut rt.stdout())
}

/// Makes each call in turn, and says what it answered.
fn tell_all<W: Write>(alloc: Global, out: &mut W) -> Result<()> {
    let mut editor = begin::begin(alloc)?;
    tell(out, "click", editing::click(alloc, &mut editor)?)?;
    tell(out, "type", editing::type_text(alloc, &mut editor)?)?;
    tell(out, "view", asking::view(alloc, &editor)?)?;
    tell(out, "first host", asking::first_host(alloc, &editor)?)?;
    tell(out, "undo", editing::undo(alloc, &mut editor)?)?;
    tell(out, "redo", editing::redo(alloc, &mut editor)?)?;
    tell(out, "redo again", editing::redo(alloc, &mut editor)?)?;
    tell(out, "depths", asking::depths(alloc, &editor)?)?;
    tell(out, "entries", asking::entries(alloc, &editor)?)?;
    tell(out, "rule", registering::rule(alloc, &mut editor)?)?;
    tell(out, "listener", registering::listener(alloc, &mut editor)?)?;
    tell(out, "dispatch", editing::sign(alloc, &mut editor)?)?;
    tell(out, "refused", editing::remove_missing(alloc, &mut editor)?)?;
    tell(out, "export", asking::export(alloc, &editor)?)?;
    tell(out, "load", editing::load(alloc, &mut editor)?)?;
    tell(out, "last batch", asking::last_batch(alloc, &editor)?)?;
    tell(out, "show", asking::show(alloc, &editor)?)?;
    tell(out, "line", asking::line(alloc, &mut editor)?)?;
    tell(out, "current", asking::current(alloc, &editor)?)?;
    editor.clear_history();
    tell(out, "cleared", asking::current(alloc, &editor)?)?;
    tell_waiting(alloc, &mut editor, out)?;
    tell(out, "grid", gridded::places(alloc)?)?;
    tell(out, "large document", large::type_into_last_text(alloc)?)
}

/// Makes the calls of updates that wait: two that are flushed, one that an undo drops, one that a refused update drops, and one
/// that a line flushes, which says what it changed.
fn tell_waiting<W: Write>(alloc: Global, editor: &mut Editor, out: &mut W) -> Result<()> {
    tell(out, "defer", waiting::defer(alloc, editor, "Tomorrow")?)?;
    tell(out, "defer", waiting::defer(alloc, editor, "Today")?)?;
    tell(out, "counts", asking::counts(alloc, editor)?)?;
    tell(out, "flush", waiting::flush(alloc, editor)?)?;
    tell(out, "counts", asking::counts(alloc, editor)?)?;
    tell(out, "defer", waiting::defer(alloc, editor, "Later")?)?;
    tell(out, "turn", editing::turn_back(alloc, editor)?)?;
    tell(out, "counts", asking::counts(alloc, editor)?)?;
    tell(out, "defer", waiting::defer(alloc, editor, "Never")?)?;
    tell(out, "refused", editing::remove_missing(alloc, editor)?)?;
    tell(out, "counts", asking::counts(alloc, editor)?)?;
    tell(out, "defer", waiting::defer(alloc, editor, "Done")?)?;
    tell(out, "change", waiting::flush_by_line(alloc, editor)?)
}

/// Writes a line.
fn tell<W: Write>(out: &mut W, call: &str, answer: String) -> Result<()> {
    out.write_all(call.as_bytes())?;
    out.write_all(b": ")?;
    out.write_all(answer.as_bytes())?;
    out.write_all(b"\n")?;
    Ok(())
}
