//! Calls that commit nothing.

use crate::editing::room;
use anyhow::Result;
use lx_editor::{Editor, answer_line};
use lx_step::{Shown, Turn};
use lx_value::Room;
use std::alloc::Global;

/// The view as HTML, and how many nodes the state has.
pub(crate) fn view(alloc: Global, editor: &Editor) -> Result<String> {
    let html = editor.view()?;
    Ok(format!(in alloc; "{} {}", editor.state().links.len(), html.as_str())?)
}

/// The host that shows the first block.
pub(crate) fn first_host(alloc: Global, editor: &Editor) -> Result<String> {
    let first = editor.hosts().first_child(0);
    Ok(format!(in alloc; "{first:?}")?)
}

/// How many entries there are to go back to, and forth to.
pub(crate) fn depths(alloc: Global, editor: &Editor) -> Result<String> {
    let (undo, redo) = editor.depths();
    Ok(format!(in alloc; "{undo} {redo}")?)
}

/// How many nodes the states have to which an undo and a redo go, where there are such, and at which keys the first may differ
/// from what is committed.
pub(crate) fn entries(alloc: Global, editor: &Editor) -> Result<String> {
    let history = editor.history();
    let undo = history.state_at(Turn::Undo).map(|state| state.links.len());
    let redo = history.state_at(Turn::Redo).map(|state| state.links.len());
    let keys = history
        .entry_at(Turn::Undo)
        .and_then(|entry| entry.places.keys());
    let since = history.strays().keys();
    Ok(format!(in alloc; "{undo:?} {redo:?} at {keys:?} and {since:?}")?)
}

/// How often the editor has committed, and how many updates wait.
pub(crate) fn counts(alloc: Global, editor: &Editor) -> Result<String> {
    Ok(format!(in alloc; "{} {}", editor.commits(), editor.gathered())?)
}

/// Whether the history has a current entry.
pub(crate) fn current(alloc: Global, editor: &Editor) -> Result<String> {
    let is_some = editor.history().current().is_some();
    Ok(format!(in alloc; "{is_some}")?)
}

/// The document that is committed.
pub(crate) fn export(alloc: Global, editor: &Editor) -> Result<String> {
    let document = editor.export(alloc)?;
    Ok(format!(in alloc; "{document}")?)
}

/// The operations of the last commit, again.
pub(crate) fn last_batch(alloc: Global, editor: &Editor) -> Result<String> {
    match editor.last_batch() {
        Some(batch) => Ok(format!(in alloc; "{:?}", batch.ops())?),
        None => Ok(format!(in alloc; "none")?),
    }
}

/// What is selected, as the reply to a line shows it.
pub(crate) fn show(alloc: Global, editor: &Editor) -> Result<String> {
    text(alloc, editor.show(alloc, Shown::Selection)?)
}

/// A line, answered with the bytes of its reply.
pub(crate) fn line(alloc: Global, editor: &mut Editor) -> Result<String> {
    room(editor)?;
    let mut scratch = Room::new(alloc)?;
    let reply = answer_line(alloc, editor, br#"{"show":"history"}"#, &mut scratch)?;
    text(alloc, reply)
}

fn text(alloc: Global, bytes: Vec<u8>) -> Result<String> {
    Ok(String::from_str(alloc, str::from_utf8(&bytes)?)?)
}
