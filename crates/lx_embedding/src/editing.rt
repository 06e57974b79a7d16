//! Calls that may commit. Each is in a function of its own, which asks first whether there is a number for a commit:
//! what it means is in the contract of the call.

ghost use Rattle.std.specs.Prelude.{◌<◌, OnOk};
ghost use Rattle.lx_node.specs.Limits.{last_u32};

use anyhow::{Result, bail};
use lx_editor::{Editor, Outcome};
use lx_node::{Key, PointKind, Txt};
use lx_step::{Command, Payload, PointRef, Reference, SelectionRef, Step, Tags, Turn};
use std::alloc::Global;

/// An error where the editor has no number for one more commit, which calls that may commit need.
pub(crate) fn room(editor: &Editor) -> Result<()>
    ensures { OnOk result (editor.now.commits < last_u32) }
{
    if editor.commits() == u32::MAX {
        bail!("no numbers are left for commits");
    }
    Ok(())
}

/// An outcome in words.
pub(crate) fn told(alloc: Global, outcome: &Outcome) -> Result<String> {
    Ok(format!(in alloc; "{outcome:?}")?)
}

/// Does a command, whether a listener handles it or not.
fn dispatch(alloc: Global, editor: &mut Editor, name: &str, payload: &str) -> Result<String> {
    room(editor)?;
    let command = Command {
        name: Txt::new(alloc, name)?,
        payload: Payload::Text(Txt::new(alloc, payload)?),
    };
    let (handled, outcome) = editor.dispatch(alloc, &command, Tags::none(), 3000)?;
    Ok(format!(in alloc; "{handled} {outcome:?}")?)
}

/// The place after `Hello`, whose text has the key 2.
fn behind_text() -> PointRef {
    PointRef {
        node: Reference::Key(Key(2)),
        offset: 5,
        kind: PointKind::Text,
    }
}

/// Puts the caret after the text, as a click does.
pub(crate) fn click(alloc: Global, editor: &mut Editor) -> Result<String> {
    room(editor)?;
    let caret = SelectionRef::Range {
        anchor: behind_text(),
        focus: behind_text(),
        format: None,
    };
    let steps = vec![in alloc; Step::Select(caret)]?;
    let outcome = editor.update(alloc, steps.as_slice(), Tags::none(), 1000)?;
    told(alloc, &outcome)
}

/// Types at the caret.
pub(crate) fn type_text(alloc: Global, editor: &mut Editor) -> Result<String> {
    room(editor)?;
    dispatch(alloc, editor, "insert-text", ", world")
}

/// Dispatches a command that a listener handles.
pub(crate) fn sign(alloc: Global, editor: &mut Editor) -> Result<String> {
    room(editor)?;
    dispatch(alloc, editor, "sign", "us")
}

pub(crate) fn undo(alloc: Global, editor: &mut Editor) -> Result<String> {
    room(editor)?;
    let outcome = editor.undo(alloc, 5000)?;
    told(alloc, &outcome)
}

pub(crate) fn redo(alloc: Global, editor: &mut Editor) -> Result<String> {
    room(editor)?;
    let outcome = editor.redo(alloc, 6000)?;
    told(alloc, &outcome)
}

/// Undoes, by the call that also redoes.
pub(crate) fn turn_back(alloc: Global, editor: &mut Editor) -> Result<String> {
    room(editor)?;
    let outcome = editor.turn(alloc, Turn::Undo, 9000)?;
    told(alloc, &outcome)
}

/// An update that names a node which isn't there.
pub(crate) fn remove_missing(alloc: Global, editor: &mut Editor) -> Result<String> {
    room(editor)?;
    let steps = vec![in alloc; Step::Remove(Reference::Key(Key(99)))]?;
    let outcome = editor.update(alloc, steps.as_slice(), Tags::none(), 7000)?;
    told(alloc, &outcome)
}

/// Loads a document in place of what is committed.
pub(crate) fn load(alloc: Global, editor: &mut Editor) -> Result<String> {
    room(editor)?;
    let document = serde_json::from_str(alloc, DOCUMENT)?;
    let outcome = editor.load(alloc, &document, Tags::none(), 8000)?;
    told(alloc, &outcome)
}

const DOCUMENT: &str =
    r#"{"root":{"children":[{"type":"paragraph","children":[{"type":"text","text":"Plan"}]}]}}"#;
