//! Updates that wait for a call which commits them all together.

use crate::editing::{room, told};
use anyhow::{Context, Result};
use lx_editor::Editor;
use lx_node::Txt;
use lx_step::{Form, Line, Step, Tags};
use std::alloc::Global;

/// Appends a paragraph, which waits.
pub(crate) fn defer(alloc: Global, editor: &mut Editor, text: &str) -> Result<String> {
    let steps = vec![in alloc; Step::Append(Txt::new(alloc, text)?)]?;
    let outcome = editor.defer(alloc, steps.as_slice(), Tags::none(), 9000)?;
    told(alloc, &outcome)
}

/// Commits what waits.
pub(crate) fn flush(alloc: Global, editor: &mut Editor) -> Result<String> {
    room(editor)?;
    let outcome = editor.flush(alloc, Tags::none(), 9000)?;
    told(alloc, &outcome)
}

/// Commits what waits by a line, and says what that changed: how many nodes there were and are, and by how many operations.
pub(crate) fn flush_by_line(alloc: Global, editor: &mut Editor) -> Result<String> {
    room(editor)?;
    let line = Line {
        at: None,
        tags: Tags::none(),
        form: Form::Flush,
    };
    let (_reply, change) = editor.line_with_change(alloc, line)?;
    let change = change.context("nothing was committed")?;
    let before = change.before.links.len();
    let after = editor.state().links.len();
    let operations = change.ops.len();
    Ok(format!(in alloc; "{before} to {after} nodes, {operations} operations")?)
}
