//! What docs/LIBRARY.md shows of the editor as a library.

ghost use Rattle.std.specs.Prelude.{IfOk, ◌≤◌};

use lx_editor::{Editor, Outcome, answer_line};
use lx_host::Op;
use lx_node::{NoMemory, Txt};
use lx_step::{Step, Tags};
use lx_value::Room;
use std::alloc::Global;

/// An editor with one paragraph.
pub(crate) fn begin(alloc: Global) -> Result<Editor, NoMemory>
    ensures { IfOk result (λ editor. editor.commits ≤ 2) }
{
    let mut editor = Editor::new(alloc, false, 1000)?; // no HTML in replies; typing goes on within 1000 ms
    let steps = vec![in alloc; Step::Append(Txt::new(alloc, "Hello")?)]?;
    let outcome = editor.update(alloc, steps.as_slice(), Tags::none(), 0)?;
    if let Outcome::Committed { ops, .. } = outcome {
        draw(ops.items()); // yours: what a client does to its tree of elements
    }
    let mut room = Room::new(alloc)?; // one is lent to every line
    let _reply = answer_line(alloc, &mut editor, br#"{"show":"view"}"#, &mut room)?; // a line, and the bytes of its reply
    Ok(editor)
}

/// Nothing is drawn here.
fn draw(_ops: &[Op]) {}
