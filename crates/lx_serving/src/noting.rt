//! Lines beside an outline: those about it, and those that go to the editor, whose commits it follows.

ghost use Rattle.std.specs.Prelude.{◌≡◌, ◌+◌, ◌<◌, ◌≤◌, ℕ, List, IfOk, OnOk};
ghost use Rattle.serde_json.specs.View.{view as data_of};
ghost use Rattle.lx_node.specs.Limits.{last_u32};
ghost use Rattle.lx_step.specs.Sound.{IsSoundForm};
ghost use Rattle.lx_script.specs.Grammar.{IsJson};
ghost use Rattle.lx_outline.specs.Outline.{IsOutlineOf};
ghost use Rattle.lx_editor.specs.Follows.{AnswersLine, RepliesToLine};
ghost use Rattle.lx_serving.specs.Outlining.{IsWithin};
ghost use Rattle.lx_serving.specs.Served.{AnswersIn, IsNotedBy, with_outline};
ghost use Rattle.lx_serving.specs.Passing.{NotesValue};

use crate::asking::sole_member;
use crate::outlined::Outlined;
use crate::refusing::refuse_for;
use crate::telling::answer_about_outline;
use lx_draft::State;
use lx_editor::Editor;
use lx_node::NoMemory;
use lx_script::{line_of, read_value};
use lx_step::Line;
use lx_value::Room;
use serde_json::Value;
use std::alloc::Global;

/// Answers a line of bytes, which is about the outline or goes to the editor.
#[tactic(auto, using(crate::proofs::Noted::noted_value, crate::proofs::Noted::noted_no_json))]
pub(crate) fn answer_beside_outline(
    alloc: Global,
    editor: &mut Editor,
    outlined: &mut Outlined,
    line: &[u8],
    room: &mut Room,
) -> Result<Vec<u8>, NoMemory>
    requires outline { IsOutlineOf outlined.old.outline editor.old.tree }
    requires room { editor.old.commits < last_u32 }
    ensures answer { IfOk result (λ reply. AnswersIn (with_outline editor.old outlined.old) line.now reply.items (with_outline editor.new outlined.new)) }
    ensures outline { OnOk result (IsOutlineOf outlined.new.outline editor.new.tree) }
    ensures commits { editor.new.commits ≤ editor.old.commits + 1 }
{
    match read_value(alloc, line, room) {
        Ok(value) => answer_value(alloc, editor, outlined, value),
        Err(fault) => refuse_for(alloc, fault),
    }
}

/// Answers the value of a line.
fn answer_value(
    alloc: Global,
    editor: &mut Editor,
    outlined: &mut Outlined,
    value: Value,
) -> Result<Vec<u8>, NoMemory>
    requires outline { IsOutlineOf outlined.old.outline editor.old.tree }
    requires room { editor.old.commits < last_u32 }
    ensures answer { IfOk result (λ reply. NotesValue (data_of value) editor.old outlined.old reply.items editor.new outlined.new) }
    ensures outline { OnOk result (IsOutlineOf outlined.new.outline editor.new.tree) }
    ensures commits { editor.new.commits ≤ editor.old.commits + 1 }
{
    match sole_member("ask", &value) {
        Some(asked) => answer_about_outline(alloc, outlined, editor.state(), asked),
        None => pass_on(alloc, editor, outlined, value),
    }
}

/// Has the editor answer the value of a line, and the outline follow what that committed.
#[tactic(auto, using(crate::proofs::Following::answers_line, crate::proofs::Following::answers_refused))]
fn pass_on(
    alloc: Global,
    editor: &mut Editor,
    outlined: &mut Outlined,
    value: Value,
) -> Result<Vec<u8>, NoMemory>
    requires outline { IsOutlineOf outlined.old.outline editor.old.tree }
    requires room { editor.old.commits < last_u32 }
    ensures answers { IfOk result (λ reply. (line : List ℕ) → IsJson line (data_of value) → AnswersLine editor.old line reply.items editor.new) }
    ensures noted { OnOk result (IsNotedBy editor.old editor.new outlined.old outlined.new) }
    ensures commits { editor.new.commits ≤ editor.old.commits + 1 }
{
    match line_of(alloc, value) {
        Ok(line) => pass_line(alloc, editor, outlined, line),
        Err(fault) => refuse_for(alloc, fault),
    }
}

/// Has the editor do what a line asks for, and the outline follow what that committed.
fn pass_line(
    alloc: Global,
    editor: &mut Editor,
    outlined: &mut Outlined,
    line: Line,
) -> Result<Vec<u8>, NoMemory>
    requires sound { IsSoundForm line.form }
    requires outline { IsOutlineOf outlined.old.outline editor.old.tree }
    requires room { editor.old.commits < last_u32 }
    ensures replies { IfOk result (λ reply. RepliesToLine editor.old line reply.items editor.new) }
    ensures noted { OnOk result (IsNotedBy editor.old editor.new outlined.old outlined.new) }
    ensures commits { editor.new.commits ≤ editor.old.commits + 1 }
{
    let _before = committed(editor);
    let (reply, change) = editor.line_with_change(alloc, line)?;
    let Some(change) = change else {
        return Ok(reply);
    };
    outlined.follow(alloc, &change, committed(editor))?;
    Ok(reply)
}

/// The state that is committed, which is within the limits.
fn committed(editor: &Editor) -> &State
    ensures tree { result.now.links ≡ editor.now.tree }
    ensures within { IsWithin editor.now.tree }
{
    editor.state()
}
