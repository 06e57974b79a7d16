//! Lines beside a hub: those of its own, and those that go to the editor, whose commits it takes.

ghost use Rattle.std.specs.Prelude.{◌≡◌, ◌≢◌, ◌+◌, ◌<◌, ◌≤◌, ℕ, List, IfOk, OnOk};
ghost use Rattle.serde_json.specs.View.{view as data_of};
ghost use Rattle.lx_node.specs.Limits.{last_u32};
ghost use Rattle.lx_step.specs.Sound.{IsSoundForm};
ghost use Rattle.lx_script.specs.Grammar.{IsJson};
ghost use Rattle.lx_hub.specs.Hub.{published};
ghost use Rattle.lx_editor.specs.Follows.{AnswersLine, RepliesToLine};
ghost use Rattle.lx_serving.specs.Served.{AnswersIn, AreLevel, IsFollowedBy, ops_told, with_hub};
ghost use Rattle.lx_serving.specs.Passing.{AnswersValue, IsAhead, MayFollow};

use crate::asking::sole_member;
use crate::refusing::refuse_for;
use crate::views::answer_about_views;
use lx_editor::Editor;
use lx_hub::Hub;
use lx_node::NoMemory;
use lx_script::{line_of, read_value};
use lx_step::Line;
use lx_value::Room;
use serde_json::Value;
use std::alloc::Global;

/// Answers a line of bytes, which is one of the hub's own or goes to the editor.
#[tactic(auto, using(crate::proofs::Following::beside_value, crate::proofs::Following::beside_no_json))]
pub(crate) fn answer_beside(
    alloc: Global,
    editor: &mut Editor,
    hub: &mut Hub,
    line: &[u8],
    room: &mut Room,
) -> Result<Vec<u8>, NoMemory>
    requires level { AreLevel editor.old hub.old }
    requires room { editor.old.commits + hub.old.made < last_u32 }
    ensures answer { IfOk result (λ reply. AnswersIn (with_hub editor.old hub.old) line.now reply.items (with_hub editor.new hub.new)) }
    ensures level { OnOk result (AreLevel editor.new hub.new) }
    ensures commits { editor.new.commits ≤ editor.old.commits + 1 }
    ensures spent { OnOk result (editor.new.commits + hub.new.made ≤ editor.old.commits + hub.old.made + 1) }
{
    match read_value(alloc, line, room) {
        Ok(value) => answer_value(alloc, editor, hub, value),
        Err(fault) => refuse_for(alloc, fault),
    }
}

/// Answers the value of a line.
fn answer_value(
    alloc: Global,
    editor: &mut Editor,
    hub: &mut Hub,
    value: Value,
) -> Result<Vec<u8>, NoMemory>
    requires level { AreLevel editor.old hub.old }
    requires room { editor.old.commits + hub.old.made < last_u32 }
    ensures answer { IfOk result (λ reply. AnswersValue (data_of value) editor.old hub.old reply.items editor.new hub.new) }
    ensures level { OnOk result (AreLevel editor.new hub.new) }
    ensures commits { editor.new.commits ≤ editor.old.commits + 1 }
    ensures spent { OnOk result (editor.new.commits + hub.new.made ≤ editor.old.commits + hub.old.made + 1) }
{
    match sole_member("hub", &value) {
        Some(asked) => answer_about_views(alloc, hub, asked),
        None => pass_on(alloc, editor, hub, value),
    }
}

/// Has the editor answer the value of a line, and the hub take what that committed.
#[tactic(auto, using(crate::proofs::Following::answers_line, crate::proofs::Following::answers_refused))]
fn pass_on(
    alloc: Global,
    editor: &mut Editor,
    hub: &mut Hub,
    value: Value,
) -> Result<Vec<u8>, NoMemory>
    requires level { AreLevel editor.old hub.old }
    requires room { editor.old.commits < last_u32 }
    ensures answers { IfOk result (λ reply. (line : List ℕ) → IsJson line (data_of value) → AnswersLine editor.old line reply.items editor.new) }
    ensures followed { OnOk result (IsFollowedBy editor.old editor.new hub.old hub.new) }
    ensures level { OnOk result (AreLevel editor.new hub.new) }
    ensures commits { editor.new.commits ≤ editor.old.commits + 1 }
    ensures made { OnOk result (hub.new.made ≡ hub.old.made) }
{
    match line_of(alloc, value) {
        Ok(line) => pass_line(alloc, editor, hub, line),
        Err(fault) => refuse_for(alloc, fault),
    }
}

/// Has the editor do what a line asks for, and the hub take what that committed.
fn pass_line(
    alloc: Global,
    editor: &mut Editor,
    hub: &mut Hub,
    line: Line,
) -> Result<Vec<u8>, NoMemory>
    requires sound { IsSoundForm line.form }
    requires level { AreLevel editor.old hub.old }
    requires room { editor.old.commits < last_u32 }
    ensures replies { IfOk result (λ reply. RepliesToLine editor.old line reply.items editor.new) }
    ensures followed { OnOk result (IsFollowedBy editor.old editor.new hub.old hub.new) }
    ensures level { OnOk result (AreLevel editor.new hub.new) }
    ensures commits { editor.new.commits ≤ editor.old.commits + 1 }
    ensures made { OnOk result (hub.new.made ≡ hub.old.made) }
{
    let before = editor.commits();
    let reply = editor.line(alloc, line)?;
    follow(alloc, editor, hub, before)?;
    Ok(reply)
}

/// Publishes the editor's last commit, if it is one more than there were before.
fn follow(alloc: Global, editor: &Editor, hub: &mut Hub, before: u32) -> Result<(), NoMemory>
    requires may { MayFollow before editor.now hub.old }
    requires room { hub.old.commits < last_u32 }
    ensures published { editor.now.commits ≢ before → OnOk result (hub.new ≡ published (ops_told editor.now.last) hub.old) }
    ensures same { editor.now.commits ≡ before → OnOk result (hub.new ≡ hub.old) }
    ensures level { OnOk result (AreLevel editor.now hub.new) }
    ensures made { OnOk result (hub.new.made ≡ hub.old.made) }
{
    if editor.commits() == before {
        return Ok(());
    }
    publish_last(alloc, editor, hub)
}

/// Publishes the editor's last commit, which the hub has not taken yet.
fn publish_last(alloc: Global, editor: &Editor, hub: &mut Hub) -> Result<(), NoMemory>
    requires ahead { IsAhead editor.now hub.old }
    requires room { hub.old.commits < last_u32 }
    ensures published { OnOk result (hub.new ≡ published (ops_told editor.now.last) hub.old) }
    ensures level { OnOk result (AreLevel editor.now hub.new) }
    ensures made { OnOk result (hub.new.made ≡ hub.old.made) }
{
    match editor.last_batch() {
        Some(batch) => {
            let ops = batch.copy_ops(alloc)?;
            hub.publish(ops)
        }
        None => Ok(()),
    }
}
