//! What a line's commit changes, for a layer beside the editor.

ghost use Rattle.lx_node.specs.Limits.{last_u32};
ghost use Rattle.std.specs.Prelude.{[], ◌∷◌, ◌≡◌, ◌+◌, ◌<◌, IfOk};
ghost use Rattle.lx_forest.specs.Lookups.{roots, IsForest};
ghost use Rattle.lx_script.specs.Replies.{reply_text};
ghost use Rattle.lx_script.specs.declared.reply.Reply.TheVariants.{Committed};
ghost use Rattle.lx_editor.specs.Follows.{html_told};
ghost use Rattle.lx_editor.specs.Judged.{covering};

use crate::editor::Editor;
use crate::saying::Saying;
use lx_draft::{Frozen, State};
use lx_host::Op;
use lx_marks::Marks;
use lx_node::{Cause, NoMemory, Txt};
use lx_reconcile::{Batch, fresh};
use lx_script::{Reply, write_commit, write_reply};
use std::alloc::Global;

/// What a commit changed: the operations that bring a view up to date, which its reply lists too, the state that was
/// committed before, and marks that cover the trees before and after.
pub struct Change {
    pub ops: Vec<Op>,
    pub before: State,
    pub marks: Marks,
}

// Written out, so that who drops one calls this.
impl Drop for Change {
    fn drop(self) {
        let Change { ops, before, marks } = self;
        drop(ops);
        drop(before);
        drop(marks);
    }
}

/// Says an outcome as the bytes of a reply. Whether the change of a line is asked for, and what it is, once the line
/// commits.
#[derive(Drop)]
pub(crate) struct Telling {
    pub(crate) asked: bool,
    pub(crate) change: Option<Change>,
}

/// The marks that cover the trees before and after: these, where a document was loaded, and else those of what is frozen.
pub(crate) fn covering<'a>(frozen: &'a Frozen, shown: &'a Option<Box<Marks>>) -> &'a Marks
    ensures { result.now ≡ covering frozen.now shown.now }
{
    match shown {
        Some(marks) => marks.as_ref(),
        None => &frozen.marks,
    }
}

/// The HTML of a state's rendering, where it is asked for.
fn view_of(alloc: Global, state: &State, is_told: bool) -> Result<Option<Txt>, NoMemory>
    requires alone { roots state.now.links ≡ 0 ∷ [] }
    requires order { IsForest state.now.links }
    ensures { IfOk result (λ html. html ≡ html_told is_told state.now.links) }
{
    if !is_told {
        return Ok(None);
    }
    let html = fresh(alloc, state)?.print_html()?;
    Ok(Some(html))
}

/// The reply to the commit of a state with these operations.
fn commit_reply(
    alloc: Global,
    editor: &Editor,
    next: &State,
    batch: &Batch,
    handled: Option<bool>,
) -> Result<Vec<u8>, NoMemory>
    requires room { editor.now.commits < last_u32 }
    requires alone { roots next.now.links ≡ 0 ∷ [] }
    requires order { IsForest next.now.links }
    ensures { IfOk result (λ reply. reply.items ≡ reply_text (Committed (editor.now.commits + 1) batch.now.ops handled (html_told editor.now.tells_view next.now.links))) }
{
    let view = view_of(alloc, next, editor.tells_view)?;
    write_commit(alloc, editor.next_commit(), batch.ops(), handled, &view)
}

impl Telling {
    ghost use Rattle.std.specs.Prelude.{None, Some, OnOk};
    ghost use Rattle.lx_editor.specs.Changes.{IsNoted};

    pub(crate) fn new(asked: bool) -> Telling
        ensures asked { result.asked ≡ asked }
        ensures none { result.change ≡ None }
    {
        Telling {
            asked,
            change: None,
        }
    }

    /// Notes what a commit changes of a state, where it is asked for. What is large is copied only then.
    fn note(
        &mut self,
        alloc: Global,
        before: &State,
        batch: &Batch,
        marks: &Marks,
    ) -> Result<(), NoMemory>
        ensures { OnOk result (IsNoted self.old.asked batch.now.ops before.now marks.now self.new.change) }
    {
        if !self.asked {
            return Ok(());
        }
        let ops = batch.copy_ops(alloc)?.into_vec();
        let before = before.copy(alloc)?;
        let marks = marks.copy()?;
        self.set(Change { ops, before, marks });
        Ok(())
    }

    fn set(&mut self, change: Change)
        ensures asked { self.new.asked ≡ self.old.asked }
        ensures change { self.new.change ≡ Some change }
    {
        self.change = Some(change);
    }
}

impl Saying for Telling {
    type Said = Vec<u8>;

    ghost use Rattle.lx_editor.specs.Saying.{IsSaid};

    ghost tells = { λ telling handled old outcome new said after. IsSaid telling handled old outcome new said.items after.change };

    fn say_commit(
        &mut self,
        alloc: Global,
        editor: &Editor,
        next: &State,
        batch: &Batch,
        marks: &Marks,
        handled: Option<bool>,
    ) -> Result<Vec<u8>, NoMemory> {
        let reply = commit_reply(alloc, editor, next, batch, handled)?;
        self.note(alloc, editor.state(), batch, marks)?;
        Ok(reply)
    }

    fn say_refused(
        &mut self,
        alloc: Global,
        cause: Cause,
        step: Option<u32>,
    ) -> Result<Vec<u8>, NoMemory> {
        write_reply(alloc, &Reply::Refused { cause, step })
    }

    fn say_idle(&mut self, alloc: Global, handled: Option<bool>) -> Result<Vec<u8>, NoMemory> {
        write_reply(alloc, &Reply::Idle { handled })
    }

    fn say_gathered(&mut self, alloc: Global, count: u32) -> Result<Vec<u8>, NoMemory> {
        write_reply(alloc, &Reply::Gathered(count))
    }
}
