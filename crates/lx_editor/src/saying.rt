//! How the outcome of a request is told: as a value, or as the bytes of a reply. It is told before anything is committed,
//! so that where memory runs out for it the editor is as it was.

ghost use Rattle.lx_node.specs.Limits.{last_u32};
ghost use Rattle.std.specs.Prelude.{[], ◌∷◌, ◌≡◌, ◌+◌, ◌<◌, ℕ, Bool, None, Option, IfOk};
ghost use Rattle.lx_node.specs.declared.cause.Cause.{Cause as CauseOf};
ghost use Rattle.lx_forest.specs.Lookups.{roots, IsForest};
ghost use Rattle.lx_update.specs.declared.refusal.Refusal.TheVariants as why;
ghost use Rattle.lx_editor.specs.declared.outcome.Outcome.{Outcome as OutcomeOf};
ghost use Rattle.lx_editor.specs.declared.outcome.Outcome.TheVariants as made;
ghost use Rattle.lx_editor.specs.Editor.{Editor as EditorOf};
ghost use Rattle.lx_editor.specs.Changes.{IsUncommitted};
ghost use Rattle.lx_editor.specs.Saying.{HasCommitted};

use crate::editor::Editor;
use crate::outcome::Outcome;
use lx_draft::State;
use lx_marks::Marks;
use lx_node::{Cause, NoMemory};
use lx_reconcile::Batch;
use lx_update::Refusal;
use std::alloc::Global;

/// Who says what comes of a request.
pub(crate) trait Saying: Drop {
    /// What is said.
    type Said: Drop;

    /// This is said of the outcome and, for a dispatch, of whether the command was handled, between an editor before and one
    /// after.
    ghost tells: { Self → Option Bool → EditorOf → OutcomeOf → EditorOf → Self.Said → Self → Type 0 };

    /// Says that the editor commits a state next, with operations for the view, and marks that cover the trees before and
    /// after.
    fn say_commit(
        &mut self,
        alloc: Global,
        editor: &Editor,
        next: &State,
        batch: &Batch,
        marks: &Marks,
        handled: Option<bool>,
    ) -> Result<Self::Said, NoMemory>
        requires room { editor.now.commits < last_u32 }
        requires alone { roots next.now.links ≡ 0 ∷ [] }
        requires order { IsForest next.now.links }
        ensures said { IfOk result (λ said. (old new : EditorOf) → IsUncommitted old editor.now → HasCommitted editor.now next.now batch.now.ops marks.now new → tells self.old handled old (made.Committed (editor.now.commits + 1) batch.now.ops) new said self.new) };

    /// Says that the request is refused. Whether a command was handled isn't said then.
    fn say_refused(
        &mut self,
        alloc: Global,
        cause: Cause,
        step: Option<u32>,
    ) -> Result<Self::Said, NoMemory>
        ensures said { IfOk result (λ said. (handled : Option Bool) (old new : EditorOf) → IsUncommitted old new → tells self.old handled old (made.Refused cause step) new said self.new) };

    /// Says that it asks for nothing new.
    fn say_idle(&mut self, alloc: Global, handled: Option<bool>) -> Result<Self::Said, NoMemory>
        ensures said { IfOk result (λ said. (old new : EditorOf) → IsUncommitted old new → tells self.old handled old made.Idle new said self.new) };

    /// Says that it waits, and how many do.
    fn say_gathered(&mut self, alloc: Global, count: u32) -> Result<Self::Said, NoMemory>
        ensures said { IfOk result (λ said. (old new : EditorOf) → IsUncommitted old new → tells self.old None old (made.Gathered count) new said self.new) };
}

/// Says a refusal, where memory didn't run out.
pub(crate) fn say_refusal<S: Saying>(
    alloc: Global,
    refusal: Refusal,
    sayer: &mut S,
) -> Result<S::Said, NoMemory>
    ensures said { IfOk result (λ said. (cause : CauseOf) × (step : Option ℕ) × (refusal ≡ why.Cause cause step) × ((old new : EditorOf) → IsUncommitted old new → S.tells sayer.old None old (made.Refused cause step) new said sayer.new)) }
{
    match refusal {
        Refusal::Cause { cause, step } => sayer.say_refused(alloc, cause, step),
        Refusal::Memory => Err(NoMemory),
    }
}

/// Says an outcome as it is.
#[derive(Drop)]
pub(crate) struct Outcomes;

impl Saying for Outcomes {
    type Said = Outcome;

    ghost tells = { λ sayer handled old outcome new said after. said ≡ outcome };

    fn say_commit(
        &mut self,
        alloc: Global,
        editor: &Editor,
        _next: &State,
        batch: &Batch,
        _marks: &Marks,
        _handled: Option<bool>,
    ) -> Result<Outcome, NoMemory> {
        let number = editor.next_commit();
        let ops = batch.copy_ops(alloc)?;
        Ok(Outcome::Committed { number, ops })
    }

    fn say_refused(
        &mut self,
        _alloc: Global,
        cause: Cause,
        step: Option<u32>,
    ) -> Result<Outcome, NoMemory> {
        Ok(Outcome::Refused { cause, step })
    }

    fn say_idle(&mut self, _alloc: Global, _handled: Option<bool>) -> Result<Outcome, NoMemory> {
        Ok(Outcome::Idle)
    }

    fn say_gathered(&mut self, _alloc: Global, count: u32) -> Result<Outcome, NoMemory> {
        Ok(Outcome::Gathered { count })
    }
}
