//! Undo and redo: the history goes to another of its states, which is committed.

ghost use Rattle.lx_node.specs.Limits.{last_u32};
ghost use Rattle.std.specs.Prelude.{◌≡◌, IfOk};

use crate::editor::Editor;
use crate::outcome::{Outcome, Verdict};
use crate::pending::forget;
use crate::reconciling::{follow, reconcile};
use crate::recording::Recording;
use crate::saying::Outcomes;
use lx_compare::differences_at;
use lx_draft::State;
use lx_history::History;
use lx_node::{Cause, Fault, NoMemory};
use lx_reconcile::Batch;
use lx_script::{Reply, write_reply};
use lx_step::{Tags, Turn};
use std::alloc::Global;

/// A copy of a state, in a box.
fn boxed_copy(alloc: Global, state: &State) -> Result<Box<State>, NoMemory>
    ensures links { IfOk result (λ made. made.value.links ≡ state.now.links) }
    ensures selection { IfOk result (λ made. made.value.selection ≡ state.now.selection) }
{
    Ok(Box::new(alloc, state.copy(alloc)?)?)
}

impl Editor {
    ghost use Rattle.std.specs.Prelude.{◌+◌, ◌<◌, ◌≤◌, length, OnOk, OnErr};
    ghost use Rattle.lx_step.specs.declared.built_in.Turn.TheVariants as way;
    ghost use Rattle.lx_script.specs.Replies.{reply_text};
    ghost use Rattle.lx_script.specs.declared.reply.Reply.TheVariants.{Cleared};
    ghost use Rattle.lx_editor.specs.Standing.{IsEntry, EachEntry};
    ghost use Rattle.lx_editor.specs.Gathering.{with_nothing_pending};
    ghost use Rattle.lx_editor.specs.Turned.{IsTurned, IsTurnedAlone, IsTurnedBy, with_nothing_recorded};
    ghost use Rattle.lx_editor.specs.Judged.{MayTurn, IsTurnJudged};

    /// Undoes, or redoes: the history's next entry is committed as it was recorded, its tree and its selection, whatever
    /// was written since. No rule is asked, and no key is given out again. The time is in milliseconds; no typing goes on
    /// after it. It is idle exactly where there is no entry to go to; for a redo that is where nothing was undone, or
    /// something was written and pushed since. It is refused, as `TooLarge` with the limit `hosts`, only where the view
    /// has no ids for the entry's nodes. While lines are gathered it is refused as `HistoryInside`, and they are dropped.
    /// After a refusal, or where memory runs out, the editor is as it was in all else.
    #[tactic(auto, unfolding(crate::specs::Turned::IsTurnedAlone))]
    pub fn turn(&mut self, alloc: Global, turn: Turn, moment: u64) -> Result<Outcome, NoMemory>
        requires room { self.old.commits < last_u32 }
        ensures turned { IfOk result (λ outcome. IsTurnedAlone turn moment self.old outcome self.new) }
        ensures commits { self.new.commits ≤ self.old.commits + 1 }
        ensures unchanged { OnErr result (self.new ≡ with_nothing_pending self.old) }
    {
        let gathering = self.gathered() > 0;
        forget(&mut self.pending);
        if gathering {
            return Ok(Outcome::Refused {
                cause: Cause::HistoryInside,
                step: None,
            });
        }
        self.turn_alone(alloc, turn, moment)
    }

    /// Undoes: `turn` with `Turn::Undo`.
    pub fn undo(&mut self, alloc: Global, moment: u64) -> Result<Outcome, NoMemory>
        requires room { self.old.commits < last_u32 }
        ensures turned { IfOk result (λ outcome. IsTurnedAlone way.Undo moment self.old outcome self.new) }
        ensures commits { self.new.commits ≤ self.old.commits + 1 }
        ensures unchanged { OnErr result (self.new ≡ with_nothing_pending self.old) }
    {
        self.turn(alloc, Turn::Undo, moment)
    }

    /// Redoes: `turn` with `Turn::Redo`.
    pub fn redo(&mut self, alloc: Global, moment: u64) -> Result<Outcome, NoMemory>
        requires room { self.old.commits < last_u32 }
        ensures turned { IfOk result (λ outcome. IsTurnedAlone way.Redo moment self.old outcome self.new) }
        ensures commits { self.new.commits ≤ self.old.commits + 1 }
        ensures unchanged { OnErr result (self.new ≡ with_nothing_pending self.old) }
    {
        self.turn(alloc, Turn::Redo, moment)
    }

    /// Goes to another state of the history where no lines are gathered.
    fn turn_alone(&mut self, alloc: Global, turn: Turn, moment: u64) -> Result<Outcome, NoMemory>
        requires room { self.old.commits < last_u32 }
        ensures turned { IfOk result (λ outcome. IsTurnedBy turn moment self.old outcome self.new) }
        ensures commits { self.new.commits ≤ self.old.commits + 1 }
        ensures unchanged { OnErr result (self.new ≡ self.old) }
    {
        let verdict = self.judge_turn(alloc, turn)?;
        let tags = Tags::none();
        let mut outcomes = Outcomes;
        self.conclude(
            alloc,
            verdict,
            None,
            Recording { tags, moment },
            &mut outcomes,
        )
    }

    /// What an undo or a redo comes to. It changes nothing.
    pub(crate) fn judge_turn(&self, alloc: Global, turn: Turn) -> Result<Verdict, NoMemory>
        ensures { IfOk result (IsTurnJudged turn self.now) }
    {
        let Some(entry) = self.history.entry_at(turn) else {
            return Ok(Verdict::Idle);
        };
        let state = boxed_copy(alloc, &entry.state)?;
        let links = &state.links;
        let strays = self.history.strays();
        let marks = differences_at(alloc, &self.state.links, links, &entry.places, strays)?;
        match reconcile(alloc, &self.state.links, links, &marks, &self.view) {
            Ok(batch) => {
                let marks = Box::new(alloc, marks)?;
                Ok(Verdict::Turned {
                    turn,
                    state,
                    batch,
                    marks,
                })
            }
            Err(Fault::Cause(cause)) => Ok(Verdict::Refused { cause, step: None }),
            Err(Fault::Memory) => Err(NoMemory),
        }
    }

    /// Commits the history's next entry, a copy of which this state is, with operations for the view. Without memory the
    /// editor is as it was.
    pub(crate) fn commit_entry(
        &mut self,
        alloc: Global,
        turn: Turn,
        state: Box<State>,
        batch: Batch,
        moment: u64,
    ) -> Result<(), NoMemory>
        requires room { self.old.commits < last_u32 }
        requires may { MayTurn self.old turn state.value batch }
        ensures turned { OnOk result (IsTurned turn moment self.old (self.old.commits + 1) batch.ops self.new) }
        ensures commits { OnOk result (self.new.commits ≡ self.old.commits + 1) }
        ensures unchanged { OnErr result (self.new ≡ self.old) }
    {
        let state = Box::into_inner(state);
        let ops = batch.copy_ops(alloc)?;
        self.history.prepare()?;
        follow(&mut self.view, ops)?;
        let _turned = self.history.turn(turn, moment);
        self.state = state;
        forget(&mut self.pending);
        self.commits += 1;
        self.last = Some(batch);
        Ok(())
    }

    /// What is recorded: the states to go back to and forth to, and the current one. Each of them is one tree, in which
    /// its selection lies, whose texts are joined and whose items are numbered.
    pub fn history(&self) -> &History
        ensures history { result.now.history ≡ self.now.history }
        ensures entries { EachEntry (IsEntry self.now.next_key) self.now.history }
    {
        &self.history
    }

    /// How many entries there are to go back to, and to go forth to, at most 500 together.
    pub fn depths(&self) -> (u32, u32)
        ensures told { (result.0 ≡ length self.now.history.undo) × (result.1 ≡ length self.now.history.redo) }
        ensures few { result.0 + result.1 ≤ 500 }
    {
        self.history.depths()
    }

    /// Forgets all that is recorded: there is nothing to go back to or forth to then, and the next commit is pushed. What
    /// is committed stays.
    pub fn clear_history(&mut self)
        ensures { self.new ≡ with_nothing_recorded self.old }
    {
        self.history.clear();
    }

    /// The same, answered with the bytes of a reply, which is made before anything is forgotten.
    pub(crate) fn reply_to_clear(&mut self, alloc: Global) -> Result<Vec<u8>, NoMemory>
        ensures replies { IfOk result (λ reply. reply.items ≡ reply_text Cleared) }
        ensures cleared { OnOk result (self.new ≡ with_nothing_recorded self.old) }
        ensures unchanged { OnErr result (self.new ≡ self.old) }
    {
        let reply = write_reply(alloc, &Reply::Cleared)?;
        self.clear_history();
        Ok(reply)
    }
}
