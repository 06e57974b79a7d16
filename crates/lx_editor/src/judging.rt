//! What steps, a dispatch or a rule come to, before anything is changed.

ghost use Rattle.std.specs.Prelude.{◌≡◌, true, All, IfOk, OnOk, Option, Result, List, ℕ};
ghost use Rattle.lx_node.specs.declared.cause.Cause.{Cause as CauseOf};
ghost use Rattle.lx_step.specs.Sound.{IsSound};
ghost use Rattle.lx_draft.specs.Covering as drafts;
ghost use Rattle.lx_draft.specs.Faults.{TellsStep};
ghost use Rattle.lx_draft.specs.Working.{Working};
ghost use Rattle.lx_rules.specs.declared.any_rule.AnyRule.{AnyRule as AnyRuleOf};
ghost use Rattle.lx_update.specs.Refusals.{TellsRefusal};
ghost use Rattle.lx_editor.specs.Dispatched.{answer_by};
ghost use Rattle.lx_editor.specs.Editor.{Editor as EditorOf};
ghost use Rattle.lx_editor.specs.Gathering.{started_of};
ghost use Rattle.lx_editor.specs.Judged.{IsLeft, HasGrown, IsJudged, IsAnswerJudged, IsWeighed, IsForCause, is_refused};
ghost use Rattle.lx_forest.specs.Covered.{AreCovered};
ghost use Rattle.lx_reconcile.specs.Allowing.{marking};
ghost use Rattle.lx_editor.specs.Registered.{left_for, left_with};
ghost use Rattle.lx_editor.specs.Updated.{Settled, what_is_left, left_by, rested_by};

use crate::editor::Editor;
use crate::leaving::rest;
use crate::marking::mark_type;
use crate::outcome::Verdict;
use crate::reconciling::reconcile;
use lx_draft::{Draft, Frozen};
use lx_node::{Cause, Fault, NoMemory};
use lx_step::{Command, Step, TypeRow};
use lx_update::{Ending, Refusal, run_dispatch, run_steps};
use std::alloc::Global;

/// The verdict that a refusal is.
pub(crate) fn verdict_of(refusal: Refusal) -> Result<Verdict, NoMemory>
    ensures judged { (left : Result Settled (CauseOf × Option ℕ)) (e : EditorOf) → TellsRefusal refusal left → IfOk result (IsJudged left e) }
    ensures for_cause { OnOk result (IsForCause refusal) }
    ensures refused { IfOk result (λ verdict. is_refused verdict ≡ true) }
{
    match refusal {
        Refusal::Cause { cause, step } => Ok(Verdict::Refused { cause, step }),
        Refusal::Memory => Err(NoMemory),
    }
}

/// The verdict that a fault of what a draft begins with is, for which no step is refused.
pub(crate) fn verdict_of_fault(fault: Fault) -> Result<Verdict, NoMemory>
    ensures judged { (rules : List AnyRuleOf) (begun : Result Working CauseOf) (e : EditorOf) → TellsStep fault begun → IfOk result (IsJudged (left_with rules begun) e) }
    ensures refused { IfOk result (λ verdict. is_refused verdict ≡ true) }
{
    match fault {
        Fault::Cause(cause) => Ok(Verdict::Refused { cause, step: None }),
        Fault::Memory => Err(NoMemory),
    }
}

impl Editor {
    /// What steps come to. It changes nothing.
    pub(crate) fn judge(
        &self,
        alloc: Global,
        draft: Draft,
        steps: &[Step],
    ) -> Result<Verdict, NoMemory>
        requires sound { All IsSound steps.now }
        requires covered { drafts.AreCovered (started_of self.now) draft }
        ensures judged { IfOk result (IsJudged (left_by self.now.rules self.now.listeners steps.now draft) self.now) }
    {
        match run_steps(alloc, &self.bus, draft, steps) {
            Ok(draft) => self.judge_draft(alloc, draft),
            Err(refusal) => verdict_of(refusal),
        }
    }

    /// What a dispatch comes to, and whether the command was handled. While lines are gathered the history doesn't turn. It
    /// changes nothing.
    pub(crate) fn judge_dispatch(
        &self,
        alloc: Global,
        draft: Draft,
        gathering: bool,
        command: &Command,
    ) -> Result<(Verdict, bool), NoMemory>
        requires covered { drafts.AreCovered (started_of self.now) draft }
        ensures { IfOk result (λ told. IsAnswerJudged (answer_by gathering self.now.listeners command.now draft) self.now told.0 told.1) }
    {
        match run_dispatch(alloc, &self.bus, draft, command) {
            Ok(Ending::Left { draft, handled }) => {
                let verdict = self.judge_draft(alloc, draft)?;
                Ok((verdict, handled))
            }
            Ok(Ending::Turned(turn)) => {
                if gathering {
                    let verdict = Verdict::Refused {
                        cause: Cause::HistoryInside,
                        step: Some(0),
                    };
                    return Ok((verdict, false));
                }
                let verdict = self.judge_turn(alloc, turn)?;
                Ok((verdict, true))
            }
            Err(refusal) => {
                let verdict = verdict_of(refusal)?;
                Ok((verdict, false))
            }
        }
    }

    /// What the rules come to where the nodes of a type are marked. It changes nothing.
    pub(crate) fn judge_marked(
        &self,
        alloc: Global,
        mut draft: Draft,
        on: TypeRow,
    ) -> Result<Verdict, NoMemory>
        requires covered { drafts.AreCovered (started_of self.now) draft }
        ensures judged { IfOk result (IsJudged (left_for self.now.rules on draft) self.now) }
    {
        match mark_type(alloc, &mut draft, on) {
            Ok(()) => self.judge_draft(alloc, draft),
            Err(fault) => verdict_of_fault(fault),
        }
    }

    /// What a draft comes to: it comes to rest under the rules, and what it leaves is weighed.
    fn judge_draft(&self, alloc: Global, draft: Draft) -> Result<Verdict, NoMemory>
        requires covered { drafts.AreCovered (started_of self.now) draft }
        ensures judged { IfOk result (IsJudged (rested_by self.now.rules draft) self.now) }
    {
        match rest(alloc, draft, self.rules.as_slice()) {
            Ok(frozen) => self.weigh(alloc, frozen),
            Err(refusal) => verdict_of(refusal),
        }
    }

    /// What is to be done with what is left: it is committed, unless it is nothing new, or the view has no ids to
    /// show it.
    fn weigh(&self, alloc: Global, frozen: Box<Frozen>) -> Result<Verdict, NoMemory>
        requires left { IsLeft (what_is_left self.now.rules frozen.value) }
        requires covered { AreCovered self.now.tree frozen.value.state.links (marking frozen.value.marks) }
        requires grown { HasGrown self.now.tree self.now.next_key (what_is_left self.now.rules frozen.value) }
        ensures weighed { IfOk result (IsWeighed self.now (what_is_left self.now.rules frozen.value)) }
    {
        if frozen.marks.is_empty() && frozen.state.selection.is_equal(&self.state.selection) {
            return Ok(Verdict::Idle);
        }
        let links = &frozen.state.links;
        match reconcile(alloc, &self.state.links, links, &frozen.marks, &self.view) {
            Ok(batch) => Ok(Verdict::Commit {
                frozen,
                batch,
                shown: None,
            }),
            Err(Fault::Cause(cause)) => Ok(Verdict::Refused { cause, step: None }),
            Err(Fault::Memory) => Err(NoMemory),
        }
    }
}
