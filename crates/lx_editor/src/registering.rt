//! Rules: how one is added after the others.

ghost use Rattle.lx_node.specs.Limits.{last_u32};
ghost use Rattle.std.specs.Prelude.{◌≡◌, IfOk};
ghost use Rattle.lx_editor.specs.Editor.{standing_rules};
ghost use Rattle.lx_editor.specs.Registered.{merging};
ghost use Rattle.lx_editor.specs.Gathering.{recording};

use crate::editor::Editor;
use crate::outcome::Outcome;
use crate::recording::Recording;
use crate::saying::{Outcomes, Saying, say_refusal};
use lx_draft::Draft;
use lx_node::{Cause, NoMemory};
use lx_rules::{AnyRule, CellParagraph, ListMerge};
use lx_step::{Rule, Tags, TypeRow};
use lx_update::Refusal;
use std::alloc::Global;

/// The most rules that an editor has: 256 that were registered, and the two that are built in.
const MOST_RULES: usize = 258;

/// The rules that an editor has from the beginning.
pub(crate) fn built_in_rules(alloc: Global) -> Result<Vec<AnyRule>, NoMemory>
    ensures { IfOk result (λ rules. rules.items ≡ standing_rules) }
{
    let mut rules = Vec::new(alloc);
    rules.push(AnyRule::Merge(ListMerge))?;
    rules.push(AnyRule::Fill(CellParagraph))?;
    Ok(rules)
}

/// What is made of the state goes into the history's current entry.
fn merged_at(moment: u64) -> Recording
    ensures { result ≡ recording merging moment }
{
    let tags = Tags {
        historic: false,
        merge: true,
        push: false,
    };
    Recording { tags, moment }
}

impl Editor {
    ghost use Rattle.std.specs.Prelude.{ℕ, ◌+◌, ◌<◌, ◌≤◌, false, Option, None, OnOk, OnErr, IfErr};
    ghost use Rattle.lx_node.specs.declared.cause.Cause.{Cause as CauseOf};
    ghost use Rattle.lx_update.specs.declared.refusal.Refusal.TheVariants as why;
    ghost use Rattle.lx_editor.specs.declared.outcome.Outcome.{Outcome as OutcomeOf};
    ghost use Rattle.lx_editor.specs.declared.outcome.Verdict.{Verdict as VerdictOf};
    ghost use Rattle.lx_editor.specs.declared.outcome.Verdict.TheVariants as verdicts;
    ghost use Rattle.lx_editor.specs.Updated.{IsMadeOf};
    ghost use Rattle.lx_step.specs.declared.rule.Rule.{Rule as RuleOf};
    ghost use Rattle.lx_editor.specs.Editor.{Editor as EditorOf};
    ghost use Rattle.lx_editor.specs.Registered.{IsRegistered, left_for, unless_full, with_one_more, with_rule};
    ghost use Rattle.lx_draft.specs.Covering.{AreCovered};
    ghost use Rattle.lx_editor.specs.Gathering.{started_of};
    ghost use Rattle.lx_editor.specs.Judged.{IsConcluded, IsJudged, is_refused};
    ghost use Rattle.lx_editor.specs.Changes.{IsUncommitted};

    /// Registers a rule after those that are registered. All nodes of its type in the tree are marked, which
    /// takes no count, and come to rest under all rules; what that makes of the state is committed, and goes into the
    /// history's current entry at this time, in milliseconds. Where there
    /// is no such node the answer is Idle, and the rule is registered. A refusal gives no step and leaves the
    /// rule unregistered: as `TooManyRules` where 256 are registered, as `NoRest`, `StepLimit` or `TooLarge`
    /// where the rules don't come to rest, and else as an update is. Updates that wait are taken in, as an update takes them
    /// in, but where the rule is one too many. Where memory runs out nothing is pending, and the editor is as it was in
    /// all else.
    pub fn register_rule(
        &mut self,
        alloc: Global,
        rule: Rule,
        moment: u64,
    ) -> Result<Outcome, NoMemory>
        requires room { self.old.commits < last_u32 }
        ensures registered { IfOk result (λ outcome. IsRegistered self.old rule moment outcome self.new) }
        ensures commits { self.new.commits ≤ self.old.commits + 1 }
        ensures unchanged { OnErr result (self.new ≡ unless_full self.old) }
    {
        let mut outcomes = Outcomes;
        self.register_saying(alloc, rule, moment, &mut outcomes)
    }

    /// The same, said by a sayer.
    #[tactic(auto, unfolding(crate::specs::Registered::IsRegistered))]
    pub(crate) fn register_saying<S: Saying>(
        &mut self,
        alloc: Global,
        rule: Rule,
        moment: u64,
        sayer: &mut S,
    ) -> Result<S::Said, NoMemory>
        requires room { self.old.commits < last_u32 }
        ensures registered { IfOk result (λ said. (outcome : OutcomeOf) × IsRegistered self.old rule moment outcome self.new × S.tells sayer.old None self.old outcome self.new said sayer.new) }
        ensures commits { self.new.commits ≤ self.old.commits + 1 }
        ensures unchanged { OnErr result (self.new ≡ unless_full self.old) }
    {
        let how = self.recording(merged_at(moment));
        if self.rules.len() >= MOST_RULES {
            return sayer.say_refused(alloc, Cause::TooManyRules, None);
        }
        let draft = self.take_draft(alloc)?;
        self.add_saying(alloc, draft, rule, how, sayer)
    }

    /// Puts a rule after the others, and commits what all of them come to where the nodes of its type are marked. The rule is
    /// given up where that is refused, or where memory runs out.
    fn add_saying<S: Saying>(
        &mut self,
        alloc: Global,
        draft: Draft,
        rule: Rule,
        how: Recording,
        sayer: &mut S,
    ) -> Result<S::Said, NoMemory>
        requires room { self.old.commits < last_u32 }
        requires covered { AreCovered (started_of self.old) draft }
        ensures made { IfOk result (λ said. (outcome : OutcomeOf) × IsMadeOf (left_for (with_rule self.old.rules rule) rule.on draft) self.old how outcome self.new × ((old : EditorOf) → IsUncommitted old self.old → S.tells sayer.old None old outcome self.new said sayer.new)) }
        ensures commits { self.new.commits ≤ self.old.commits + 1 }
        ensures unchanged { OnErr result (self.new ≡ self.old) }
    {
        let on = rule.on;
        self.add_rule(rule)?;
        match self.conclude_marked(alloc, draft, on, how, sayer) {
            Ok(said) => Ok(said),
            Err(refusal) => {
                self.forget_rule();
                say_refusal(alloc, refusal, sayer)
            }
        }
    }

    /// Commits what the rules come to where the nodes of a type are marked. A refusal isn't said here.
    fn conclude_marked<S: Saying>(
        &mut self,
        alloc: Global,
        draft: Draft,
        on: TypeRow,
        how: Recording,
        sayer: &mut S,
    ) -> Result<S::Said, Refusal>
        requires room { self.old.commits < last_u32 }
        requires covered { AreCovered (started_of self.old) draft }
        ensures made { IfOk result (λ said. (verdict : VerdictOf) × (outcome : OutcomeOf) × IsJudged (left_for self.old.rules on draft) self.old verdict × (is_refused verdict ≡ false) × IsConcluded self.old how verdict outcome self.new × ((old : EditorOf) → IsUncommitted old self.old → S.tells sayer.old None old outcome self.new said sayer.new)) }
        ensures refused { IfErr result (λ e. (cause : CauseOf) (step : Option ℕ) → e ≡ why.Cause cause step → IsJudged (left_for self.old.rules on draft) self.old (verdicts.Refused cause step) × (sayer.new ≡ sayer.old)) }
        ensures commits { self.new.commits ≤ self.old.commits + 1 }
        ensures unchanged { OnErr result (self.new ≡ self.old) }
    {
        let judged = match self.judge_marked(alloc, draft, on) {
            Ok(judged) => judged,
            Err(NoMemory) => return Err(Refusal::Memory),
        };
        let verdict = match judged.or_refusal() {
            Ok(verdict) => verdict,
            Err(refusal) => return Err(refusal),
        };
        match self.conclude(alloc, verdict, None, how, sayer) {
            Ok(said) => Ok(said),
            Err(NoMemory) => Err(Refusal::Memory),
        }
    }

    /// Puts a rule after the others.
    fn add_rule(&mut self, rule: Rule) -> Result<(), NoMemory>
        ensures added { OnOk result (self.new ≡ with_one_more rule self.old) }
        ensures unchanged { OnErr result (self.new ≡ self.old) }
    {
        self.rules.push(AnyRule::Script(rule))?;
        Ok(())
    }

    /// Takes the last rule away.
    fn forget_rule(&mut self)
        ensures { (e : EditorOf) (rule : RuleOf) → self.old ≡ with_one_more rule e → self.new ≡ e }
    {
        let _rule = self.rules.pop();
    }
}
