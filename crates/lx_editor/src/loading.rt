//! Documents: one takes the place of what is committed, and what is committed is written as one.

ghost use Rattle.lx_node.specs.Limits.{last_u32};
ghost use Rattle.std.specs.Prelude.{◌≡◌, IfOk};
ghost use Rattle.lx_forest.specs.Lookups.{children_of};
ghost use Rattle.lx_editor.specs.Judged.{with_leaves};

use crate::editor::Editor;
use crate::judging::{verdict_of, verdict_of_fault};
use crate::leaving::rest;
use crate::outcome::{Outcome, Verdict};
use crate::reconciling::reconcile;
use crate::recording::Recording;
use crate::saying::{Outcomes, Saying};
use lx_draft::Frozen;
use lx_json::{export, import};
use lx_links::Links;
use lx_marks::Marks;
use lx_node::{Fault, Key, NoMemory};
use lx_step::Tags;
use serde_json::Value;
use std::alloc::Global;

/// The marks with the children of the root among the leaves.
fn with_children_gone(marks: &Marks, old: &Links) -> Result<Marks, NoMemory>
    ensures { IfOk result (λ shown. shown ≡ with_leaves (children_of old.now 0) marks.now) }
{
    let mut shown = marks.copy()?;
    for child in old.children(Key::root()) {
        shown.mark_leaf(child)?;
    }
    Ok(shown)
}

impl Editor {
    ghost use Rattle.std.specs.Prelude.{ℕ, ◌+◌, ◌<◌, ◌≤◌, ◌≢◌, true, false, [], None, OnOk, OnErr};
    ghost use Rattle.serde_json.specs.View.{view};
    ghost use Rattle.lx_node.specs.Limits.{most_key};
    ghost use Rattle.lx_trees.specs.NamedTrees.{total};
    ghost use Rattle.lx_marks.specs.Marks.{is_touched};
    ghost use Rattle.lx_json.specs.Exporting.{exported};
    ghost use Rattle.lx_json.specs.Back.{ReadsBack};
    ghost use Rattle.lx_editor.specs.declared.outcome.Outcome.{Outcome as OutcomeOf};
    ghost use Rattle.lx_editor.specs.Judged.{IsLeft, IsShownBy, HasGrown, IsJudged, IsWeighed, is_idle};
    ghost use Rattle.lx_editor.specs.Loaded.{IsLoaded, left_by_load};
    ghost use Rattle.lx_editor.specs.Gathering.{recording};
    ghost use Rattle.lx_editor.specs.Updated.{what_is_left};

    /// Loads a document, which takes the place of what is committed: its nodes get new keys, nothing is selected, and all
    /// of it comes to rest under the rules and is committed, and recorded in the history as the tags and the time say,
    /// which is in milliseconds. It is refused, with no step, where the value isn't a
    /// document, as `UnknownType`, `BadState` with the place as a JSON pointer, or `EmptyState`; as `TooLarge` where it is
    /// beyond a limit; and else as an update is. It is never idle. Updates that wait are dropped where it is committed.
    /// After a refusal, or where memory runs out, the editor is as it was.
    pub fn load(
        &mut self,
        alloc: Global,
        document: &Value,
        tags: Tags,
        moment: u64,
    ) -> Result<Outcome, NoMemory>
        requires room { self.old.commits < last_u32 }
        ensures loaded { IfOk result (λ outcome. IsLoaded self.old (view document.now) (recording tags moment) outcome self.new) }
        ensures commits { self.new.commits ≤ self.old.commits + 1 }
        ensures unchanged { OnErr result (self.new ≡ self.old) }
    {
        let mut outcomes = Outcomes;
        self.load_saying(alloc, document, Recording { tags, moment }, &mut outcomes)
    }

    /// The same, said by a sayer.
    pub(crate) fn load_saying<S: Saying>(
        &mut self,
        alloc: Global,
        document: &Value,
        how: Recording,
        sayer: &mut S,
    ) -> Result<S::Said, NoMemory>
        requires room { self.old.commits < last_u32 }
        ensures loaded { IfOk result (λ said. (outcome : OutcomeOf) × IsLoaded self.old (view document.now) how outcome self.new × S.tells sayer.old None self.old outcome self.new said sayer.new) }
        ensures commits { self.new.commits ≤ self.old.commits + 1 }
        ensures unchanged { OnErr result (self.new ≡ self.old) }
    {
        let verdict = self.judge_load(alloc, document)?;
        self.conclude(alloc, verdict, None, how, sayer)
    }

    /// What loading a document comes to. It changes nothing.
    fn judge_load(&self, alloc: Global, document: &Value) -> Result<Verdict, NoMemory>
        ensures judged { IfOk result (IsJudged (left_by_load self.now (view document.now)) self.now) }
        ensures anew { IfOk result (λ verdict. is_idle verdict ≡ false) }
    {
        let draft = match import(alloc, document, self.next_key) {
            Ok(draft) => draft,
            Err(fault) => return verdict_of_fault(fault),
        };
        match rest(alloc, draft, self.rules.as_slice()) {
            Ok(frozen) => self.weigh_load(alloc, frozen),
            Err(refusal) => verdict_of(refusal),
        }
    }

    /// What is to be done with what is left of a document: it is committed, unless the view has no ids to show it. The
    /// children of the old root are all gone, so their hosts are.
    fn weigh_load(&self, alloc: Global, frozen: Box<Frozen>) -> Result<Verdict, NoMemory>
        requires left { IsLeft (what_is_left self.now.rules frozen.value) }
        requires shown { IsShownBy self.now.tree (what_is_left self.now.rules frozen.value) (with_leaves (children_of self.now.tree 0) frozen.value.marks) }
        requires grown { HasGrown self.now.tree self.now.next_key (what_is_left self.now.rules frozen.value) }
        requires anew { is_touched frozen.value.marks 0 ≡ true }
        ensures weighed { IfOk result (IsWeighed self.now (what_is_left self.now.rules frozen.value)) }
        ensures anew { IfOk result (λ verdict. is_idle verdict ≡ false) }
    {
        let left = frozen.as_ref();
        let shown = with_children_gone(&left.marks, &self.state.links)?;
        match reconcile(
            alloc,
            &self.state.links,
            &left.state.links,
            &shown,
            &self.view,
        ) {
            Ok(batch) => {
                let shown = Box::new(alloc, shown)?;
                Ok(Verdict::Commit {
                    frozen,
                    batch,
                    shown: Some(shown),
                })
            }
            Err(Fault::Cause(cause)) => Ok(Verdict::Refused { cause, step: None }),
            Err(Fault::Memory) => Err(NoMemory),
        }
    }

    /// What is committed, as the one document that says it. Where the root has children, lx_json's `import`, with which
    /// `load` begins, reads it back as the same tree, up to keys, with any next key for which there are keys enough: the
    /// next key after the tree's nodes is at most 1,048,576.
    pub fn export(&self, alloc: Global) -> Result<Value, NoMemory>
        ensures written { IfOk result (λ document. view document ≡ exported self.now.tree) }
        ensures back { (next : ℕ) → 0 < next → next + total self.now.tree ≤ most_key + 1 → children_of self.now.tree 0 ≢ [] → IfOk result (λ document. ReadsBack (view document) next self.now.tree) }
    {
        export(alloc, &self.state)
    }
}
