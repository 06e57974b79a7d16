//! Updates that wait for a line which commits them all together.

ghost use Rattle.lx_node.specs.Limits.{last_u32};

use crate::editor::Editor;
use crate::outcome::Outcome;
use crate::pending::Pending;
use crate::recording::Recording;
use crate::saying::{Outcomes, Saying, say_refusal};
use lx_draft::Draft;
use lx_node::NoMemory;
use lx_step::{Step, Tags};
use lx_update::{Refusal, run_deferred};
use std::alloc::Global;

impl Editor {
    ghost use Rattle.std.specs.Prelude.{◌≡◌, ◌+◌, ◌<◌, ◌≤◌, Ok, None, All, IfOk, IfErr, OnOk, OnErr};
    ghost use Rattle.lx_step.specs.Lines.{both_tags};
    ghost use Rattle.lx_step.specs.Sound.{IsSound};
    ghost use Rattle.lx_draft.specs.Covering.{AreCovered};
    ghost use Rattle.lx_update.specs.Refusals.{TellsRefusal};
    ghost use Rattle.lx_editor.specs.declared.outcome.Outcome.{Outcome as OutcomeOf};
    ghost use Rattle.lx_editor.specs.Gathering.{started_of, pending_of, begun, with_nothing_pending, with_pending, with_line, recording, recording_all, gathered_by, IsPending, IsDeferred};
    ghost use Rattle.lx_editor.specs.Updated.{IsFlushed};

    /// How many updates are gathered and wait for a call that commits them, at most 100,000. It is 0 where none are.
    pub fn gathered(&self) -> u32
        ensures { result ≡ (pending_of self.now).lines }
    {
        match &self.pending {
            Some(pending) => pending.lines,
            None => 0,
        }
    }

    /// How a commit is recorded that takes in the lines which are gathered.
    pub(crate) fn recording(&self, how: Recording) -> Recording
        ensures { result ≡ recording_all self.now how }
    {
        let gathered = match &self.pending {
            Some(pending) => pending.tags,
            None => Tags::none(),
        };
        Recording {
            tags: gathered.with(how.tags),
            moment: how.moment,
        }
    }

    /// The draft that a line begins with: the one that is pending, or else one of what is committed. Nothing is pending
    /// then.
    pub(crate) fn take_draft(&mut self, alloc: Global) -> Result<Draft, NoMemory>
        ensures begun { IfOk result (λ draft. draft ≡ begun self.old) }
        ensures covered { IfOk result (λ draft. AreCovered (started_of self.old) draft) }
        ensures counted { IfOk result (λ draft. (pending_of self.old).lines ≤ draft.counted) }
        ensures taken { self.new ≡ with_nothing_pending self.old }
    {
        match self.pending.take() {
            Some(pending) => Ok(Box::into_inner(pending).draft),
            None => Draft::start(alloc, &self.state, self.next_key),
        }
    }

    /// Runs steps that wait for a call which commits them: nothing is committed, and what they leave is what the next
    /// `defer`, `update`, `dispatch`, `register_rule` or `flush` begins with. The outcome says how many updates wait
    /// then. Each takes a count before its first step, and the limits of an update hold for all of them together. It is
    /// refused as an update is, by a step, by what it queued or by that first count, and no step is given for the last
    /// two; then all that was pending is dropped with it. The time, in milliseconds, means nothing, since a commit has
    /// that of the call which commits. Where memory runs out nothing is pending, and the editor is as it was in all
    /// else.
    pub fn defer(
        &mut self,
        alloc: Global,
        steps: &[Step],
        tags: Tags,
        _moment: u64,
    ) -> Result<Outcome, NoMemory>
        requires sound { All IsSound steps.now }
        ensures deferred { IfOk result (λ outcome. IsDeferred self.old steps.now tags outcome self.new) }
        ensures commits { self.new.commits ≡ self.old.commits }
        ensures unchanged { OnErr result (self.new ≡ with_nothing_pending self.old) }
    {
        let mut outcomes = Outcomes;
        self.defer_saying(alloc, steps, tags, &mut outcomes)
    }

    /// The same, said by a sayer.
    pub(crate) fn defer_saying<S: Saying>(
        &mut self,
        alloc: Global,
        steps: &[Step],
        tags: Tags,
        sayer: &mut S,
    ) -> Result<S::Said, NoMemory>
        requires sound { All IsSound steps.now }
        ensures deferred { IfOk result (λ said. (outcome : OutcomeOf) × IsDeferred self.old steps.now tags outcome self.new × S.tells sayer.old None self.old outcome self.new said sayer.new) }
        ensures commits { self.new.commits ≡ self.old.commits }
        ensures unchanged { OnErr result (self.new ≡ with_nothing_pending self.old) }
    {
        match self.gather(alloc, steps, tags) {
            Ok(pending) => {
                let said = sayer.say_gathered(alloc, pending.lines)?;
                self.keep(pending);
                Ok(said)
            }
            Err(refusal) => say_refusal(alloc, refusal, sayer),
        }
    }

    /// Keeps what is pending with one line more.
    fn keep(&mut self, pending: Box<Pending>)
        requires { IsPending (started_of self.old) pending.value }
        ensures { self.new ≡ with_pending self.old pending.value }
    {
        self.pending = Some(pending);
    }

    /// What is pending with these steps after it. Nothing is pending then, until this is.
    fn gather(&mut self, alloc: Global, steps: &[Step], tags: Tags) -> Result<Box<Pending>, Refusal>
        requires sound { All IsSound steps.now }
        ensures gathered { IfOk result (λ pending. gathered_by self.old steps.now ≡ Ok pending.value.draft) }
        ensures line { IfOk result (λ pending. pending.value ≡ with_line tags (pending_of self.old) pending.value.draft) }
        ensures pending { IfOk result (λ pending. IsPending (started_of self.old) pending.value) }
        ensures refused { IfErr result (λ e. TellsRefusal e (gathered_by self.old steps.now)) }
        ensures taken { self.new ≡ with_nothing_pending self.old }
    {
        let before = self.gathered();
        let how = self.recording(Recording { tags, moment: 0 });
        let draft = match self.take_draft(alloc) {
            Ok(draft) => draft,
            Err(NoMemory) => return Err(Refusal::Memory),
        };
        let draft = match run_deferred(alloc, &self.bus, draft, steps) {
            Ok(draft) => draft,
            Err(refusal) => return Err(refusal),
        };
        let pending = Pending {
            draft,
            lines: before + 1,
            tags: how.tags,
        };
        match Box::new(alloc, pending) {
            Ok(boxed) => Ok(boxed),
            Err(_) => Err(Refusal::Memory),
        }
    }

    /// Commits what is pending, as an update without steps: it comes to rest under the rules, and is committed and
    /// recorded with the tags of all that was gathered and with these, at this time, in milliseconds. It is idle where
    /// that marks nothing and leaves the selection equal, such as where nothing is pending. It is refused, with no
    /// step, where the rules don't come to rest, or where what is left is beyond a limit or has lost its selection, and
    /// what was pending is dropped then. Where memory runs out nothing is pending, and the editor is as it was in all
    /// else.
    pub fn flush(&mut self, alloc: Global, tags: Tags, moment: u64) -> Result<Outcome, NoMemory>
        requires room { self.old.commits < last_u32 }
        ensures flushed { IfOk result (λ outcome. IsFlushed self.old (recording tags moment) outcome self.new) }
        ensures commits { self.new.commits ≤ self.old.commits + 1 }
        ensures unchanged { OnErr result (self.new ≡ with_nothing_pending self.old) }
    {
        let mut outcomes = Outcomes;
        self.flush_saying(alloc, Recording { tags, moment }, &mut outcomes)
    }

    /// The same, said by a sayer.
    pub(crate) fn flush_saying<S: Saying>(
        &mut self,
        alloc: Global,
        how: Recording,
        sayer: &mut S,
    ) -> Result<S::Said, NoMemory>
        requires room { self.old.commits < last_u32 }
        ensures flushed { IfOk result (λ said. (outcome : OutcomeOf) × IsFlushed self.old how outcome self.new × S.tells sayer.old None self.old outcome self.new said sayer.new) }
        ensures commits { self.new.commits ≤ self.old.commits + 1 }
        ensures unchanged { OnErr result (self.new ≡ with_nothing_pending self.old) }
    {
        self.update_saying(alloc, &[], how, sayer)
    }
}
