//! What a line works on while its steps run: a draft with the names of its nodes, and steps that are queued.

ghost use Rattle.std.specs.Prelude.{◌≡◌, ◌≤◌, [], Ok, OnOk, IfOk, IfErr, IfSome, MatchOption, All};
ghost use Rattle.lx_node.specs.Limits.{most_counts};
ghost use Rattle.lx_step.specs.Sound.{IsSound, IsSoundScript};
ghost use Rattle.lx_step.specs.Spelled.{steps_of};
ghost use Rattle.lx_draft.specs.Faults.{TellsStep};
ghost use Rattle.lx_update.specs.Holding as holding;
ghost use Rattle.lx_update.specs.Lines.{at_first, is_untouched};
ghost use Rattle.lx_update.specs.Running.{on_script, take_count, done_by, queued, queued_first};
ghost use Rattle.lx_update.specs.Scripts.{effect_of};

use crate::commands::do_command;
use crate::holding::holds;
use crate::names::Names;
use crate::script::take_effect;
use lx_draft::Draft;
use lx_node::{Cause, Fault, NoMemory};
use lx_select::Selection;
use lx_step::{BuiltIn, Payload, Step, Steps, When};
use std::alloc::Global;
use std::collections::VecDeque;
use std::marker::Model;

/// Steps that are queued, with the payload that `"@payload"` stands for in them.
#[derive(Clone, Copy)]
pub(crate) struct Queued<'a> {
    pub(crate) steps: &'a [Step],
    pub(crate) sent: &'a Payload,
}

/// What a line works on. After a refusal it is only fit to be dropped.
#[derive(Drop)]
pub(crate) struct Running<'a> {
    alloc: Global,
    draft: Draft,
    names: Names,
    queue: VecDeque<Queued<'a>>,
}

impl<'a> Model for Running<'a> {
    ghost use Rattle.std.specs.Prelude.{map, All};
    ghost use Rattle.std.specs.Coded.{codes, coded_ℕ, coded_list};
    ghost use Rattle.std.specs.Cmp.Lexicographic.{slice_cmp};
    ghost use Rattle.std.specs.FinMap.{code};
    ghost use Rattle.std.specs.Ordering.{nat_cmp};
    ghost use Rattle.lx_trees.specs.Trees.{trees_code};
    ghost use Rattle.lx_step.specs.Sound.{IsSound};
    ghost use Rattle.lx_step.specs.contracts.step.Steps as steps;
    ghost use Rattle.lx_update.specs.Running.{Running, running};
    ghost use Rattle.lx_update.specs.Scripts.{scripted};

    ghost Value = { Running };

    ghost coded = { Prim.hlevel (codes, trees_code, code {R = slice_cmp nat_cmp} (coded_list coded_ℕ) coded_ℕ, steps.the_row.coded) };

    ghost view = { λ r. running (scripted r.draft r.names) (map (λ q. record { steps = q.steps.now; sent = q.sent.now }) r.queue.items) };

    ghost invariant = { λ r. All (λ q. All IsSound q.steps.now) r.queue.items };
}

impl<'a> Running<'a> {
    /// A draft in which no node has a name, and nothing is queued.
    pub(crate) fn new(alloc: Global, draft: Draft) -> Running<'a>
        ensures first { result ≡ at_first draft }
        ensures few { draft.counted ≤ most_counts }
    {
        // What links say holds of every draft, such as that it has taken at most 100,000 counts.
        let _links = draft.links();
        Running {
            alloc,
            draft,
            names: Names::new(alloc),
            queue: VecDeque::new(alloc),
        }
    }

    /// The draft that is left.
    pub(crate) fn into_draft(self) -> Draft
        ensures { result ≡ self.entry.script.draft }
    {
        self.draft
    }

    /// Takes a count. It is refused where 100,000 were taken.
    #[tactic(auto, unfolding(crate::specs::Running::take_count))]
    pub(crate) fn count(&mut self) -> Result<(), Cause>
        ensures ok { OnOk result (take_count self.old ≡ Ok self.new) }
        ensures err { IfErr result (λ cause. take_count self.old ≡ Err cause) }
    {
        self.draft.count()
    }

    /// A copy of the draft's selection.
    pub(crate) fn copy_selection(&self) -> Result<Selection, NoMemory>
        ensures { IfOk result (λ selection. selection ≡ self.now.script.draft.selection) }
    {
        self.draft.selection().copy(self.alloc)
    }

    /// Whether no edit was taken, the selection is the one that is committed, and nothing is queued.
    pub(crate) fn is_untouched(&self, committed: &Selection) -> bool
        ensures { result ≡ is_untouched committed.now self.now }
    {
        self.draft.edits() == 0
            && self.draft.selection().is_equal(committed)
            && self.queue.is_empty()
    }

    /// Whether the conditions of a listener hold.
    pub(crate) fn holds(&self, when: &When, sent: &Payload) -> bool
        ensures { result ≡ holding.conditions_hold when.now sent.now self.now.script.draft }
    {
        holds(when, sent, &self.draft)
    }

    /// What a step does that has begun, and that does no command, dispatches none and queues nothing.
    pub(crate) fn take_effect(&mut self, step: &Step) -> Result<(), Fault>
        requires sound { IsSound step.now }
        ensures ok { OnOk result (on_script (effect_of step.now) self.old ≡ Ok self.new) }
        ensures err { IfErr result (λ e. TellsStep e (on_script (effect_of step.now) self.old)) }
    {
        take_effect(self.alloc, &mut self.draft, &mut self.names, step)
    }

    /// What a built-in command does after its count, with what is sent.
    pub(crate) fn do_command(&mut self, command: BuiltIn, sent: &Payload) -> Result<(), Fault>
        ensures ok { OnOk result (done_by command sent.now self.old ≡ Ok self.new) }
        ensures err { IfErr result (λ e. TellsStep e (done_by command sent.now self.old)) }
    {
        do_command(self.alloc, &mut self.draft, command, sent)
    }

    /// Queues steps after all that are queued.
    pub(crate) fn queue(&mut self, steps: &'a Steps, sent: &'a Payload) -> Result<(), NoMemory>
        requires sound { IsSoundScript steps.now }
        ensures { OnOk result (self.new ≡ queued (steps_of steps.now) sent.now self.old) }
    {
        let steps = steps.items();
        Ok(self.queue.push_back(Queued { steps, sent })?)
    }

    /// Takes what is queued first out of the queue.
    pub(crate) fn next(&mut self) -> Option<Queued<'a>>
        ensures first { MatchOption result ((self.old.queue ≡ []) × (self.new ≡ self.old)) (λ q. self.old ≡ queued_first q.steps.now q.sent.now self.new) }
        ensures sound { IfSome result (λ q. All IsSound q.steps.now) }
    {
        self.queue.pop_front()
    }
}
