//! Lines, each with what it queues.

ghost use Rattle.std.specs.Prelude.{◌≡◌, ◌+◌, ◌≤◌, Ok, OnOk, IfOk, IfErr, All};
ghost use Rattle.lx_step.specs.declared.command.Payload.TheVariants.{Nothing};
ghost use Rattle.lx_step.specs.Sound.{IsSound};
ghost use Rattle.lx_draft.specs.Covering.{IsReady, AreCovered};
ghost use Rattle.lx_node.specs.Limits.{most_counts};
ghost use Rattle.lx_update.specs.Lines.{script_from, queue_run, steps_run, deferred_run, dispatch_begun, dispatch_run, left_draft, answer_drafted, ended_with, IsEndingCovered, IsEmptied, IsAnswerEmptied};
ghost use Rattle.lx_update.specs.Refusals.{at_step, IsRefusal, TellsRefusal};

use crate::dispatching::{Dispatcher, MOST_NESTED, run_step};
use crate::ending::{Ended, Ending};
use crate::queue::run_queue;
use crate::refusal::Refusal;
use crate::running::Running;
use crate::turning::begin;
use lx_bus::Bus;
use lx_draft::Draft;
use lx_node::Fault;
use lx_step::{Command, Payload, Step};
use std::alloc::Global;

/// Runs steps one after another on a draft, each of which takes a count. What they queue runs last, first in, first
/// out. A refusal gives the step of these that was running, or none where what they had queued was. The draft is
/// dropped with it.
#[tactic(auto, unfolding(crate::specs::Lines::steps_run))]
pub fn run_steps(alloc: Global, bus: &Bus, draft: Draft, steps: &[Step]) -> Result<Draft, Refusal>
    requires sound { All IsSound steps.now }
    ensures ok { IfOk result (λ left. left_draft (steps_run bus.now steps.now draft) ≡ Ok left) }
    ensures covered { IfOk result (λ left. IsReady draft → AreCovered draft left) }
    ensures emptied { OnOk result (IsEmptied (steps_run bus.now steps.now draft)) }
    ensures err { IfErr result (λ e. TellsRefusal e (steps_run bus.now steps.now draft)) }
{
    let nothing = Payload::Nothing;
    let mut running = Running::new(alloc, draft);
    match run_script(bus, &mut running, steps, &nothing) {
        Ok(()) => {}
        Err(refusal) => return Err(refusal),
    }
    match run_rest(bus, &mut running) {
        Ok(()) => Ok(running.into_draft()),
        Err(refusal) => Err(refusal),
    }
}

/// Runs steps as `run_steps` does, where they wait for a line that commits them: they take a count before the first of
/// them begins, for which no step is refused. What they have made is left in the draft, with all that it had counted.
#[tactic(auto, unfolding(crate::specs::Lines::deferred_run))]
pub fn run_deferred(
    alloc: Global,
    bus: &Bus,
    draft: Draft,
    steps: &[Step],
) -> Result<Draft, Refusal>
    requires sound { All IsSound steps.now }
    ensures ok { IfOk result (λ left. left_draft (deferred_run bus.now steps.now draft) ≡ Ok left) }
    ensures covered { IfOk result (λ left. IsReady draft → AreCovered draft left) }
    ensures counted { IfOk result (λ left. draft.counted + 1 ≤ left.counted) }
    ensures few { IfOk result (λ left. left.counted ≤ most_counts) }
    ensures emptied { OnOk result (IsEmptied (deferred_run bus.now steps.now draft)) }
    ensures err { IfErr result (λ e. TellsRefusal e (deferred_run bus.now steps.now draft)) }
{
    let mut begun = draft;
    match begun.count() {
        Ok(()) => {}
        Err(cause) => return Err(Refusal::Cause { cause, step: None }),
    }
    match run_steps(alloc, bus, begun, steps) {
        Ok(left) => {
            // What links say holds of every draft, such as that it has taken at most 100,000 counts.
            let _links = left.links();
            Ok(left)
        }
        Err(refusal) => Err(refusal),
    }
}

/// Runs the steps of a line's own script.
#[tactic(auto, unfolding(crate::specs::Lines::script_from))]
fn run_script<'a>(
    bus: &'a Bus,
    running: &mut Running<'a>,
    steps: &'a [Step],
    nothing: &'a Payload,
) -> Result<(), Refusal>
    requires sound { All IsSound steps.now }
    requires nothing { nothing.now ≡ Nothing }
    requires few { running.old.script.draft.counted ≤ most_counts }
    ensures ok { OnOk result (script_from 0 bus.now steps.now running.old ≡ Ok running.new) }
    ensures err { IfErr result (λ e. TellsRefusal e (script_from 0 bus.now steps.now running.old)) }
{
    let dispatcher = Dispatcher {
        bus,
        left: MOST_NESTED,
    };
    let mut at = 0;
    for step in steps {
        match run_step(dispatcher, running, step, nothing) {
            Ok(()) => at += 1,
            Err(fault) => return Err(refused(fault, Some(at))),
        }
    }
    Ok(())
}

/// Dispatches a command, which takes a count, and answers the draft that is left and whether the command was handled.
/// What is queued meanwhile runs last, first in, first out.
///
/// `undo` and `redo` reach the history where no listener above priority editor has handled them: the command takes a
/// second count, the answer says which way the history goes, and the draft is dropped. It is refused at step 0 with
/// `BadCommand` where it has a payload, and else with `HistoryInside` where an edit was taken on the way, steps are
/// queued, or the selection isn't the one that the draft came with.
///
/// A refusal gives step 0 where the dispatch was running, or none where what was queued was. The draft is dropped
/// with it.
#[tactic(auto, unfolding(crate::specs::Lines::dispatch_run))]
pub fn run_dispatch(
    alloc: Global,
    bus: &Bus,
    draft: Draft,
    command: &Command,
) -> Result<Ending, Refusal>
    ensures ok { IfOk result (λ ending. answer_drafted (dispatch_run bus.now command.now draft) ≡ Ok ending) }
    ensures covered { IfOk result (IsEndingCovered draft) }
    ensures emptied { OnOk result (IsAnswerEmptied (dispatch_run bus.now command.now draft)) }
    ensures err { IfErr result (λ e. TellsRefusal e (dispatch_run bus.now command.now draft)) }
{
    let mut running = Running::new(alloc, draft);
    let handled = match run_command(bus, &mut running, command) {
        Ok(Ended::Ran { handled }) => handled,
        Ok(Ended::Turned(turn)) => return Ok(Ending::Turned(turn)),
        Err(refusal) => return Err(refusal),
    };
    match run_rest(bus, &mut running) {
        Ok(()) => Ok(Ending::Left {
            draft: running.into_draft(),
            handled,
        }),
        Err(refusal) => Err(refusal),
    }
}

/// Dispatches the command that a line is.
fn run_command<'a>(
    bus: &'a Bus,
    running: &mut Running<'a>,
    command: &'a Command,
) -> Result<Ended, Refusal>
    ensures ok { IfOk result (λ ended. at_step 0 (dispatch_begun bus.now command.now running.old) ≡ Ok (ended_with ended running.new)) }
    ensures err { IfErr result (λ e. TellsRefusal e (at_step 0 (dispatch_begun bus.now command.now running.old))) }
{
    match begin(bus, running, command) {
        Ok(ended) => Ok(ended),
        Err(fault) => Err(refused(fault, Some(0))),
    }
}

/// Runs what is queued, for which no step is refused.
fn run_rest<'a>(bus: &'a Bus, running: &mut Running<'a>) -> Result<(), Refusal>
    ensures ok { OnOk result (queue_run bus.now running.old ≡ Ok running.new) }
    ensures err { IfErr result (λ e. TellsRefusal e (queue_run bus.now running.old)) }
{
    match run_queue(bus, running) {
        Ok(()) => Ok(()),
        Err(fault) => Err(refused(fault, None)),
    }
}

/// Refused for the fault's cause, at a step or at none, or for memory where that ran out.
fn refused(fault: Fault, step: Option<u32>) -> Refusal
    ensures { IsRefusal fault step result }
{
    match fault {
        Fault::Cause(cause) => Refusal::Cause { cause, step },
        Fault::Memory => Refusal::Memory,
    }
}
