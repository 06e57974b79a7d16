//! Steps and dispatches: each may run the other, as deep as dispatches may nest.

ghost use Rattle.std.specs.Prelude.{◌≡◌, Ok, OnOk, IfOk, IfErr, All};
ghost use Rattle.lx_step.specs.Sound.{IsSound, IsSoundListener};
ghost use Rattle.lx_draft.specs.Faults.{TellsStep};
ghost use Rattle.lx_update.specs.Running as spec;
ghost use Rattle.lx_update.specs.Running.{dispatches, steps_in, step_in, offered};

use crate::running::Running;
use lx_bus::{Bus, Offers};
use lx_node::{Cause, Fault, Txt};
use lx_step::{BuiltIn, Listener, Payload, Step};

/// How many dispatches may run, one in another.
pub(crate) const MOST_NESTED: u32 = 64;

/// What dispatches commands: to the listeners on a bus, where so many more dispatches may run, one in another.
#[derive(Clone, Copy)]
pub(crate) struct Dispatcher<'a> {
    pub(crate) bus: &'a Bus,
    pub(crate) left: u32,
}

/// A payload, where `"@payload"` stands for the one that was sent.
fn payload_for<'a>(sent: &'a Payload, payload: &'a Payload) -> &'a Payload
    ensures { result.now ≡ spec.payload_for sent.now payload.now }
{
    match payload {
        Payload::Given => sent,
        other => other,
    }
}

/// Whether a payload is nothing.
pub(crate) fn is_nothing(sent: &Payload) -> bool
    ensures { result ≡ spec.sends_nothing sent.now }
{
    matches!(sent, Payload::Nothing)
}

/// Runs steps one after another.
#[cycle(dispatch)]
#[tactic(auto, unfolding(crate::specs::Running::steps_in))]
pub(crate) fn run_all<'a>(
    dispatcher: Dispatcher<'a>,
    running: &mut Running<'a>,
    steps: &'a [Step],
    sent: &'a Payload,
) -> Result<(), Fault>
    requires sound { All IsSound steps.now }
    ensures ok { OnOk result (steps_in (dispatches dispatcher.entry) sent.now steps.now running.old ≡ Ok running.new) }
    ensures err { IfErr result (λ e. TellsStep e (steps_in (dispatches dispatcher.entry) sent.now steps.now running.old)) }
{
    for step in steps {
        run_step(dispatcher, running, step, sent)?;
    }
    Ok(())
}

/// Runs a step, which takes a count.
#[cycle(dispatch)]
#[tactic(auto, unfolding(crate::specs::Running::step_in))]
pub(crate) fn run_step<'a>(
    dispatcher: Dispatcher<'a>,
    running: &mut Running<'a>,
    step: &'a Step,
    sent: &'a Payload,
) -> Result<(), Fault>
    requires sound { IsSound step.now }
    ensures ok { OnOk result (step_in (dispatches dispatcher.entry) sent.now step.now running.old ≡ Ok running.new) }
    ensures err { IfErr result (λ e. TellsStep e (step_in (dispatches dispatcher.entry) sent.now step.now running.old)) }
{
    match running.count() {
        Ok(()) => {}
        Err(cause) => return Err(Fault::Cause(cause)),
    }
    match step {
        Step::Do(command) => match BuiltIn::named(command.name.as_str()) {
            Some(built_in) => running.do_command(built_in, payload_for(sent, &command.payload)),
            None => Err(Fault::Cause(Cause::BadCommand)),
        },
        Step::Dispatch(command) => {
            let payload = payload_for(sent, &command.payload);
            match dispatch(dispatcher, running, &command.name, payload) {
                Ok(_) => Ok(()),
                Err(fault) => Err(fault),
            }
        }
        Step::Later(steps) => match running.queue(steps, sent) {
            Ok(()) => Ok(()),
            Err(_) => Err(Fault::Memory),
        },
        other => running.take_effect(other),
    }
}

/// Offers a command to the listeners of its name above editor, from the highest priority on. Where none of them has
/// handled it, the built-in command of the name takes a count and does, or those of priority editor are offered it.
/// This dispatch is one of those that are left. Where none is, it is refused.
#[cycle(dispatch)]
pub(crate) fn dispatch<'a>(
    dispatcher: Dispatcher<'a>,
    running: &mut Running<'a>,
    name: &'a Txt,
    payload: &'a Payload,
) -> Result<bool, Fault>
    ensures ok { IfOk result (λ handled. dispatches dispatcher.entry name.now payload.now running.old ≡ Ok (running.new, handled)) }
    ensures err { IfErr result (λ e. TellsStep e (dispatches dispatcher.entry name.now payload.now running.old)) }
{
    let Dispatcher { bus, left } = dispatcher;
    if left == 0 {
        return Err(Fault::Cause(Cause::DispatchDepth));
    }
    let inside = Dispatcher {
        bus,
        left: left - 1,
    };
    match offer_all(inside, running, bus.above(name.as_str()), payload) {
        Ok(true) => return Ok(true),
        Ok(false) => {}
        Err(fault) => return Err(fault),
    }
    match BuiltIn::named(name.as_str()) {
        Some(command) => {
            match running.count() {
                Ok(()) => {}
                Err(cause) => return Err(Fault::Cause(cause)),
            }
            match running.do_command(command, payload) {
                Ok(()) => Ok(true),
                Err(fault) => Err(fault),
            }
        }
        None => offer_all(inside, running, bus.behind(name.as_str()), payload),
    }
}

/// Offers a command to listeners one after another, until one has handled it, and answers whether one has.
#[cycle(dispatch)]
#[tactic(auto, unfolding(crate::specs::Running::offered))]
pub(crate) fn offer_all<'a>(
    dispatcher: Dispatcher<'a>,
    running: &mut Running<'a>,
    offers: Offers<'a>,
    payload: &'a Payload,
) -> Result<bool, Fault>
    requires sound { All IsSoundListener offers }
    ensures ok { IfOk result (λ handled. offered (dispatches dispatcher.entry) payload.now offers.entry running.old ≡ Ok (running.new, handled)) }
    ensures err { IfErr result (λ e. TellsStep e (offered (dispatches dispatcher.entry) payload.now offers.entry running.old)) }
{
    for listener in offers {
        if offer(dispatcher, running, listener, payload)? {
            return Ok(true);
        }
    }
    Ok(false)
}

/// Offers a command to a listener, which takes a count, and answers whether the listener has handled it.
#[cycle(dispatch)]
#[tactic(auto, unfolding(crate::specs::Running::offer))]
fn offer<'a>(
    dispatcher: Dispatcher<'a>,
    running: &mut Running<'a>,
    listener: &'a Listener,
    payload: &'a Payload,
) -> Result<bool, Fault>
    requires sound { IsSoundListener listener.now }
    ensures ok { IfOk result (λ handled. spec.offer (dispatches dispatcher.entry) payload.now listener.now running.old ≡ Ok (running.new, handled)) }
    ensures err { IfErr result (λ e. TellsStep e (spec.offer (dispatches dispatcher.entry) payload.now listener.now running.old)) }
{
    if let Err(cause) = running.count() {
        return Err(Fault::Cause(cause));
    }
    if !running.holds(&listener.when, payload) {
        return Ok(false);
    }
    match run_all(dispatcher, running, listener.steps.items(), payload) {
        Ok(()) => Ok(listener.handled),
        Err(fault) => Err(fault),
    }
}
