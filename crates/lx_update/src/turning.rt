//! The dispatch that a line is: its command may be one of the history.

ghost use Rattle.std.specs.Prelude.{◌≡◌, Some, Ok, IfOk, IfErr};
ghost use Rattle.lx_draft.specs.Faults.{TellsStep};
ghost use Rattle.lx_update.specs.Lines.{reached, command_ended, dispatch_begun, ended_with};

use crate::dispatching::{Dispatcher, MOST_NESTED, dispatch, is_nothing, offer_all};
use crate::ending::Ended;
use crate::running::Running;
use lx_bus::Bus;
use lx_node::{Cause, Fault};
use lx_select::Selection;
use lx_step::{BuiltIn, Command, Payload, Turn};

/// Takes a count, and dispatches the command. One of the history may reach it.
pub(crate) fn begin<'a>(
    bus: &'a Bus,
    running: &mut Running<'a>,
    command: &'a Command,
) -> Result<Ended, Fault>
    ensures ok { IfOk result (λ ended. dispatch_begun bus.now command.now running.old ≡ Ok (ended_with ended running.new)) }
    ensures err { IfErr result (λ e. TellsStep e (dispatch_begun bus.now command.now running.old)) }
{
    match running.count() {
        Ok(()) => {}
        Err(cause) => return Err(Fault::Cause(cause)),
    }
    let dispatcher = Dispatcher {
        bus,
        left: MOST_NESTED,
    };
    match BuiltIn::named(command.name.as_str()) {
        Some(BuiltIn::Turn(turn)) => turn_history(bus, running, turn, command),
        _ => match dispatch(dispatcher, running, &command.name, &command.payload) {
            Ok(handled) => Ok(Ended::Ran { handled }),
            Err(fault) => Err(fault),
        },
    }
}

/// Offers a command of the history to the listeners above it. Where none of them has handled it, it takes a count
/// of its own, and the history is reached.
fn turn_history<'a>(
    bus: &'a Bus,
    running: &mut Running<'a>,
    turn: Turn,
    command: &'a Command,
) -> Result<Ended, Fault>
    ensures ok { IfOk result (λ ended. command_ended (Some turn) bus.now command.now running.old ≡ Ok (ended_with ended running.new)) }
    ensures err { IfErr result (λ e. TellsStep e (command_ended (Some turn) bus.now command.now running.old)) }
{
    let Ok(committed) = running.copy_selection() else {
        return Err(Fault::Memory);
    };
    let inside = Dispatcher {
        bus,
        left: MOST_NESTED - 1,
    };
    let offers = bus.above(command.name.as_str());
    match offer_all(inside, running, offers, &command.payload) {
        Ok(true) => return Ok(Ended::Ran { handled: true }),
        Ok(false) => {}
        Err(fault) => return Err(fault),
    }
    if let Err(cause) = running.count() {
        return Err(Fault::Cause(cause));
    }
    reach(running, turn, &command.payload, &committed)
}

/// Reaches the history, unless a payload is sent, or the line has done something already.
fn reach(
    running: &Running<'_>,
    turn: Turn,
    sent: &Payload,
    committed: &Selection,
) -> Result<Ended, Fault>
    ensures ok { IfOk result (λ ended. reached turn sent.now committed.now running.now ≡ Ok (ended_with ended running.now)) }
    ensures err { IfErr result (λ e. TellsStep e (reached turn sent.now committed.now running.now)) }
{
    if !is_nothing(sent) {
        return Err(Fault::Cause(Cause::BadCommand));
    }
    if !running.is_untouched(committed) {
        return Err(Fault::Cause(Cause::HistoryInside));
    }
    Ok(Ended::Turned(turn))
}
