//! Lines that go on one from the other.

ghost use Rattle.std.specs.Prelude.{IfOk, All};
ghost use Rattle.lx_step.specs.Sound.{IsSound, IsSoundForm};
ghost use Rattle.lx_draft.specs.Working.{MayStart};

use crate::copying::{copied, lost_point};
use crate::telling::tell;
use anyhow::Result;
use lx_bus::Bus;
use lx_clip::slice;
use lx_draft::{Draft, Frozen, State};
use lx_node::{Cause, Fault, Lost, NoMemory};
use lx_reconcile::fresh;
use lx_script::{Reply, read_line, write_reply, write_slice};
use lx_step::{Form, Line, Shown, Step};
use lx_update::{Refusal, run_steps};
use lx_value::Room;
use std::alloc::Global;

/// The line that asks for a copy of what is selected.
const COPY: &[u8] = b"=> copy";

/// A state, and the key that the next new node gets: an update may start from them.
#[derive(Drop)]
pub(crate) struct Session {
    state: State,
    next_key: u32,
    /// No listeners: what steps dispatch is offered to nobody.
    nobody: Bus,
    room: Room,
    ghost may_start: { MayStart state.links next_key },
}

impl Session {
    /// The state of a new editor.
    pub(crate) fn new(alloc: Global) -> Result<Session, NoMemory> {
        let state = State::new(alloc)?;
        let nobody = Bus::new(alloc)?;
        let room = Room::new(alloc)?;
        Ok(Session {
            state,
            next_key: 1,
            nobody,
            room,
        })
    }

    /// Does what a line asks for, and answers a line without its end that says so.
    pub(crate) fn answer(&mut self, alloc: Global, line: &[u8]) -> Result<Vec<u8>> {
        if line == COPY {
            return self.copy(alloc);
        }
        match read_line(alloc, line, &mut self.room) {
            Ok(line) => self.line(alloc, line),
            Err(Fault::Cause(cause)) => refused(alloc, cause, None),
            Err(Fault::Memory) => Err(NoMemory.into()),
        }
    }

    fn line(&mut self, alloc: Global, line: Line) -> Result<Vec<u8>>
        requires { IsSoundForm line.form }
    {
        match &line.form {
            Form::Update(steps) => self.update(alloc, steps.items()),
            Form::Show(shown) => self.show(alloc, *shown),
            // Nothing comes to rest here, nobody listens, no document is read and nothing is recorded: what steps leave is
            // shown as it is.
            _ => refused(alloc, Cause::BadCommand, None),
        }
    }

    fn show(&self, alloc: Global, shown: Shown) -> Result<Vec<u8>> {
        let reply = match shown {
            Shown::State | Shown::History => return refused(alloc, Cause::BadCommand, None),
            Shown::Slice => return self.show_slice(alloc),
            Shown::View => Reply::View(fresh(alloc, &self.state)?.print_html()?),
            Shown::Selection => Reply::Selection(self.state.selection.copy(alloc)?),
        };
        Ok(write_reply(alloc, &reply)?)
    }

    /// Shows what the selection covers.
    fn show_slice(&self, alloc: Global) -> Result<Vec<u8>> {
        if let Some(point) = lost_point(&self.state) {
            return refused(alloc, Cause::SelectionLost(Lost::Point(point)), None);
        }
        let slice = slice(alloc, &self.state)?;
        Ok(write_slice(alloc, slice)?)
    }

    /// Copies what is selected into a new document, and tells what that is. The session's own state stays.
    fn copy(&self, alloc: Global) -> Result<Vec<u8>> {
        if let Some(point) = lost_point(&self.state) {
            return refused(alloc, Cause::SelectionLost(Lost::Point(point)), None);
        }
        match copied(alloc, &self.state) {
            Ok(Some(frozen)) => tell(alloc, &frozen),
            Ok(None) => Ok(write_slice(alloc, None)?),
            Err(Fault::Cause(cause)) => refused(alloc, cause, None),
            Err(Fault::Memory) => Err(NoMemory.into()),
        }
    }

    /// Keeps what the steps leave, unless they are refused.
    fn update(&mut self, alloc: Global, steps: &[Step]) -> Result<Vec<u8>>
        requires { All IsSound steps.now }
    {
        match self.left_by(alloc, steps) {
            Ok(frozen) => {
                let told = tell(alloc, &frozen)?;
                self.keep(frozen);
                Ok(told)
            }
            Err(Refusal::Cause { cause, step }) => refused(alloc, cause, step),
            Err(Refusal::Memory) => Err(NoMemory.into()),
        }
    }

    fn keep(&mut self, frozen: Frozen)
        requires { MayStart frozen.state.links frozen.next_key }
    {
        self.state = frozen.state;
        self.next_key = frozen.next_key;
    }

    /// What the steps leave of the state.
    fn left_by(&self, alloc: Global, steps: &[Step]) -> Result<Frozen, Refusal>
        requires { All IsSound steps.now }
        ensures { IfOk result (λ frozen. MayStart frozen.state.links frozen.next_key) }
    {
        let draft = match Draft::start(alloc, &self.state, self.next_key) {
            Ok(draft) => draft,
            Err(NoMemory) => return Err(Refusal::Memory),
        };
        let draft = match run_steps(alloc, &self.nobody, draft, steps) {
            Ok(draft) => draft,
            Err(refusal) => return Err(refusal),
        };
        match draft.freeze() {
            Ok(frozen) => Ok(frozen),
            Err(Fault::Cause(cause)) => Err(Refusal::Cause { cause, step: None }),
            Err(Fault::Memory) => Err(Refusal::Memory),
        }
    }
}

/// The reply to a line that is refused.
fn refused(alloc: Global, cause: Cause, step: Option<u32>) -> Result<Vec<u8>> {
    Ok(write_reply(alloc, &Reply::Refused { cause, step })?)
}
