//! Commands: they are dispatched, and listeners are registered for them.

ghost use Rattle.lx_node.specs.Limits.{last_u32};

use crate::change::Telling;
use crate::editor::Editor;
use crate::outcome::Outcome;
use crate::recording::Recording;
use crate::saying::{Outcomes, Saying};
use lx_node::{Cause, Fault, NoMemory};
use lx_script::{Reply, write_reply};
use lx_step::{Command, Listener, Tags};
use std::alloc::Global;

impl Editor {
    ghost use Rattle.std.specs.Prelude.{◌≡◌, ◌+◌, ◌<◌, ◌≤◌, None, Some, IfOk, OnOk, OnErr};
    ghost use Rattle.lx_step.specs.Sound.{IsSoundListener};
    ghost use Rattle.lx_editor.specs.declared.outcome.Outcome.{Outcome as OutcomeOf};
    ghost use Rattle.lx_editor.specs.Dispatched.{IsDispatched, IsListening, unless_refused};
    ghost use Rattle.lx_editor.specs.Changes.{IsToldChange};
    ghost use Rattle.lx_editor.specs.Follows.{IsReplyOfDispatch, IsReplyOfListener};
    ghost use Rattle.lx_editor.specs.Gathering.{recording, with_nothing_pending};

    /// Dispatches a command: it is offered to the listeners of its name, from priority 4 down to 0 and within one
    /// priority in the order of registration, until one has handled it. What their steps leave comes to rest under the
    /// rules and is committed, as an update is. `undo` and `redo` go to another state of the history, where the listeners
    /// above them have neither handled them nor done anything: with an edit, another selection or queued steps before them
    /// they are refused as `HistoryInside`, and so while lines are gathered; with a payload as `BadCommand`. The answer
    /// says whether a listener has handled the command, too; of a dispatch that is refused it says that none has, and
    /// as the step that was refused it gives step 0, or none. Updates that wait are taken in, as an update takes them
    /// in. Where memory runs out nothing is pending, and the editor is as it was in all else.
    pub fn dispatch(
        &mut self,
        alloc: Global,
        command: &Command,
        tags: Tags,
        moment: u64,
    ) -> Result<(bool, Outcome), NoMemory>
        requires room { self.old.commits < last_u32 }
        ensures dispatched { IfOk result (λ told. IsDispatched self.old command.now (recording tags moment) told.1 told.0 self.new) }
        ensures commits { self.new.commits ≤ self.old.commits + 1 }
        ensures unchanged { OnErr result (self.new ≡ with_nothing_pending self.old) }
    {
        let mut outcomes = Outcomes;
        let how = Recording { tags, moment };
        let (handled, outcome) = self.dispatch_saying(alloc, command, how, &mut outcomes)?;
        let handled = outcome.unless_refused(handled);
        Ok((handled, outcome))
    }

    /// The same, said by a sayer. Of a dispatch that is refused it may answer that the command was handled.
    pub(crate) fn dispatch_saying<S: Saying>(
        &mut self,
        alloc: Global,
        command: &Command,
        how: Recording,
        sayer: &mut S,
    ) -> Result<(bool, S::Said), NoMemory>
        requires room { self.old.commits < last_u32 }
        ensures dispatched { IfOk result (λ told. (outcome : OutcomeOf) × IsDispatched self.old command.now how outcome (unless_refused outcome told.0) self.new × S.tells sayer.old (Some told.0) self.old outcome self.new told.1 sayer.new) }
        ensures commits { self.new.commits ≤ self.old.commits + 1 }
        ensures unchanged { OnErr result (self.new ≡ with_nothing_pending self.old) }
    {
        let all = self.recording(how);
        let gathering = self.gathered() > 0;
        let draft = self.take_draft(alloc)?;
        let (verdict, handled) = self.judge_dispatch(alloc, draft, gathering, command)?;
        let said = self.conclude(alloc, verdict, Some(handled), all, sayer)?;
        Ok((handled, said))
    }

    /// The same, said with the bytes of a reply.
    pub(crate) fn reply_to_dispatch(
        &mut self,
        alloc: Global,
        command: &Command,
        how: Recording,
        told: &mut Telling,
    ) -> Result<Vec<u8>, NoMemory>
        requires room { self.old.commits < last_u32 }
        requires untold { told.old.change ≡ None }
        ensures replies { IfOk result (λ reply. IsReplyOfDispatch self.old command.now how reply.items self.new × IsToldChange told.old.asked self.old told.new.change self.new) }
        ensures commits { self.new.commits ≤ self.old.commits + 1 }
        ensures unchanged { OnErr result (self.new ≡ with_nothing_pending self.old) }
    {
        match self.dispatch_saying(alloc, command, how, told) {
            Ok((_, reply)) => Ok(reply),
            Err(error) => Err(error),
        }
    }

    /// Registers a listener after those that are registered, and answers its number, from 1. Nothing is committed. It
    /// is refused as `TooManyRules` where 256 are registered. After a refusal, or where memory runs out, the editor is
    /// as it was.
    pub fn register_listener(&mut self, listener: Listener) -> Result<Result<u32, Cause>, NoMemory>
        requires sound { IsSoundListener listener }
        ensures registered { IfOk result (λ answer. IsListening self.old listener answer self.new) }
        ensures commits { self.new.commits ≡ self.old.commits }
        ensures unchanged { OnErr result (self.new ≡ self.old) }
    {
        match self.bus.register(listener) {
            Ok(number) => Ok(Ok(number)),
            Err(Fault::Cause(cause)) => Ok(Err(cause)),
            Err(Fault::Memory) => Err(NoMemory),
        }
    }

    /// The same, answered with the bytes of a reply, which is made before the listener is registered.
    pub(crate) fn reply_to_listener(
        &mut self,
        alloc: Global,
        listener: Listener,
    ) -> Result<Vec<u8>, NoMemory>
        requires sound { IsSoundListener listener }
        ensures replies { IfOk result (λ reply. IsReplyOfListener self.old listener reply.items self.new) }
        ensures commits { self.new.commits ≡ self.old.commits }
        ensures unchanged { OnErr result (self.new ≡ self.old) }
    {
        let number = self.bus.len() + 1;
        let reply = write_reply(alloc, &Reply::Registered(number))?;
        match self.register_listener(listener)? {
            Ok(_) => Ok(reply),
            Err(cause) => write_reply(alloc, &Reply::Refused { cause, step: None }),
        }
    }
}
