ghost use Rattle.lx_node.specs.Limits.{last_u32};
ghost use Rattle.std.specs.Prelude.{◌≡◌, IfOk};

use crate::change::{Change, Telling};
use crate::editor::Editor;
use crate::recording::Recording;
use lx_node::NoMemory;
use lx_step::{Form, Line, Tags};
use std::alloc::Global;

impl Editor {
    ghost use Rattle.std.specs.Prelude.{◌+◌, ◌<◌, ◌≤◌, None, OnOk, OnErr};
    ghost use Rattle.lx_step.specs.Sound.{IsSoundForm};
    ghost use Rattle.lx_editor.specs.Changes.{IsChange, IsToldChange};
    ghost use Rattle.lx_editor.specs.Follows.{RepliesTo, RepliesToLine, at_moment, without_memory};

    /// Does what a line asks for, and answers with the bytes of a reply: the outcome of an update, of a flush, of a
    /// dispatch, of registering a rule or of a load, the number of a listener, what is committed, or that the history is
    /// cleared. The line's time is the one that it carries, or else that of the line before. The reply to a commit
    /// includes the view after it, where the editor was made so. The reply is made before anything is committed,
    /// gathered, registered or forgotten, so where memory runs out the editor is as it was, but for what is pending.
    /// That is dropped by a line that runs on it: an update, also one that waits, a flush, a dispatch, or a rule that
    /// isn't one too many. It stays at any other.
    pub fn line(&mut self, alloc: Global, line: Line) -> Result<Vec<u8>, NoMemory>
        requires sound { IsSoundForm line.form }
        requires room { self.old.commits < last_u32 }
        ensures replies { IfOk result (λ reply. RepliesToLine self.old line reply.items self.new) }
        ensures commits { self.new.commits ≤ self.old.commits + 1 }
        ensures unchanged { OnErr result (self.new ≡ without_memory line.form self.old) }
    {
        let mut untold = Telling::new(false);
        self.reply_to_line(alloc, line, &mut untold)
    }

    /// The same, and what the line changed, where it committed: the operations that its reply lists, the state that was
    /// committed before, and marks that cover the trees before and after. With updates that waited it is all that they
    /// changed, too. It is there exactly where the line committed. Where memory runs out the editor is as `line` leaves
    /// it then.
    pub fn line_with_change(
        &mut self,
        alloc: Global,
        line: Line,
    ) -> Result<(Vec<u8>, Option<Change>), NoMemory>
        requires sound { IsSoundForm line.form }
        requires room { self.old.commits < last_u32 }
        ensures replies { IfOk result (λ told. RepliesToLine self.old line told.0.items self.new) }
        ensures change { IfOk result (λ told. IsChange self.old told.1 self.new) }
        ensures commits { self.new.commits ≤ self.old.commits + 1 }
        ensures unchanged { OnErr result (self.new ≡ without_memory line.form self.old) }
    {
        let mut told = Telling::new(true);
        let reply = self.reply_to_line(alloc, line, &mut told)?;
        Ok((reply, told.change))
    }

    /// Does what a line asks for, at its time, and answers the change where that is asked for.
    fn reply_to_line(
        &mut self,
        alloc: Global,
        line: Line,
        told: &mut Telling,
    ) -> Result<Vec<u8>, NoMemory>
        requires sound { IsSoundForm line.form }
        requires room { self.old.commits < last_u32 }
        requires untold { told.old.change ≡ None }
        ensures change { OnOk result (IsToldChange told.old.asked self.old told.new.change self.new) }
        ensures replies { IfOk result (λ reply. RepliesToLine self.old line reply.items self.new) }
        ensures commits { self.new.commits ≤ self.old.commits + 1 }
        ensures unchanged { OnErr result (self.new ≡ without_memory line.form self.old) }
    {
        let before = self.last_moment();
        self.begin_at(line.at);
        match self.reply_to_form(alloc, line.form, line.tags, told) {
            Ok(reply) => Ok(reply),
            Err(error) => {
                self.set_moment(before);
                Err(error)
            }
        }
    }

    /// Takes the time that a line carries, if it carries one.
    fn begin_at(&mut self, at: Option<u64>)
        ensures moment { self.new ≡ at_moment at self.old }
        ensures commits { self.new.commits ≡ self.old.commits }
    {
        if let Some(moment) = at {
            self.moment = moment;
        }
    }

    fn last_moment(&self) -> u64
        ensures { result ≡ self.now.moment }
    {
        self.moment
    }

    fn set_moment(&mut self, moment: u64)
        ensures moment { self.new ≡ record self.old { moment = moment } }
        ensures commits { self.new.commits ≡ self.old.commits }
    {
        self.moment = moment;
    }

    /// Does what a line of this form asks for at its time.
    #[tactic(auto, using(crate::proofs::Said::replying), unfolding(crate::specs::Follows::RepliesTo))]
    fn reply_to_form(
        &mut self,
        alloc: Global,
        form: Form,
        tags: Tags,
        told: &mut Telling,
    ) -> Result<Vec<u8>, NoMemory>
        requires sound { IsSoundForm form }
        requires room { self.old.commits < last_u32 }
        requires untold { told.old.change ≡ None }
        ensures replies { IfOk result (λ reply. RepliesTo self.old tags form reply.items self.new × IsToldChange told.old.asked self.old told.new.change self.new) }
        ensures commits { self.new.commits ≤ self.old.commits + 1 }
        ensures unchanged { OnErr result (self.new ≡ without_memory form self.old) }
    {
        let moment = self.last_moment();
        let how = Recording { tags, moment };
        match form {
            Form::Update(steps) => self.update_saying(alloc, steps.items(), how, told),
            Form::Defer(steps) => self.defer_saying(alloc, steps.items(), tags, told),
            Form::Flush => self.flush_saying(alloc, how, told),
            Form::Dispatch(command) => self.reply_to_dispatch(alloc, &command, how, told),
            Form::Rule(rule) => self.register_saying(alloc, rule, moment, told),
            Form::Listener(listener) => self.reply_to_listener(alloc, listener),
            Form::Load(document) => self.load_saying(alloc, &document, how, told),
            Form::Show(shown) => self.show(alloc, shown),
            Form::Clear => self.reply_to_clear(alloc),
        }
    }
}
