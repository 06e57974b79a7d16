//! What commits do to a history.

ghost use Rattle.std.specs.Prelude.{◌≡◌, ◌+◌, ◌&&◌, None, nat_lt, if◌then◌else◌};
ghost use Rattle.lx_history.specs.Changes as changes;
ghost use Rattle.lx_history.specs.Kept.{IsPrepared};
ghost use Rattle.lx_history.specs.Told.{IsAway};
ghost use Rattle.lx_history.specs.declared.kinds.Action.TheVariants.{Push, Merge, Discard};
ghost use Rattle.lx_history.specs.History.{action_by, action_of, change_told, noted, history_recorded};

use crate::change::{change_of, is_typing};
use crate::entry::{join_first, keep_newest, put_first};
use crate::history::History;
use crate::kinds::{Action, Change};
use crate::texts::is_touched_alone;
use lx_draft::State;
use lx_marks::Marks;
use lx_select::Selection;
use lx_step::Tags;

/// A commit as typing: of what kind it was, and its time in milliseconds.
#[derive(Clone, Copy)]
struct Typing {
    change: Change,
    moment: u64,
}

impl History {
    /// What `note` would do to the entries.
    #[tactic(auto, unfolding(crate::specs::History::action_of))]
    pub fn action(
        &self,
        before: &State,
        after: &State,
        marks: &Marks,
        tags: Tags,
        moment: u64,
    ) -> Action
        ensures { result ≡ action_of self.now.history before.now after.now marks.now tags moment }
    {
        let change = change_of(before, after, marks);
        self.action_by(before, after, marks, tags, Typing { change, moment })
    }

    /// Notes a commit that led from one state to the other at a time, in milliseconds. The marks say what the update
    /// marked, and the tags what was asked for the commit. It can't fail. Nobody says where the trees differ, so an entry
    /// may differ anywhere from the one beside it: `note_strayed` is for who has told it by `stray`.
    pub fn note(&mut self, before: &State, after: State, marks: &Marks, tags: Tags, moment: u64)
        requires { IsPrepared self.old }
        ensures noted { self.new.history ≡ noted before.now after marks.now tags moment self.old.history }
        ensures strays { IsAway self.new.history.current self.new.strays after.links }
    {
        self.lose_strays();
        self.note_strayed(before, after, marks, tags, moment);
    }

    /// From here on the committed tree may differ from the current state's anywhere.
    fn lose_strays(&mut self)
        ensures same { self.new.history ≡ self.old.history }
        ensures prepared { IsPrepared self.old → IsPrepared self.new }
        ensures lost { self.new.strays ≡ None }
    {
        self.strays.lose();
    }

    /// Notes a commit as `note` does, where `stray` was told of all commits since the last one that was noted. Where there
    /// was no memory for the keys at which an entry may differ, it may differ anywhere.
    #[tactic(auto, unfolding(crate::specs::History::noted, crate::specs::History::action_of))]
    pub fn note_strayed(
        &mut self,
        before: &State,
        after: State,
        marks: &Marks,
        tags: Tags,
        moment: u64,
    )
        requires prepared { IsPrepared self.old }
        requires strays { IsAway self.old.history.current self.old.strays after.links }
        ensures noted { self.new.history ≡ noted before.now after marks.now tags moment self.old.history }
        ensures strays { IsAway self.new.history.current self.new.strays after.links }
    {
        let change = change_of(before, &after, marks);
        let action = self.action_by(before, &after, marks, tags, Typing { change, moment });
        self.record(action, after);
        self.last = change_told(tags, change);
        self.moment = moment;
    }

    /// Makes the new state current, and the one that was current the newest entry. Of 501 the oldest goes.
    fn push(&mut self, after: State)
        requires prepared { IsPrepared self.old }
        requires strays { IsAway self.old.history.current self.old.strays after.links }
        ensures recorded { self.new.history ≡ history_recorded Push after self.old.history }
        ensures strays { IsAway self.new.history.current self.new.strays after.links }
    {
        self.redo.clear();
        let places = self.strays.take();
        put_first(&mut self.undo, self.current.take(), places);
        keep_newest(&mut self.undo);
        self.current = Some(after);
    }

    /// Makes the new state current in place of the one that was. The entries on either side tell where it strayed.
    fn merge(&mut self, after: State)
        requires strays { IsAway self.old.history.current self.old.strays after.links }
        ensures recorded { self.new.history ≡ history_recorded Merge after self.old.history }
        ensures strays { IsAway self.new.history.current self.new.strays after.links }
    {
        join_first(&mut self.undo, &self.strays);
        join_first(&mut self.redo, &self.strays);
        self.strays.clear();
        self.current = Some(after);
    }

    /// Does what a commit of the new state does to the entries.
    fn record(&mut self, action: Action, after: State)
        requires prepared { IsPrepared self.old }
        requires strays { IsAway self.old.history.current self.old.strays after.links }
        ensures recorded { self.new.history ≡ history_recorded action after self.old.history }
        ensures strays { IsAway self.new.history.current self.new.strays after.links }
    {
        match action {
            Action::Push => self.push(after),
            Action::Merge => self.merge(after),
            Action::Discard => {}
        }
    }

    /// What a commit of this kind of typing does to the entries: the first that fits.
    fn action_by(
        &self,
        before: &State,
        after: &State,
        marks: &Marks,
        tags: Tags,
        typing: Typing,
    ) -> Action
        ensures { result ≡ action_by self.now.history before.now after.now marks.now tags typing.moment typing.change }
    {
        if tags.historic {
            Action::Discard
        } else if tags.merge && !tags.push {
            Action::Merge
        } else if self.current.is_none() {
            Action::Push
        } else if is_unmarked(marks) {
            unmarked_action(&after.selection)
        } else if !tags.push && self.goes_on(typing) {
            Action::Merge
        } else if is_touched_alone(marks, &before.links, &after.links) {
            Action::Merge
        } else {
            Action::Push
        }
    }

    /// Whether the typing goes on that the last commit was.
    fn goes_on(&self, typing: Typing) -> bool
        ensures { result ≡ (changes.is_typing typing.change self.now.history.last && nat_lt typing.moment (self.now.history.moment + self.now.history.delay)) }
    {
        is_typing(typing.change, self.last) && is_soon(typing.moment, self.moment, self.delay)
    }
}

/// What a commit does that changed the selection alone.
fn unmarked_action(selection: &Selection) -> Action
    ensures { result ≡ (if changes.selects_nothing selection.now then Discard else Merge) }
{
    match selection {
        Selection::Nothing => Action::Discard,
        _ => Action::Merge,
    }
}

fn is_unmarked(marks: &Marks) -> bool
    ensures { result ≡ changes.is_unmarked marks.now }
{
    marks.is_empty()
}

/// Whether the time is before the end of the delay after the last one.
fn is_soon(moment: u64, last: u64, delay: u64) -> bool
    ensures { result ≡ nat_lt moment (last + delay) }
{
    moment < last || moment - last < delay
}

/// What is kept of a kind of typing.
fn change_told(tags: Tags, change: Change) -> Change
    ensures { result ≡ change_told tags change }
{
    if tags.historic { Change::Other } else { change }
}
