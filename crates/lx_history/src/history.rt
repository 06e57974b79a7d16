ghost use Rattle.std.specs.Prelude.{◌≡◌, ◌+◌, ◌<◌, ◌≤◌, [], ◌∷◌, Some, None, OnOk, IfOk, IfSome, IsSomeAnd, IsTrue, MatchBool, length, option_map};
ghost use Rattle.std.specs.Option.{option_copied};
ghost use Rattle.lx_forest.specs.Lookups.{roots, IsForest};
ghost use Rattle.lx_forest.specs.Covered.{AreCovered};
ghost use Rattle.lx_marks.specs.Marks.{is_touched, is_noted};
ghost use Rattle.lx_compare.specs.Places.{DifferAt};
ghost use Rattle.lx_history.specs.Told.{IsAway};

use crate::entry::{Entry, put_first};
use crate::kinds::Change;
use lx_compare::Places;
use lx_draft::State;
use lx_links::Links;
use lx_marks::Marks;
use lx_node::NoMemory;
use lx_step::Turn;
use std::alloc::Global;
use std::collections::VecDeque;
use std::marker::Model;

/// The states of an editor to which it can go back and forth. Of both lists the newest entry comes first. There are at
/// most 500 entries in all, and none where no state is current. Times are numbers of milliseconds from any one point
/// on.
pub struct History {
    /// For how long after a commit typing goes on.
    pub(crate) delay: u64,
    pub(crate) undo: VecDeque<Entry>,
    pub(crate) redo: VecDeque<Entry>,
    /// The state that becomes an entry next, and the places at which its tree may differ from the committed one.
    pub(crate) current: Option<State>,
    pub(crate) strays: Places,
    /// What kind of typing the last commit was, and when it was.
    pub(crate) last: Change,
    pub(crate) moment: u64,
}

// Written out, so that who drops one calls this: how each part is dropped is proved here alone.
impl Drop for History {
    fn drop(self) {
        let History {
            delay: _,
            undo,
            redo,
            current,
            strays,
            last: _,
            moment: _,
        } = self;
        drop(undo);
        drop(redo);
        drop(current);
        drop(strays);
    }
}

impl Model for History {
    ghost use Rattle.std.specs.Coded.{codes};
    ghost use Rattle.lx_trees.specs.Trees.{trees_code};
    ghost use Rattle.lx_history.specs.Kept.{Kept};
    ghost use Rattle.lx_history.specs.History.{IsHistory};
    ghost use Rattle.lx_history.specs.Inside.{history_in, kept_of};
    ghost use Rattle.lx_history.specs.Told.{AreEntriesTold};

    ghost Value = { Kept };

    ghost coded = { Prim.hlevel (codes, trees_code) };

    ghost view = { kept_of };

    ghost invariant = { λ h. IsHistory (history_in h) × AreEntriesTold h };
}

impl History {
    ghost use Rattle.lx_history.specs.Kept.{IsPrepared};
    ghost use Rattle.lx_history.specs.History.{new_history, undone, redone, history_turned, next_entry, first, cleared};

    /// A history without entries, in which typing goes on for so many milliseconds after a commit. Entries take memory from
    /// the allocator later.
    pub fn new(alloc: Global, delay: u64) -> Result<History, NoMemory>
        ensures { IfOk result (λ made. made.history ≡ new_history delay) }
    {
        Ok(History {
            delay,
            undo: VecDeque::new(alloc),
            redo: VecDeque::new(alloc),
            current: None,
            strays: Places::new(alloc),
            last: Change::Other,
            moment: 0,
        })
    }

    /// Makes room for one more entry on each list. Where there is no memory for it the history stays as it was.
    pub fn prepare(&mut self) -> Result<(), NoMemory>
        ensures same { self.new.history ≡ self.old.history }
        ensures strays { self.new.strays ≡ self.old.strays }
        ensures prepared { OnOk result (IsPrepared self.new) }
    {
        self.undo.reserve(1)?;
        self.redo.reserve(1)?;
        Ok(())
    }

    /// Takes in that a commit leads from one tree to the other, which the marks cover: at these places, too, the committed
    /// tree may differ from the current state's. It costs a look at what is marked and at what went with it, and can't fail.
    pub fn stray(&mut self, before: &Links, after: &Links, marks: &Marks)
        requires before { IsForest before.now }
        requires after { IsForest after.now }
        requires alone { roots before.now ≡ 0 ∷ [] }
        requires covered { AreCovered before.now after.now (record { touched = is_touched marks.now; noted = is_noted marks.now }) }
        ensures same { self.new.history ≡ self.old.history }
        ensures prepared { IsPrepared self.old → IsPrepared self.new }
        ensures old { IsAway self.old.history.current self.old.strays before.now → IsAway self.new.history.current self.new.strays before.now }
        ensures new { IsAway self.old.history.current self.old.strays before.now → IsAway self.new.history.current self.new.strays after.now }
    {
        self.strays.add_changes(before, after, marks);
    }

    /// The places at which the committed tree may differ from the current state's.
    pub fn strays(&self) -> &Places
        ensures { result.now ≡ self.now.strays }
    {
        &self.strays
    }

    /// The state that becomes an entry next, where there is one.
    pub fn current(&self) -> Option<&State>
        ensures { option_copied result ≡ self.now.history.current }
    {
        self.current.as_ref()
    }

    /// The state to which `undo` goes back, where there is one.
    pub fn undo_state(&self) -> Option<&State>
        ensures { option_copied result ≡ first self.now.history.undo }
    {
        match self.undo.front() {
            Some(entry) => Some(&entry.state),
            None => None,
        }
    }

    /// The state to which `redo` goes forth, where there is one.
    pub fn redo_state(&self) -> Option<&State>
        ensures { option_copied result ≡ first self.now.history.redo }
    {
        match self.redo.front() {
            Some(entry) => Some(&entry.state),
            None => None,
        }
    }

    /// The state to which `turn` goes, where there is one.
    pub fn state_at(&self, turn: Turn) -> Option<&State>
        ensures { option_copied result ≡ next_entry turn self.now.history }
    {
        match turn {
            Turn::Undo => self.undo_state(),
            Turn::Redo => self.redo_state(),
        }
    }

    /// The entry to which `turn` goes, where there is one: its state, and where that differs from the current one.
    pub fn entry_at(&self, turn: Turn) -> Option<&Entry>
        ensures state { option_map (λ entry. entry.now.state) result ≡ next_entry turn self.now.history }
        ensures told { IfSome result (λ entry. IsSomeAnd self.now.history.current (λ c. DifferAt entry.now.places c.links entry.now.state.links)) }
    {
        match turn {
            Turn::Undo => self.undo.front(),
            Turn::Redo => self.redo.front(),
        }
    }

    /// How many entries there are to go back to, and how many to go forth to: at most 500 together.
    pub fn depths(&self) -> (u32, u32)
        ensures told { (result.0 ≡ length self.now.history.undo) × (result.1 ≡ length self.now.history.redo) }
        ensures few { result.0 + result.1 ≤ 500 }
    {
        (self.undo.len() as u32, self.redo.len() as u32)
    }

    /// Goes back by an entry, at a time in milliseconds, and answers whether there was one. It takes no memory.
    #[tactic(auto, unfolding(crate::specs::History::undone))]
    pub fn undo(&mut self, moment: u64) -> bool
        requires { IsPrepared self.old }
        ensures turned { MatchBool result (undone moment self.old.history ≡ Some self.new.history) ((undone moment self.old.history ≡ None) × (self.new.history ≡ self.old.history)) }
        ensures strays { IsTrue result → self.new.strays ≡ Some [] }
    {
        let Some(entry) = self.undo.pop_front() else {
            return false;
        };
        let Entry { state, places } = entry;
        put_first(&mut self.redo, self.current.take(), places);
        self.current = Some(state);
        self.strays.clear();
        self.last = Change::Other;
        self.moment = moment;
        true
    }

    /// Goes forth by an entry, at a time in milliseconds, and answers whether there was one. It takes no memory.
    #[tactic(auto, unfolding(crate::specs::History::redone))]
    pub fn redo(&mut self, moment: u64) -> bool
        requires { IsPrepared self.old }
        ensures turned { MatchBool result (redone moment self.old.history ≡ Some self.new.history) ((redone moment self.old.history ≡ None) × (self.new.history ≡ self.old.history)) }
        ensures strays { IsTrue result → self.new.strays ≡ Some [] }
    {
        let Some(entry) = self.redo.pop_front() else {
            return false;
        };
        let Entry { state, places } = entry;
        put_first(&mut self.undo, self.current.take(), places);
        self.current = Some(state);
        self.strays.clear();
        self.last = Change::Other;
        self.moment = moment;
        true
    }

    /// Goes one way or the other by an entry, at a time in milliseconds, and answers whether there was one. It takes no
    /// memory.
    pub fn turn(&mut self, turn: Turn, moment: u64) -> bool
        requires { IsPrepared self.old }
        ensures turned { MatchBool result (history_turned turn moment self.old.history ≡ Some self.new.history) ((history_turned turn moment self.old.history ≡ None) × (self.new.history ≡ self.old.history)) }
        ensures strays { IsTrue result → self.new.strays ≡ Some [] }
    {
        match turn {
            Turn::Undo => self.undo(moment),
            Turn::Redo => self.redo(moment),
        }
    }

    /// Forgets all entries and the current state. It takes no memory.
    pub fn clear(&mut self)
        ensures cleared { self.new.history ≡ cleared self.old.history }
        ensures strays { self.new.strays ≡ Some [] }
    {
        self.undo.clear();
        self.redo.clear();
        self.current = None;
        self.strays.clear();
        self.last = Change::Other;
    }
}
