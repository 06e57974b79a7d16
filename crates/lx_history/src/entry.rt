ghost use Rattle.std.specs.Prelude.{◌≡◌, ◌<◌, ◌≤◌, length, take};
ghost use Rattle.std.specs.VecDeque.{deque_len, deque_capacity};
ghost use Rattle.lx_forest.specs.Forest.{Forest};
ghost use Rattle.lx_history.specs.History.{entry_before, most_entries};
ghost use Rattle.lx_history.specs.Told.{states, with_told, AreTold, IsFirstJoined};

use lx_compare::Places;
use lx_draft::State;
use std::collections::VecDeque;

/// A state to which a history goes back or forth, and the places at which its tree may differ from that of the next state on
/// the way to the current one.
#[derive(Drop)]
pub struct Entry {
    pub state: State,
    pub places: Places,
}

/// Puts an entry in front of the others, if there is a state. There is room for it.
pub(crate) fn put_first(entries: &mut VecDeque<Entry>, state: Option<State>, places: Places)
    requires { deque_len entries.old < deque_capacity entries.old }
    ensures told { entries.new.items ≡ with_told state places entries.old.items }
    ensures states { states entries.new.items ≡ entry_before state (states entries.old.items) }
{
    if let Some(state) = state {
        entries.push_front_reserved(Entry { state, places });
    }
}

/// Has the first entry, if there is one, tell of these places too.
pub(crate) fn join_first(entries: &mut VecDeque<Entry>, places: &Places)
    ensures joined { IsFirstJoined places.now entries.old.items entries.new.items }
    ensures states { states entries.new.items ≡ states entries.old.items }
    ensures room { deque_len entries.new ≡ deque_len entries.old }
{
    if let Some(entry) = entries.front_mut() {
        entry.places.join(places);
    }
}

/// Drops the oldest entries, so that at most 500 are left.
pub(crate) fn keep_newest(entries: &mut VecDeque<Entry>)
    ensures states { states entries.new.items ≡ take most_entries (states entries.old.items) }
    ensures told { (beside : Forest) → AreTold beside entries.old.items → AreTold beside entries.new.items }
    ensures few { length (states entries.new.items) ≤ most_entries }
{
    entries.truncate(500);
}
