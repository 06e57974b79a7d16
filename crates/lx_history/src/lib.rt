//! The states to which an editor can go back, and which of its commits become one of them.
#![tactic(auto)]

mod change;
mod entry;
mod few;
mod history;
mod kinds;
mod laws;
mod notes;
mod texts;

pub use entry::Entry;
pub use history::History;
pub use kinds::{Action, Change};
pub use laws::histories_turn;
