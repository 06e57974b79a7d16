//! The editor: a committed state and its view, the rules and listeners that are registered, and what a line makes of
//! them.
#![tactic(auto)]

mod answer;
mod change;
mod commanding;
mod editor;
mod gathering;
mod judging;
mod leaving;
mod line;
mod loading;
mod marking;
mod outcome;
mod pending;
mod reconciling;
mod recording;
mod registering;
mod saying;
mod turning;

pub use answer::answer_line;
pub use change::Change;
pub use editor::Editor;
pub use outcome::Outcome;
