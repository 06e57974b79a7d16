//! Drafts: what an update works on, and what it leaves for a commit. A draft is a fork of a committed
//! state with its marks, its points and its counts. Each edit of it is a primitive edit of its forest
//! that marks what it touches, moves the points of the selection, and takes a count.
#![tactic(auto)]

mod beside;
mod counts;
mod draft;
mod edits;
mod fields;
mod freezing;
mod laws;
mod marking;
mod places;
mod rewriting;
mod rounds;
mod rules;
mod selecting;
mod state;
mod texts;

pub use counts::over;
pub use draft::Draft;
pub use freezing::limits_fault;
pub use laws::drafts_are_covered;
pub use rounds::{Flags, Round};
pub use rules::PointRule;
pub use selecting::is_place;
pub use state::{Frozen, State};
pub use texts::with_text;
