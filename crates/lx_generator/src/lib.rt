//! Sessions that are generated from a number, each run on a new editor and summed up as a whole: the same lines come of
//! the same number on every machine.
#![tactic(auto)]

mod lines;
mod session;
mod summary;
mod tally;

pub use session::tell_session;
