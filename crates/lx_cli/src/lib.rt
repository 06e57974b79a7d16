//! A run of the program, from the bytes of a source to the bytes of a sink: each line of the input is answered by the
//! editor, or by the hub beside it. `run` is what the program `lexical` does, for any arguments, sources and sinks, and
//! `Status` is how it ended.
#![tactic(auto)]

mod program;
mod reading;
mod session;
mod status;
mod sure;
mod writing;

pub use program::run;
pub use status::Status;
pub use sure::run_surely;
