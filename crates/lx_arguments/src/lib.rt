//! The program's words: what they ask for, or why they are not taken.
#![tactic(auto)]

mod command;
mod options;

pub use options::{Generated, Mode, Options, Refused, options_of};
