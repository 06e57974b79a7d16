//! Lines of the program's input, and the replies to them: what JSON asks for, and how an answer is
//! written.
//!
//! A line is an update by steps, a command that is dispatched, a rule, a listener, a document that is loaded, a
//! question, or what clears the history. It may carry its time, and an update, a dispatch and a load may have tags,
//! which say how the commit is recorded. Steps hold steps where they queue them, and so does a listener. Each step is
//! an object that names its members and has no others; `specs/Grammar.antt` begins the grammar, which is stated over
//! JSON values. What is asked of one value, and the fields that an object gives a new node, is `lx_fields`'s.
#![tactic(auto)]

mod causes;
mod commands;
mod conditions;
mod edits;
mod listeners;
mod members;
mod new_nodes;
mod ops;
mod parts;
mod patches;
mod read;
mod recording;
mod references;
mod reply;
mod rules;
mod scripts;
mod selection;
mod steps;
mod words;
mod write;

pub use lx_fields::{FieldFault, fields_of};
pub use read::{line_of, read_line, read_value};
pub use reply::Reply;
pub use write::{write_commit, write_reply, write_slice, write_state};
