//! The keys that edits mark, so that work after an edit goes to what it touched and to nothing else.
#![tactic(auto)]

mod flags;
mod laws;
mod marks;
mod names;

pub use laws::marks_are_told;
pub use marks::Marks;
