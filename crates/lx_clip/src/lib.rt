//! The clipboard: what of a document a range covers, as a slice, and a slice put into a draft at the caret. A slice is an object
//! with a list of nodes, each written as in a document. It is read as the nodes of a document are, and refused at the first
//! thing in it that isn't as it has to be, with the place of that in the slice.
#![tactic(auto)]

mod adding;
mod blocks;
mod covering;
mod ending;
mod laws;
mod pasting;
mod slicing;

pub use laws::{pastes_are_covered, pastes_lie};
pub use pasting::{insert, paste};
pub use slicing::slice;
