//! What a commit did to the nodes of a tree, and an outline of headings that is kept by that.
//!
//! `events` says which nodes a commit destroyed, created and updated. An `Outline` is changed by the events of a commit
//! alone, and is then the one that the new tree has: the number of its nodes and of its characters, and each heading with its
//! level and its text. It reads the nodes that the events name, and those of the headings above them.
#![tactic(auto)]

mod above;
mod applying;
mod differing;
mod event;
mod gathering;
mod headings;
mod keys;
mod outline;
mod reading;
mod sums;
mod telling;

pub use event::Event;
pub use headings::{Entry, Heading};
pub use outline::Outline;
pub use telling::events;
