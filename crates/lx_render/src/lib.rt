//! How a node is shown: its element, its attributes and its text, and whether a line break ends it.
//!
//! The attributes are in byte order of their names. What has no value isn't among them.
#![tactic(auto)]

mod attributes;
mod breaks;
mod classes;
mod format;
mod shape;
mod tags;
mod values;

pub use breaks::needs_break;
pub use shape::{Shape, describe};
pub use tags::tag_of;
