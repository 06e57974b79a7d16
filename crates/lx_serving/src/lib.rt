//! An editor with what is beside it: nothing, views that lag, or an outline.
//!
//! A layer has lines of its own, objects with one member of its name, and answers those. All other lines go to the editor, and
//! the layer learns of each commit. This is the one place where they part.
#![tactic(auto)]

mod asking;
mod laws;
mod layer;
mod noting;
mod outlined;
mod passing;
mod refusing;
mod served;
mod setup;
mod telling;
mod views;

pub use laws::views_show;
pub use served::Served;
pub use setup::{Beside, Setup};
