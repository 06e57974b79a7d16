//! From one tree to the next: the operations that make a view show a tree. `operations` finds those between two trees from
//! the marks that cover them, and skips what carries no mark. `operations_by_parents` asks less of the marks, and reads
//! more. `unkept` says how many nodes of the later tree keep no host, and so how many ids the operations may take.
//! `fresh` makes a view from nothing.
#![tactic(auto)]

mod batch;
mod counting;
mod creation;
mod faces;
mod family;
mod looks;
mod moves;
mod progress;
mod reconciling;
mod views;
mod walking;
mod windows;

pub use batch::{Batch, operations, operations_by_parents};
pub use counting::unkept;
pub use creation::{create_children, create_tree};
pub use looks::{Look, Looked, Reads};
pub use moves::Move;
pub use views::fresh;
pub use walking::walk;
