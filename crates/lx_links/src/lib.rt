//! Links: nodes by key, each with its parent, its neighbours and its ends, that stand for a forest.
#![tactic(auto)]

mod changes;
mod child_at;
mod children;
mod edits;
mod faults;
mod links;
mod nodes;
mod order;
mod preorder;
mod reads;
mod records;
mod splices;
mod sums;
mod sweep;
mod views;
mod walks;

pub use children::Children;
pub use faults::misfit;
pub use links::Links;
pub use records::{Counted, Records};
