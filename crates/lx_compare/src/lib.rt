//! What differs between two trees, as marks that cover the two.
#![tactic(auto)]

mod comparing;
mod marking;
mod places;
mod same;

pub use comparing::{differences, differences_at};
pub use places::Places;
