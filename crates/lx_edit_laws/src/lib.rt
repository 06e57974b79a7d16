//! What composite edits mean, in the words of those who write with an editor: what is read before and after, which nodes
//! stay as they are, in which order children come, where points are, and what undoes what. The steps of `lx_edit` say
//! how each edit is made of others; these are laws about those steps. There is no code here.
#![tactic(auto)]

mod joins;
mod splits;
mod wraps;

pub use joins::joins_are_told;
pub use splits::splits_are_told;
pub use wraps::wraps_are_told;
