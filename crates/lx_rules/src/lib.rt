//! Rules that change nodes until nothing is left to change: what a rule answers at a node's view, and which edits have
//! nothing to do there.
#![tactic(auto)]

mod any_rule;
mod built_in;
mod changes;
mod conditions;
mod glance;
mod idling;
mod transform;
mod types;

pub use any_rule::AnyRule;
pub use built_in::{CellParagraph, ListMerge};
pub use glance::Glance;
pub use idling::{idle_at_glance, idle_within};
pub use transform::{KindSet, Transform};
