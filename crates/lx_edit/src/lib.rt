//! Composite edits of a draft: a node removed, replaced, wrapped or unwrapped, children that go elsewhere, and texts that
//! are cut in pieces or joined. Each is made of the draft's own edits, which mark, count, and move points; what it adds is
//! where points go that these would leave behind. A draft on which one was refused is only fit to be dropped.
#![tactic(auto)]

mod around;
mod children;
mod conditions;
mod join;
mod laws;
mod places;
mod removing;
mod replacing;
mod split;
mod texts;
mod unwrapping;

pub use around::join_around;
pub use children::{move_children, move_each, move_to_end};
pub use conditions::{admitted, split_fault};
pub use join::join_texts;
pub use laws::{edits_are_covered, edits_are_homed};
pub use places::{children_of, element_point, text_point};
pub use removing::remove;
pub use replacing::{replace, wrap};
pub use split::split_text;
pub use texts::length_at;
pub use unwrapping::{move_before, move_behind, unwrap};
