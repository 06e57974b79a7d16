//! Pieces of texts between offsets. An offset counts UTF-16 code units, and no crate above knows more than these
//! contracts: what offsets count can change here alone.
#![tactic(auto)]

mod blocks;
mod bytes;
mod clusters;
mod laws;
mod offsets;
mod pieces;

pub use bytes::piece_at;
pub use clusters::{cluster_after, cluster_before, word_after, word_before};
pub use laws::texts_are_told;
pub use offsets::{has_offset, rest_from, within};
pub use pieces::{length, length_of, slice, splice};
