//! What copying and pasting mean, in the words of those who write with an editor. The steps of `lx_clip` say what a slice is and
//! how it is put in; these are laws about those. There is no code here.
#![tactic(auto)]

mod laws;

pub use laws::{copies_are_pasted, pasted_stand_between, slices_are_read_back};
