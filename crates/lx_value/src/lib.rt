//! The JSON value that bytes are, read in room that is lent.
//!
//! `specs/Ahead.antt` says what tokens begin with, over the grammar of `json` and the numbers of `serde_json`.
#![tactic(auto)]

mod number;
mod reading;
mod room;

pub use reading::{Unread, read_value};
pub use room::Room;
