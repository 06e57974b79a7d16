//! Stores: maps from key to item that can be forked.
//!
//! A fork is equal to the store that it was made of, and what is done to either afterwards leaves the other
//! as it was. The items are in pages of 32 and the pages in chapters of 32, which a store and its forks share
//! until one of them writes; then that one writes in a copy of the chapter and in a copy of the page, which share
//! all else. An item that is shared is twinned when it is written, and each twin is counted, so that a caller can
//! say how many items a call has copied.
#![tactic(auto)]

mod chapter;
mod copies;
mod differing;
mod edit;
mod item;
mod leaf;
mod node;
mod page;
mod slot;
mod slots;
mod store;
mod table;

pub use copies::Copies;
pub use edit::Edit;
pub use item::{Item, Tally};
pub use store::Store;
