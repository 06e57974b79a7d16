//! Views that lag: host trees that take the operations of commits when they are told to, a batch at a time.
//!
//! A hub keeps a tip, which takes each batch as it is published, the newest 100 batches, and up to 32 views. A view is
//! attached as a copy of the tip, and has then the host tree of the commit that it has reached, whatever was published and
//! delivered in between, ids included.
#![tactic(auto)]

mod hub;
mod lagging;
mod laws;

pub use hub::{Attached, Delivery, Hub};
pub use laws::views_lag;
