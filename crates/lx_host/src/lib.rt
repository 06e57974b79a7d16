//! The host tree that shows an editor state, and the operations that change it.
//!
//! A host tree is host 0 with the hosts below it, and hosts that aren't placed yet. Hosts are named by
//! ids, which are given in the order of creation and never again. An operation fits a host tree, or it
//! doesn't, and one that fits has one effect. What host 0 shows, with all below it, has one HTML.
//!
//! Room for operations is reserved first, which may want memory and changes nothing else. They are made after
//! that, and take none.
#![tactic(auto)]

mod copying;
mod grove;
mod keys;
mod linked;
mod op;
mod page;
mod removal;
mod room;
mod scan;
mod stock;
mod tag;
mod tree;

pub use op::{Attrs, Op, Ops};
pub use tag::{Inner, Name, Outer, Tag};
pub use tree::HostTree;
