//! The links of trees in a table, which names its entries by numbers: how one is taken out from between its neighbours,
//! and put in between others. What an entry holds beside its links isn't known here, nor how a table keeps its entries.
#![tactic(auto)]

mod joints;
mod links;

pub use joints::{Gap, Keeper, link_in, unlink};
pub use links::{Change, Links};
