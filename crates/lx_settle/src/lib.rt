//! Settling: rules and joins, round after round, until nothing is left to handle. What is left is at rest for the
//! rules, and no simple text in it is empty or beside one like it.
#![tactic(auto)]

mod acting;
mod glances;
mod laws;
mod passes;
mod settling;

pub use laws::settling_ends;
pub use settling::settle;
