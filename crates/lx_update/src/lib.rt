//! What a line makes of a draft: its steps, the commands that they dispatch, and the steps that they queue.
#![tactic(auto)]

mod append;
mod commands;
mod dispatching;
mod ending;
mod holding;
mod laws;
mod lines;
mod names;
mod putting;
mod queue;
mod refusal;
mod resolving;
mod running;
mod script;
mod selecting;
mod setting;
mod splitting;
mod stepping;
mod turning;

pub use ending::Ending;
pub use laws::caret_commands_lie;
pub use lines::{run_deferred, run_dispatch, run_steps};
pub use refusal::Refusal;
