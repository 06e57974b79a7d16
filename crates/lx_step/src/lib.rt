//! What a line asks for: the steps of an update, the references in them, patches of fields, commands, rules and listeners.
//!
//! A step names nodes by reference, since some of them are only made while the line runs. Steps hold steps
//! where they queue them. Nothing here knows a forest. `Patch::onto` writes the members of a patch into fields.
#![tactic(auto)]

mod built_in;
mod command;
mod line;
mod listener;
mod member;
mod patch;
mod reference;
mod rule;
mod step;

pub use built_in::{BuiltIn, CaretCommand, ListCommand, TableCommand, Turn, row_of};
pub use command::{Command, Payload};
pub use line::{Form, Line, Shown, Tags};
pub use listener::{Listener, When};
pub use member::{Member, Members};
pub use patch::Patch;
pub use reference::{PointRef, Reference, References, SelectionRef};
pub use rule::{Condition, Conditions, NewNode, Rule, SelfEdit, SelfEdits, TypeRow};
pub use step::{Offsets, Step, Steps};
