//! Nodes of an editor state: keys, texts, kinds, fields, links and the causes of refusals.
#![tactic(auto)]

mod cause;
mod characters;
mod counts;
mod equal;
mod fields;
mod key;
mod kind;
pub mod limits;
mod memory;
mod node;
mod sequence;
mod text;

pub use cause::{Cause, Fault, Limit, Lost, Named, Point, PointKind, SelectionKind};
pub use counts::units;
pub use fields::{Align, Direction, ElementFields, Extra, Fields, Mode, TextFields};
pub use key::Key;
pub use kind::{Kind, Kinds, ListType};
pub use memory::NoMemory;
pub use node::{Node, View};
pub use sequence::{Copied, Sequence};
pub use text::{Txt, copy_optional};
