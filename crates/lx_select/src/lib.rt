//! Points and selections, and where each edit moves them.
//!
//! A point is a place in a node. Its offset counts the UTF-16 code units of a text, or the children of an
//! element. An edit moves the two points of a range, and leaves every other selection as it is. A sum of
//! offsets ends at 4,294,967,295, and a difference begins at 0.
#![tactic(auto)]

mod keys;
mod rules;
mod selection;

pub use keys::Keys;
pub use selection::Selection;
