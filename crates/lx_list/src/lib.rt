//! Lists: commands that make them of lines and lines of them, nest their items, check items, and give items their numbers.
//! Each command is made of the edits of a draft and of those in `lx_edit`, and is refused only for a cause that its step
//! names. A draft on which one was refused is only fit to be dropped.
//!
//! * `make_list`, `remove_list`, `indent` and `outdent` go by the selected lines.
//! * `toggle_checked` goes by the block of the anchor, and `set_checked` by an item.
//! * `paragraph_in_item` ends a list at an item without children.
//! * `number` is no command: an editor calls it as a draft comes to rest. `number_all` does the same to any draft.
#![tactic(auto)]

mod changing;
mod checking;
mod commands;
mod dissolving;
mod ending;
mod indenting;
mod kinds;
mod laws;
mod lines;
mod listing;
mod making;
mod nesting;
mod numbering;
mod outdenting;
mod parts;
mod retyping;
mod touched;
mod weighing;
mod windows;

pub use checking::{set_checked, toggle_checked};
pub use commands::{indent, make_list, outdent, remove_list};
pub use ending::paragraph_in_item;
pub use laws::{
    empty_items_are_there, list_selections_lie, lists_are_covered, numbered_stays_swept,
};
pub use numbering::{number, number_all};
