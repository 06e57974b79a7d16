//! Caret commands: what typing, deleting, breaking and formatting make of a draft. Each goes by the selection, is made of
//! the edits of a draft and of those in `lx_edit`, and is refused only for a cause that its step names. A draft on which one
//! was refused is only fit to be dropped. Offsets are those of `lx_text`, in UTF-16 code units.
#![tactic(auto)]

mod adding;
mod commands;
mod deleting;
mod following;
mod formatting;
mod inserting;
mod joining;
mod laws;
mod paragraphs;
mod parting;
mod pieces;
mod removing;
mod selecting;

pub use adding::{kind_around, no_room, open, put_by};
pub use commands::{
    delete_character, delete_word, format_text, insert_line_break, insert_paragraph, insert_tab,
    insert_text, remove_text, select_all,
};
pub use inserting::{anchored, place_behind};
pub use laws::{commands_are_covered, selections_lie};
pub use paragraphs::cut_text;
pub use parting::part_up;
pub use removing::remove_empty;
