//! What caret commands mean, in the words of those who write with an editor. The steps of `lx_caret` say how each
//! command is made of edits; these are laws about those steps. There is no code here.
//!
//! * What one types is read at the caret, between what was before it and what was after it: in the text there, and in
//!   each block, cell and document around it. What is selected in a text gives way to it. A tab is read where it is
//!   put, and a line break changes nothing that is read (`typing_is_read`).
//! * The caret is right after what one types, a tab or a line break (`caret_follows`).
//! * What one removes or deletes in a text is exactly what is selected, or the cluster or word beside the caret, and
//!   nothing else (`deleting_is_exact`).
//! * Formatting changes no character, and no node but the covered texts and their parents (`formatting_keeps_text`).
//! * What is selected from one text to another of the same parent goes when it is removed or deleted, and gives way to
//!   what one types or to a new paragraph (`ranges_give_way`).
//! * Wherever the two texts are, in one block or in two, what is selected from one to the other goes when it is removed or
//!   deleted, and gives way to what one types or to a new paragraph. Where the two blocks are joined, the first reads its
//!   front and then the rest of the last (`spans_give_way`).
//! * What is selected in a text gets a format that the text didn't have, and loses one that it had. No other character's
//!   format changes. A whole text that is formatted twice is as before (`formatting_is_exact`).
//! * A paragraph that is inserted parts what is read in its block at the caret, which is at the start of the new block
//!   then (`breaking_parts_text`).
//! * Back at the start of a line, or forward at the end of one, it is joined with the line before or after it. What both
//!   read is read one after the other, and the caret is between (`joining_keeps_text`).
//! * Where one types, deletes or inserts a paragraph, all that the caret isn't in stays as it is.
//!
//! What is left where blocks are joined at a caret that have more than inline children isn't said.
#![tactic(auto)]

mod breaking;
mod deleting;
mod following;
mod formats;
mod formatting;
mod joining;
mod ranges;
mod spans;
mod typing;

pub use breaking::breaking_parts_text;
pub use deleting::deleting_is_exact;
pub use following::caret_follows;
pub use formats::formatting_is_exact;
pub use formatting::formatting_keeps_text;
pub use joining::joining_keeps_text;
pub use ranges::ranges_give_way;
pub use spans::spans_give_way;
pub use typing::typing_is_read;
