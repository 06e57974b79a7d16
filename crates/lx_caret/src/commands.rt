//! The caret commands. Each that isn't refused leaves a selection that lies in the root's tree: each point of a range is on
//! the root or a node below it, at a place of its text or between its children.

ghost use Rattle.std.specs.Prelude.{◌≡◌, true, OnOk, IfOk, IfSome, chars};
ghost use Rattle.lx_node.specs.Kinds.{is_item};
ghost use Rattle.lx_edit.specs.Standing.{Does, Gives};
ghost use Rattle.lx_blocks.specs.Blocks.{is_at};
ghost use Rattle.lx_caret.specs.Deleting.{delete_character_step, delete_word_step};
ghost use Rattle.lx_caret.specs.Formatting.{format_text_step};
ghost use Rattle.lx_caret.specs.Inserting.{insert_text_step, insert_line_break_step, insert_tab_step};
ghost use Rattle.lx_caret.specs.Lying.{IsLying};
ghost use Rattle.lx_caret.specs.Paragraphs.{insert_paragraph_step};
ghost use Rattle.lx_caret.specs.Removing.{remove_text_step};
ghost use Rattle.lx_caret.specs.SelectAll.{select_all_step};

use crate::deleting::{Stretch, delete};
use crate::formatting::format_selected;
use crate::inserting::{put_line_break, put_tab, put_text};
use crate::paragraphs::break_block;
use crate::removing::remove_selected;
use crate::selecting::select_content;
use lx_blocks::ready;
use lx_draft::Draft;
use lx_node::{Fault, Key};
use std::alloc::Global;

/// Puts a text in the place of what is selected, as `remove_text` removes it, and the caret after it. Where the anchor is then
/// in a normal text of the selection's format, the text goes into that. Otherwise it goes into a new text of that format, and
/// of the style of the normal text there. The new one goes between the parts of a normal text that holds the anchor strictly
/// inside; a text that isn't normal is never cut, and the new one goes before it at offset 0, and else after it. An empty text
/// only removes. Offsets are those of `lx_text`, in UTF-16 code units.
///
/// It is refused as `remove_text` is; with `WrongKind` and the kind of what may not hold a text; and with `StepLimit` and
/// `TooLarge` as the edits of a draft are.
pub fn insert_text(alloc: Global, draft: &mut Draft, text: &str) -> Result<(), Fault>
    ensures does { Does (insert_text_step (chars text.now) draft.old) draft.new result }
    ensures lying { OnOk result (IsLying draft.new) }
{
    ready(draft)?;
    put_text(alloc, draft, text)
}

/// Removes what lies between the two points of the selection. First both points go to the one that comes first in the tree,
/// from where the edits move them; where they are at one place already nothing changes. Of the texts that hold a point a normal
/// one loses what the range covers of it. One that isn't normal, and a tab, is never cut: it goes whole if the range covers
/// anything of it. The nodes wholly between the points go, each as by `remove`, so that what may not be left empty goes with
/// them. Then the inline children with which the block of the second point begins go to the end of the first point's block,
/// where both are still in the tree and neither holds the other, and the second block goes if it is empty then. Offsets are
/// those of `lx_text`, in UTF-16 code units.
///
/// It is refused with `NoSelection`, and what the selection is, where that isn't a range whose points lie in the root's tree
/// and in one table cell or in none; and with `StepLimit` as the edits of a draft are. `Memory` says that none was left.
pub fn remove_text(alloc: Global, draft: &mut Draft) -> Result<(), Fault>
    ensures does { Does (remove_text_step draft.old) draft.new result }
    ensures lying { OnOk result (IsLying draft.new) }
{
    ready(draft)?;
    remove_selected(alloc, draft)
}

/// Inserts a paragraph at the caret. The selected text is removed first, as `remove_text` does it. Then the caret's block,
/// which is the nearest paragraph, heading, quote or item from its node upwards, is cut in two: a text with the caret
/// strictly inside is split, and then, upwards from there, each link below the block that has children on both sides.
/// What is after goes into a new block right after the old one. The caret goes to the start of the new block: to offset
/// 0 of its first child where that is a text or tab, and otherwise before its children. The selection's format stays.
///
/// What the new block is goes by the old one:
///
/// * After a paragraph or a heading it is of the same kind, with the fields of the old one; but where nothing goes from a
///   heading into it, it is a paragraph of which no field is set.
/// * After a quote no field of it is set. It is a paragraph where no children but texts, tabs, line breaks, links and
///   embeds go into it, and otherwise a quote.
/// * After an item it is an item with the value 1, of which else nothing is set. Where the old one has a check mark, set
///   or not, it has one that isn't set.
///
/// Where the caret is in no block, an empty paragraph is added there, and the caret goes into it. Where it is in an item
/// without children, the item is left alone and answered, since its list decides what becomes of it. Otherwise the answer
/// is `None`.
///
/// It is refused as `remove_text` is, with `NoSelection` where there is no range to go by; in no block with `WrongKind`,
/// where what is at the caret may not hold a paragraph; and as the draft's own edits are: with `StepLimit` where 100,000
/// counts were taken, and with `TooLarge` where the new nodes would bring what was written above 16,777,216 scalar values.
/// A draft on which it was refused is only fit to be dropped.
pub fn insert_paragraph(alloc: Global, draft: &mut Draft) -> Result<Option<Key>, Fault>
    ensures gives { Gives (insert_paragraph_step draft.old) (λ item. record { draft = draft.new; item = item }) draft.new result }
    ensures item { IfOk result (λ item. IfSome item (λ key. is_at is_item draft.new.forest key ≡ true)) }
    ensures lying { OnOk result (IsLying draft.new) }
{
    ready(draft)?;
    break_block(alloc, draft)
}

/// Puts a line break in the place of what is selected, as `remove_text` removes it, and the caret after it in its parent. It
/// goes between the parts of a normal text that holds the anchor strictly inside; a text that isn't normal is never cut, and the
/// break goes before it at offset 0, and else after it.
///
/// It is refused as `remove_text` is; with `WrongKind` and the kind of what may not hold a line break; and with `StepLimit` and
/// `TooLarge` as the edits of a draft are.
pub fn insert_line_break(alloc: Global, draft: &mut Draft) -> Result<(), Fault>
    ensures does { Does (insert_line_break_step draft.old) draft.new result }
    ensures lying { OnOk result (IsLying draft.new) }
{
    ready(draft)?;
    put_line_break(alloc, draft)
}

/// Puts a tab in the place of what is selected, as `remove_text` removes it, in the selection's format, and the caret after
/// its character. It goes where `insert_line_break` puts a line break.
///
/// It is refused as `remove_text` is; with `WrongKind` and the kind of what may not hold a tab; and with `StepLimit` and
/// `TooLarge` as the edits of a draft are.
pub fn insert_tab(alloc: Global, draft: &mut Draft) -> Result<(), Fault>
    ensures does { Does (insert_tab_step draft.old) draft.new result }
    ensures lying { OnOk result (IsLying draft.new) }
{
    ready(draft)?;
    put_tab(alloc, draft)
}

/// Deletes what is selected, or else a character beside the caret: the one before it where `back` is set, and the one
/// after it otherwise. A character is an extended grapheme cluster, so it may be several scalar values.
///
/// - In a text with characters on that side, the cluster there is cut out. A tab, and a text that isn't normal, is
///   removed whole.
/// - Otherwise the last leaf of the block before the caret loses its last cluster, or the first leaf after the caret its
///   first one. A leaf without characters, such as a line break, goes, and so does a tab or a text that isn't normal.
/// - Where the block has no such leaf, it is joined back to the line before it in the same cell, or among those in no
///   cell. A line is a text block that is empty or has an inline child. The inline children with which the block begins go
///   after those of the line that come before the block, a caret on the block goes along, and the block is removed if it
///   is empty then. A horizontal rule that comes between is removed in place of all that, and a table stops it: nothing
///   changes. Forward the line after the block is joined so to the line before itself, and a rule or table after the
///   block does the same as one before it.
/// - Where there is no line, rule or table on that side, or the caret is in no block, nothing changes.
///
/// It is refused with `NoSelection` where the selection is no range, where a point of it doesn't lie in the root's tree,
/// and where one lies in another cell than the other; and with `StepLimit` where the update has taken its 100,000 counts.
/// `Memory` says that none was left. A draft on which it was refused is only fit to be dropped.
#[tactic(auto, unfolding(crate::specs::Deleting::delete_character_step))]
pub fn delete_character(alloc: Global, draft: &mut Draft, back: bool) -> Result<(), Fault>
    ensures does { Does (delete_character_step back draft.old) draft.new result }
    ensures lying { OnOk result (IsLying draft.new) }
{
    ready(draft)?;
    delete(alloc, draft, Stretch::Cluster, back)
}

/// Deletes what is selected, or else a word beside the caret: the one before it where `back` is set, and the one after it
/// otherwise, with the white space between it and the caret. Words are the pieces between the word bounds of Unicode in the
/// text of the caret, or of the leaf, that loses them. All else is as `delete_character` does it, and it is refused for the
/// same causes.
#[tactic(auto, unfolding(crate::specs::Deleting::delete_word_step))]
pub fn delete_word(alloc: Global, draft: &mut Draft, back: bool) -> Result<(), Fault>
    ensures does { Does (delete_word_step back draft.old) draft.new result }
    ensures lying { OnOk result (IsLying draft.new) }
{
    ready(draft)?;
    delete(alloc, draft, Stretch::Word, back)
}

/// Switches a format bit in the texts and tabs that the selected range covers. The bits are bold 1, italic 2,
/// strikethrough 4, underline 8, code 16, subscript 32, superscript 64 and highlight 128. Where the first covered text has
/// the bit, it is cleared in all of them, and else it is set in all. Subscript and superscript exclude each other: to set
/// one clears the other. The range then takes the first one's format, which is that of text typed there. Where no character
/// is covered, the bit is switched in the range's format alone.
///
/// A text that is covered in part is split first, so that only what is covered is formatted, and the range's points go
/// along as `split_text` moves them. A text that isn't of normal mode is never split: it is formatted whole, and so is a
/// tab.
///
/// It is refused with `NoSelection` where the selection is no range, where a point of it doesn't lie in the root's tree, and
/// where one lies in another cell than the other; and as the edits are of which it is made, where 100,000 counts were
/// taken, and where what was written would come above 16,777,216 scalar values.
pub fn format_text(alloc: Global, draft: &mut Draft, bit: u16) -> Result<(), Fault>
    ensures does { Does (format_text_step bit draft.old) draft.new result }
    ensures lying { OnOk result (IsLying draft.new) }
{
    ready(draft)?;
    format_selected(alloc, draft, bit)
}

/// Selects the whole content, by a range of format 0 from the start of the first leaf, down first children from the root,
/// to the end of the last one, down last children. A text begins before its characters and ends after them. An element
/// without children has both at 0, and a leaf of another kind before and after it in its parent. Offsets of texts are
/// those of `lx_text`, in UTF-16 code units. It is refused as `Draft::select` is.
pub fn select_all(draft: &mut Draft) -> Result<(), Fault>
    ensures does { Does (select_all_step draft.old) draft.new result }
    ensures lying { OnOk result (IsLying draft.new) }
{
    ready(draft)?;
    select_content(draft)
}
