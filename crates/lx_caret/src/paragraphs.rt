//! A paragraph inserted at the caret: a block cut in two.

ghost use Rattle.std.specs.Prelude.{◌≡◌, true};
ghost use Rattle.lx_node.specs.Kinds as kinds;
ghost use Rattle.lx_edit.specs.Standing.{Does, Gives};
ghost use Rattle.lx_blocks.specs.Blocks as blocks;
ghost use Rattle.lx_blocks.specs.Ranges as ranges;
ghost use Rattle.lx_caret.specs.Paragraphs as paragraphs;
ghost use Rattle.lx_caret.specs.Paragraphs.{insert_paragraph_step};

use crate::adding::{add, is_inside};
use crate::following::make_next;
use crate::parting::part_up;
use crate::removing::remove_selected;
use lx_blocks::{
    block, children_from, has_characters_at, is_item_at, place_caret, ready, shown_range,
};
use lx_draft::Draft;
use lx_edit::{admitted, element_point, move_each, split_text, text_point};
use lx_links::Links;
use lx_node::{Cause, Fault, Fields, Key, Kind, Point};
use std::alloc::Global;

/// Removes what is selected, and cuts the block at the caret in two.
#[tactic(auto, unfolding(crate::specs::Paragraphs::insert_paragraph_step))]
pub(crate) fn break_block(alloc: Global, draft: &mut Draft) -> Result<Option<Key>, Fault>
    ensures { Gives (insert_paragraph_step draft.old) (λ item. record { draft = draft.new; item = item }) draft.new result }
{
    remove_selected(alloc, draft)?;
    let item = empty_item(draft);
    break_at_caret(alloc, draft, &item)?;
    Ok(item)
}

/// The block, where it is an item without children.
fn if_empty_item(links: &Links, block: Option<Key>) -> Option<Key>
    ensures { result ≡ paragraphs.if_empty_item links.now block }
{
    let block = block?;
    if is_item_at(links, block) && links.size(block) == 0 {
        Some(block)
    } else {
        None
    }
}

/// The item of the caret, where it has no children.
fn empty_item(draft: &Draft) -> Option<Key>
    ensures { result ≡ paragraphs.empty_item draft.now }
{
    let links = draft.links();
    match shown_range(draft.selection()) {
        Some(range) => if_empty_item(links, block(links, range.anchor.key)),
        None => None,
    }
}

/// Goes by the caret, where a range is selected.
fn break_at_caret(alloc: Global, draft: &mut Draft, item: &Option<Key>) -> Result<(), Fault>
    ensures { Does (ranges.at_anchor (λ p format. paragraphs.paragraph_at item.now (blocks.block_of draft.old.forest p.key) p) draft.old) draft.new result }
{
    admitted(draft, None)?;
    match shown_range(draft.selection()) {
        Some(range) => break_at(alloc, draft, item, &range.anchor),
        None => Err(Fault::Cause(Cause::NoSelection(draft.selection().kind()))),
    }
}

/// Cuts the block of a point, or adds a paragraph where there is none. An empty item is left alone.
#[tactic(auto, using(lx_blocks::proofs::Blocked::block_is))]
fn break_at(
    alloc: Global,
    draft: &mut Draft,
    item: &Option<Key>,
    point: &Point,
) -> Result<(), Fault>
    ensures { Does (paragraphs.paragraph_at item.now (blocks.block_of draft.old.forest point.now.key) point.now draft.old) draft.new result }
{
    if item.is_some() {
        return Ok(());
    }
    match block(draft.links(), point.key) {
        Some(block) => cut_block(alloc, draft, block, point),
        None => add_paragraph(alloc, draft, point),
    }
}

/// Adds an empty paragraph at a point, with the caret in it.
#[tactic(auto, unfolding(crate::specs::Paragraphs::paragraph_added), using(lx_blocks::proofs::Labelled::paragraph_suits, crate::proofs::Nexts::newest_is))]
fn add_paragraph(alloc: Global, draft: &mut Draft, point: &Point) -> Result<(), Fault>
    ensures { Does (paragraphs.paragraph_added point.now draft.old) draft.new result }
{
    let fields = Fields::plain_element(alloc);
    let key = add(alloc, draft, point, Kind::Paragraph, fields)?;
    place_caret(draft, &element_point(key, 0));
    Ok(())
}

/// Cuts a block in two at a point below it.
#[tactic(auto, unfolding(crate::specs::Paragraphs::block_cut))]
fn cut_block(alloc: Global, draft: &mut Draft, block: Key, point: &Point) -> Result<(), Fault>
    requires { blocks.is_at kinds.is_text_block draft.old.forest block ≡ true }
    ensures { Does (paragraphs.block_cut block point.now draft.old) draft.new result }
{
    ready(draft)?;
    cut_text(alloc, draft, point)?;
    let index = part_up(alloc, draft, block, point)?;
    let moved = children_from(alloc, draft.links(), block, index)?;
    move_on(alloc, draft, block, &moved)
}

/// Splits a text that holds a point strictly inside.
pub fn cut_text(alloc: Global, draft: &mut Draft, point: &Point) -> Result<(), Fault>
    ensures { Does (paragraphs.cut_open point.now draft.old) draft.new result }
{
    if is_inside(draft, point) {
        split_text(alloc, draft, point.key, &[point.offset])?;
    }
    Ok(())
}

/// Moves nodes into a new block after one, and the caret to its start.
#[tactic(auto, unfolding(crate::specs::Paragraphs::moved_on))]
fn move_on(alloc: Global, draft: &mut Draft, block: Key, moved: &[Key]) -> Result<(), Fault>
    requires { blocks.is_at kinds.is_text_block draft.old.forest block ≡ true }
    ensures { Does (paragraphs.moved_on block moved.now draft.old) draft.new result }
{
    let next = make_next(alloc, draft, block, moved)?;
    draft.put_behind(next, block)?;
    move_each(draft, next, moved)?;
    let start = start_of(draft.links(), next, moved);
    place_caret(draft, &start);
    Ok(())
}

/// The start of a block with these children.
fn start_of(links: &Links, block: Key, children: &[Key]) -> Point
    ensures { result ≡ paragraphs.start_of_first links.now block children.now }
{
    match children {
        [first, ..] => {
            if has_characters_at(links, *first) {
                text_point(*first, 0)
            } else {
                element_point(block, 0)
            }
        }
        [] => element_point(block, 0),
    }
}
