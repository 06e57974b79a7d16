//! Removing the text of a range.

ghost use Rattle.std.specs.Prelude.{◌≡◌, true};
ghost use Rattle.lx_forest.specs.Lookups.{is_attached};
ghost use Rattle.lx_edit.specs.InTurn.{in_turn};
ghost use Rattle.lx_edit.specs.Standing.{Does};
ghost use Rattle.lx_caret.specs.Removing as removing;
ghost use Rattle.lx_caret.specs.Removing.{remove_text_step};

use lx_blocks::{
    Ranged, block, in_order, is_collapsed, is_normal_at, leading, outermost, place_caret, range_of,
};
use lx_draft::Draft;
use lx_edit::{move_each, remove};
use lx_links::Links;
use lx_node::{Fault, Key, Point, PointKind};
use std::alloc::Global;

/// Cuts a piece out of a normal text. Another text, and a tab, goes whole. Nothing is to be cut between equal offsets.
#[tactic(auto, unfolding(crate::specs::Removing::cut_step), using(lx_edit::proofs::Tails::no_characters))]
fn cut(draft: &mut Draft, key: Key, from: u32, to: u32) -> Result<(), Fault>
    ensures { Does (removing.cut_step key from to draft.old) draft.new result }
{
    if from == to {
        Ok(())
    } else if is_normal_at(draft, key) {
        Ok(draft.splice(key, from, to, "")?)
    } else {
        remove(draft, key)
    }
}

/// How far a range goes in the text of its start.
pub(crate) fn start_part(draft: &Draft, start: &Point, end: &Point) -> u32
    ensures { result ≡ removing.start_part draft.now.forest start.now end.now }
{
    if start.key == end.key {
        end.offset
    } else {
        draft.text_length(start.key)
    }
}

/// Cuts the part of a range in the text of its start.
fn cut_start(draft: &mut Draft, start: &Point, end: &Point) -> Result<(), Fault>
    ensures { Does (removing.start_cut start.now end.now start.now.kind draft.old) draft.new result }
{
    match start.kind {
        PointKind::Text => {
            let to = start_part(draft, start, end);
            cut(draft, start.key, start.offset, to)
        }
        PointKind::Element => Ok(()),
    }
}

/// Cuts the part of a range in the text of its end, if it is another one.
fn cut_end(draft: &mut Draft, start: &Point, end: &Point) -> Result<(), Fault>
    ensures { Does (removing.end_cut start.now end.now end.now.kind draft.old) draft.new result }
{
    match end.kind {
        PointKind::Text => {
            if start.key == end.key {
                Ok(())
            } else {
                cut(draft, end.key, 0, end.offset)
            }
        }
        PointKind::Element => Ok(()),
    }
}

/// Removes a node if it still has a parent: it may have gone with one that was removed before.
#[tactic(auto, unfolding(crate::specs::Removing::removed_below))]
fn remove_below(draft: &mut Draft, key: Key) -> Result<(), Fault>
    ensures { Does (removing.removed_below key draft.old) draft.new result }
{
    if draft.links().parent(key).is_some() {
        remove(draft, key)
    } else {
        Ok(())
    }
}

/// Removes a node if it is empty.
#[tactic(auto, unfolding(crate::specs::Removing::removed_empty))]
pub fn remove_empty(draft: &mut Draft, key: Key) -> Result<(), Fault>
    ensures { Does (removing.removed_empty key draft.old) draft.new result }
{
    if draft.links().size(key) == 0 {
        remove(draft, key)
    } else {
        Ok(())
    }
}

/// Removes nodes, in order, as far as they still have parents.
#[tactic(auto, unfolding(lx_edit::specs::InTurn::in_turn))]
fn remove_each(draft: &mut Draft, keys: &[Key]) -> Result<(), Fault>
    ensures { Does (in_turn removing.removed_below keys.now draft.old) draft.new result }
{
    for key in keys {
        remove_below(draft, *key)?;
    }
    Ok(())
}

/// Whether both blocks are in the tree, and neither holds the other.
fn are_apart(links: &Links, a: Key, b: Key) -> bool
    ensures { result ≡ removing.are_apart links.now a b }
{
    (links.is_attached(a) && links.is_attached(b))
        && (!links.is_within(a, b) && !links.is_within(b, a))
}

/// Moves what the second block begins with to the first, where there are both.
#[tactic(auto, unfolding(crate::specs::Removing::merge_step))]
fn merge(
    alloc: Global,
    draft: &mut Draft,
    first: Option<Key>,
    second: Option<Key>,
) -> Result<(), Fault>
    ensures { Does (removing.merge_step first second draft.old) draft.new result }
{
    match (first, second) {
        (Some(first), Some(second)) => merge_blocks(alloc, draft, first, second),
        _ => Ok(()),
    }
}

/// Moves the inline children with which the second block begins to the end of the first, and removes the second if it is
/// empty then.
fn merge_blocks(alloc: Global, draft: &mut Draft, first: Key, second: Key) -> Result<(), Fault>
    ensures { Does (removing.merge_blocks first second draft.old) draft.new result }
{
    if are_apart(draft.links(), first, second) {
        let keys = leading(alloc, draft.links(), second)?;
        move_each(draft, first, &keys)?;
        remove_empty(draft, second)?;
    }
    Ok(())
}

/// Removes what lies between two points of the tree, the first of which comes first. What is to go, and which blocks are to
/// be one, is read before anything is changed.
#[tactic(auto, unfolding(crate::specs::Removing::remove_between))]
fn remove_between(alloc: Global, draft: &mut Draft, start: &Point, end: &Point) -> Result<(), Fault>
    requires start { is_attached draft.old.forest start.now.key ≡ true }
    requires end { is_attached draft.old.forest end.now.key ≡ true }
    ensures { Does (removing.remove_between start.now end.now draft.old) draft.new result }
{
    let keys = outermost(alloc, draft.links(), start, end)?;
    let first = block(draft.links(), start.key);
    let second = block(draft.links(), end.key);
    place_caret(draft, start);
    cut_start(draft, start, end)?;
    remove_each(draft, &keys)?;
    cut_end(draft, start, end)?;
    merge(alloc, draft, first, second)
}

/// Removes what a range covers whose points are in the tree.
pub(crate) fn remove_in(alloc: Global, draft: &mut Draft, range: &Ranged) -> Result<(), Fault>
    requires anchor { is_attached draft.old.forest range.now.anchor.key ≡ true }
    requires focus { is_attached draft.old.forest range.now.focus.key ≡ true }
    ensures { Does (removing.removed_in range.now draft.old) draft.new result }
{
    if is_collapsed(range) {
        return Ok(());
    }
    let (start, end) = in_order(draft.links(), range);
    remove_between(alloc, draft, &start, &end)
}

/// Removes what lies between the two points of the selection.
#[tactic(auto, unfolding(crate::specs::Removing::remove_text_step))]
pub(crate) fn remove_selected(alloc: Global, draft: &mut Draft) -> Result<(), Fault>
    ensures { Does (remove_text_step draft.old) draft.new result }
{
    let range = range_of(draft)?;
    remove_in(alloc, draft, &range)
}
