//! Deleting a character or a word.

ghost use Rattle.std.specs.Prelude.{◌≡◌, ◌&&◌, not, true, false, if◌then◌else◌, [], Some, option_map, IfSome, chars};
ghost use Rattle.lx_trees.specs.Siblings.{is_named};
ghost use Rattle.lx_text.specs.Texts.{is_offset};
ghost use Rattle.lx_draft.specs.Selecting.{text_of};
ghost use Rattle.lx_forest.specs.Lookups as lookups;
ghost use Rattle.lx_links.specs.Stands.{Sound};
ghost use Rattle.lx_draft.specs.Steps.{splice_step};
ghost use Rattle.lx_edit.specs.Standing.{Does};
ghost use Rattle.lx_blocks.specs.Blocks as blocks;
ghost use Rattle.lx_blocks.specs.Ranges as ranges;
ghost use Rattle.lx_blocks.specs.Walks as walks;
ghost use Rattle.lx_caret.specs.Deleting as deleting;
ghost use Rattle.lx_caret.specs.Stretches.{reach_of, erased_to};

use crate::joining::join;
use crate::removing::remove_in;
use lx_blocks::{
    block, first_behind, is_collapsed, is_element_at, last_before, normal_at, previous_in_tree,
    range_of, same_node,
};
use lx_draft::Draft;
use lx_edit::remove;
use lx_links::Links;
use lx_node::{Fault, Key, Point, PointKind};
use lx_text::{cluster_after, cluster_before, word_after, word_before};
use std::alloc::Global;

/// What is deleted at once.
#[derive(Clone, Copy)]
pub(crate) enum Stretch {
    /// The characters that a reader takes for one.
    Cluster,
    /// A word, with the white space between it and the caret.
    Word,
}

/// Deletes what is selected, or else a stretch beside the caret.
#[tactic(auto, unfolding(crate::specs::Deleting::delete_step))]
pub(crate) fn delete(
    alloc: Global,
    draft: &mut Draft,
    stretch: Stretch,
    back: bool,
) -> Result<(), Fault>
    ensures { Does (deleting.delete_step back (reach_of stretch back) draft.old) draft.new result }
{
    let range = range_of(draft)?;
    if is_collapsed(&range) {
        delete_at(alloc, draft, stretch, back, &range.anchor)
    } else {
        remove_in(alloc, draft, &range)
    }
}

/// Deletes beside a caret.
fn delete_at(
    alloc: Global,
    draft: &mut Draft,
    stretch: Stretch,
    back: bool,
    point: &Point,
) -> Result<(), Fault>
    requires { ranges.lies draft.old.forest point.now ≡ true }
    ensures { Does (deleting.deleted_in back (reach_of stretch back) point.now (blocks.block_of draft.old.forest point.now.key) draft.old) draft.new result }
{
    match block(draft.links(), point.key) {
        Some(block) => delete_in(alloc, draft, stretch, back, point, block),
        None => Ok(()),
    }
}

/// Deletes beside a caret in a block: in its text, or in another leaf, or else the block is joined.
fn delete_in(
    alloc: Global,
    draft: &mut Draft,
    stretch: Stretch,
    back: bool,
    point: &Point,
    block: Key,
) -> Result<(), Fault>
    requires lies { ranges.lies draft.old.forest point.now ≡ true }
    requires block { lookups.is_attached draft.old.forest block ≡ true }
    ensures { Does (deleting.deleted_in back (reach_of stretch back) point.now (Some block) draft.old) draft.new result }
{
    if has_more(draft, back, point) {
        erase(draft, stretch, back, point.key, point.offset)
    } else {
        delete_beyond(alloc, draft, stretch, back, point, block)
    }
}

/// Deletes in another leaf, or else the block is joined.
fn delete_beyond(
    alloc: Global,
    draft: &mut Draft,
    stretch: Stretch,
    back: bool,
    point: &Point,
    block: Key,
) -> Result<(), Fault>
    requires point { lookups.is_attached draft.old.forest point.now.key ≡ true }
    requires block { lookups.is_attached draft.old.forest block ≡ true }
    ensures { Does (deleting.leaf_or_line back (reach_of stretch back) block (deleting.leaf_beside back draft.old.forest block point.now) draft.old) draft.new result }
{
    match leaf_beside(draft.links(), back, block, point) {
        Some(leaf) => erase_leaf(draft, stretch, back, leaf),
        None => join(alloc, draft, back, block),
    }
}

/// Whether the point is in a text with characters on that side.
fn has_more(draft: &Draft, back: bool, point: &Point) -> bool
    ensures { result ≡ deleting.has_more back draft.now.forest point.now point.now.kind }
{
    match point.kind {
        PointKind::Element => false,
        PointKind::Text => {
            if back {
                0 < point.offset
            } else {
                point.offset < draft.text_length(point.key)
            }
        }
    }
}

/// The other end of what is deleted from an offset of a text.
fn reach(stretch: Stretch, back: bool, text: &str, at: u32) -> u32
    requires { is_offset at (chars text.now) ≡ true }
    ensures { result ≡ reach_of stretch back (chars text.now) at }
{
    let end = match stretch {
        Stretch::Cluster => {
            if back {
                cluster_before(text, at)
            } else {
                cluster_after(text, at)
            }
        }
        Stretch::Word => {
            if back {
                word_before(text, at)
            } else {
                word_after(text, at)
            }
        }
    };
    end.unwrap_or(at)
}

/// The other end of what is deleted from an offset of a normal text, and nothing for any other node.
fn end_in(draft: &Draft, stretch: Stretch, back: bool, key: Key, at: u32) -> Option<u32>
    requires { is_offset at (text_of (lookups.fields_of draft.now.forest key)) ≡ true }
    ensures { result ≡ option_map (λ text. reach_of stretch back text.text at) (ranges.normal_at draft.now.forest key) }
{
    match normal_at(draft, key) {
        Some(text) => Some(reach(stretch, back, text.text.as_str(), at)),
        None => None,
    }
}

/// Cuts what the stretch goes over out of a normal text; another text goes whole.
fn erase(draft: &mut Draft, stretch: Stretch, back: bool, key: Key, at: u32) -> Result<(), Fault>
    requires { is_offset at (text_of (lookups.fields_of draft.old.forest key)) ≡ true }
    ensures { Does (deleting.erase_step back (reach_of stretch back) key at draft.old) draft.new result }
{
    let end = end_in(draft, stretch, back, key, at);
    erase_to(draft, back, key, at, end)
}

/// Cuts a text up to an end, or removes it where there is none.
fn erase_to(draft: &mut Draft, back: bool, key: Key, at: u32, end: Option<u32>) -> Result<(), Fault>
    ensures { Does (erased_to back key at end draft.old) draft.new result }
{
    match end {
        Some(end) => cut(draft, back, key, at, end),
        None => remove(draft, key),
    }
}

/// Cuts out what is between two offsets of a text, of which the second is the one before where `back` is set.
#[tactic(auto, using(lx_edit::proofs::Tails::no_characters))]
fn cut(draft: &mut Draft, back: bool, key: Key, at: u32, end: u32) -> Result<(), Fault>
    ensures { Does (if back then splice_step key end at [] draft.old else splice_step key at end [] draft.old) draft.new result }
{
    if back {
        draft.splice(key, end, at, "")
    } else {
        draft.splice(key, at, end, "")
    }
}

/// Deletes in a leaf from the side of the caret. A leaf without characters is removed.
#[tactic(auto, unfolding(crate::specs::Deleting::leaf_step))]
fn erase_leaf(draft: &mut Draft, stretch: Stretch, back: bool, key: Key) -> Result<(), Fault>
    ensures { Does (deleting.leaf_step back (reach_of stretch back) key draft.old) draft.new result }
{
    let length = draft.text_length(key);
    if length == 0 {
        remove(draft, key)
    } else {
        let at = edge(back, length);
        erase(draft, stretch, back, key, at)
    }
}

fn edge(back: bool, length: u32) -> u32
    ensures { result ≡ deleting.edge back length }
{
    if back { length } else { 0 }
}

/// Whether it is a leaf of the block.
fn is_leaf_in(links: &Links, block_key: Key, key: Key) -> bool
    ensures leaf { result ≡ deleting.is_leaf_in links.now block_key key }
    ensures sound { Sound links.now }
{
    !is_element_at(links, key) && same_node(block(links, key), Some(block_key))
}

/// The last leaf of the block before the point, or the first one after it.
fn leaf_beside(links: &Links, back: bool, block: Key, point: &Point) -> Option<Key>
    requires point { lookups.is_attached links.now point.now.key ≡ true }
    requires block { lookups.is_attached links.now block ≡ true }
    ensures { result ≡ deleting.leaf_beside back links.now block point.now }
{
    if back {
        leaf_before(links, block, point)
    } else {
        leaf_behind(links, block, point)
    }
}

/// Whether it is a leaf of the block, and the point isn't in it.
fn is_leaf_before(links: &Links, block: Key, point: &Point, key: Key) -> bool
    ensures leaf { result ≡ (deleting.is_leaf_in links.now block key && not (lookups.is_within links.now key point.now.key)) }
    ensures sound { Sound links.now }
{
    is_leaf_in(links, block, key) && !links.is_within(key, point.key)
}

/// The last leaf of the block before the point. What comes before the block isn't looked at.
fn leaf_before(links: &Links, block: Key, point: &Point) -> Option<Key>
    requires point { lookups.is_attached links.now point.now.key ≡ true }
    ensures { result ≡ deleting.leaf_beside true links.now block point.now }
{
    let mut at = last_before(links, point);
    while let Some(key) = at {
        if is_leaf_before(links, block, point, key) {
            return Some(key);
        }
        if key == block {
            return None;
        }
        at = previous_in_tree(links, key);
    }
    None
}

/// The first leaf of the block after the point. What comes after the block isn't looked at.
fn leaf_behind(links: &Links, block: Key, point: &Point) -> Option<Key>
    requires point { lookups.is_attached links.now point.now.key ≡ true }
    requires block { lookups.is_attached links.now block ≡ true }
    ensures { result ≡ deleting.leaf_beside false links.now block point.now }
{
    let end = end_of(links, block);
    let mut at = first_behind(links, point);
    while let Some((key, depth)) = at {
        let next = links.next_in_tree(key, depth);
        if is_end(&end, key) {
            return None;
        }
        if is_leaf_in(links, block, key) {
            return Some(key);
        }
        at = next;
    }
    None
}

/// The first node after the tree of a key, with its depth.
fn end_of(links: &Links, key: Key) -> Option<(Key, u32)>
    requires { lookups.is_attached links.now key ≡ true }
    ensures { IfSome result (λ next. lookups.behind links.now key ≡ lookups.from links.now next.0) }
{
    let depth = links.depth(key)?;
    links.next_behind(key, depth)
}

fn is_end(end: &Option<(Key, u32)>, key: Key) -> bool
    ensures { result ≡ is_named (walks.key_of_step end.now) key }
{
    match end {
        Some((end, _)) => key == *end,
        None => false,
    }
}
