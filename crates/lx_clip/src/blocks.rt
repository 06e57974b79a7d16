//! Blocks that go where a point is.

ghost use Rattle.std.specs.Prelude.{◌≡◌, true};
ghost use Rattle.lx_node.specs.Kinds as kinds;
ghost use Rattle.lx_trees.specs.Siblings.{last_of};
ghost use Rattle.lx_edit.specs.Standing.{Does, Gives};
ghost use Rattle.lx_blocks.specs.Blocks as blocks;
ghost use Rattle.lx_clip.specs.Pasting as pasting;

use crate::adding::{add_nodes, put_behind_each};
use crate::ending::caret_after;
use lx_blocks::{block, children_from, make_like, outer_block, ready};
use lx_caret::{cut_text, part_up, remove_empty};
use lx_draft::Draft;
use lx_edit::move_each;
use lx_node::{Fault, Key, Point};
use std::alloc::Global;

/// Makes a new block like another of what stays after the point, if anything does.
#[tactic(auto, using(lx_blocks::proofs::Blocked::block_there, lx_blocks::proofs::Blocked::block_below))]
fn make_tail(
    alloc: Global,
    draft: &mut Draft,
    block: Key,
    moved: &[Key],
) -> Result<Option<Key>, Fault>
    requires { blocks.is_at kinds.is_text_block draft.old.forest block ≡ true }
    ensures { Gives (pasting.tail_made block moved.now draft.old) (λ tail. record { draft = draft.new; key = tail }) draft.new result }
{
    if moved.is_empty() {
        return Ok(None);
    }
    let new = make_like(alloc, draft, block)?;
    move_each(draft, new, moved)?;
    Ok(Some(new))
}

/// Puts the new block after the last of the nodes.
fn put_tail(draft: &mut Draft, tail: Option<Key>, keys: &[Key]) -> Result<(), Fault>
    ensures { Does (pasting.tail_put tail (last_of keys.now) draft.old) draft.new result }
{
    let Some(new) = tail else {
        return Ok(());
    };
    match keys.last() {
        Some(last) => draft.put_behind(new, *last),
        None => Ok(()),
    }
}

/// Puts nodes after a block, and after them a new one of those of its children that are after the point. The block goes
/// if it is empty then.
#[tactic(auto, unfolding(crate::specs::Pasting::put_around))]
fn put_around(
    alloc: Global,
    draft: &mut Draft,
    block: Key,
    keys: &[Key],
    moved: &[Key],
) -> Result<(), Fault>
    requires { blocks.is_at kinds.is_text_block draft.old.forest block ≡ true }
    ensures { Does (pasting.put_around block keys.now moved.now draft.old) draft.new result }
{
    let tail = make_tail(alloc, draft, block, moved)?;
    put_behind_each(draft, block, keys)?;
    put_tail(draft, tail, keys)?;
    caret_after(draft, keys);
    remove_empty(draft, block)
}

/// Parts a block at a point, and puts nodes between.
#[tactic(auto, unfolding(crate::specs::Pasting::block_opened))]
fn open_block(
    alloc: Global,
    draft: &mut Draft,
    block: Key,
    keys: &[Key],
    point: &Point,
) -> Result<(), Fault>
    requires { blocks.is_at kinds.is_text_block draft.old.forest block ≡ true }
    ensures { Does (pasting.block_opened block point.now keys.now draft.old) draft.new result }
{
    ready(draft)?;
    cut_text(alloc, draft, point)?;
    let index = part_up(alloc, draft, block, point)?;
    let moved = children_from(alloc, draft.links(), block, index)?;
    put_around(alloc, draft, block, keys, &moved)
}

/// Puts nodes after a node, which isn't parted.
#[tactic(auto, unfolding(crate::specs::Pasting::put_beyond))]
fn put_beyond(draft: &mut Draft, outer: Key, keys: &[Key]) -> Result<(), Fault>
    ensures { Does (pasting.put_beyond outer keys.now draft.old) draft.new result }
{
    put_behind_each(draft, outer, keys)?;
    caret_after(draft, keys);
    Ok(())
}

/// Puts blocks at a point of a block.
fn put_at_block(
    alloc: Global,
    draft: &mut Draft,
    block: Key,
    keys: &[Key],
    point: &Point,
) -> Result<(), Fault>
    requires { blocks.is_at kinds.is_text_block draft.old.forest block ≡ true }
    ensures { Does (pasting.blocks_put (pasting.outer_block draft.old.forest block) block point.now keys.now draft.old) draft.new result }
{
    let outer = outer_block(draft.links(), block).unwrap_or(block);
    if outer == block {
        open_block(alloc, draft, block, keys, point)
    } else {
        put_beyond(draft, outer, keys)
    }
}

/// Puts blocks that are below nothing at a point, and the caret to the end of the last. A block that is below the root
/// or a cell is parted at the point, and they go between. A block that is elsewhere stays whole, and they go after the
/// nearest node above it that is below the root or a cell. Without a block they go where the point is.
#[tactic(auto, using(lx_blocks::proofs::Blocked::block_is))]
pub(crate) fn add_blocks(
    alloc: Global,
    draft: &mut Draft,
    keys: &[Key],
    point: &Point,
) -> Result<(), Fault>
    ensures { Does (pasting.blocks_added (blocks.block_of draft.old.forest point.now.key) point.now keys.now draft.old) draft.new result }
{
    match block(draft.links(), point.key) {
        Some(block) => put_at_block(alloc, draft, block, keys, point),
        None => add_nodes(alloc, draft, keys, point),
    }
}
