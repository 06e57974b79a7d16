//! The lines that a range selects.

ghost use Rattle.std.specs.Prelude.{◌≡◌, ◌++◌, ◌∷◌, ◌&&◌, [], true, OnOk, IfOk, filter};
ghost use Rattle.lx_forest.specs.Lookups as lookups;
ghost use Rattle.lx_blocks.specs.Blocks as blocks;
ghost use Rattle.lx_blocks.specs.Lines as lines;
ghost use Rattle.lx_blocks.specs.Walks as walks;
ghost use Rattle.lx_blocks.specs.Walks.{left_from, IsAt};

use crate::blocks::{block, frame, is_line, same_node};
use crate::ranges::{Ranged, in_order};
use crate::walks::{first_behind, is_stop};
use lx_links::Links;
use lx_node::{Key, NoMemory, Point};
use std::alloc::Global;

/// A node with its depth.
type Step = (Key, u32);

/// The first of the nodes from a point's block on.
fn from_block(links: &Links, point: &Point) -> Option<Step>
    requires { lookups.is_attached links.now point.now.key ≡ true }
    ensures left { left_from links.now result ≡ lines.from_block links.now point.now (blocks.block_of links.now point.now.key) }
    ensures at { IsAt links.now result }
{
    match block(links, point.key) {
        Some(block) => Some((block, links.depth(block)?)),
        None => first_behind(links, point),
    }
}

/// The first node after a point's block.
fn behind_block(links: &Links, point: &Point) -> Option<Step>
    requires { lookups.is_attached links.now point.now.key ≡ true }
    ensures { walks.key_of_step result ≡ lines.behind_block links.now point.now (blocks.block_of links.now point.now.key) }
{
    match block(links, point.key) {
        Some(block) => links.next_in_tree(block, links.depth(block)?),
        None => first_behind(links, point),
    }
}

/// Keeps a key that is a line of the frame.
fn keep_line(
    keys: &mut Vec<Key>,
    links: &Links,
    key: Key,
    frame_key: &Option<Key>,
) -> Result<(), NoMemory>
    ensures { OnOk result (keys.new.items ≡ keys.old.items ++ filter (λ k. blocks.is_line links.now k && blocks.same_node (blocks.frame_of links.now k) frame_key.now) (key ∷ [])) }
{
    if is_line(links, key) && same_node(frame(links, key), *frame_key) {
        keys.push(key)?;
    }
    Ok(())
}

/// The lines of a frame among the nodes from one on, in preorder, up to a stop: none where the stop isn't one of those.
fn collect_lines(
    alloc: Global,
    links: &Links,
    from: Option<Step>,
    stop: Option<Step>,
    frame_key: &Option<Key>,
) -> Result<Vec<Key>, NoMemory>
    requires { IsAt links.now from }
    ensures { IfOk result (λ keys. keys.items ≡ filter (λ k. blocks.is_line links.now k && blocks.same_node (blocks.frame_of links.now k) frame_key.now) (lines.up_to (walks.key_of_step stop) (left_from links.now from))) }
{
    let mut keys = Vec::new(alloc);
    let mut at = from;
    while let Some((key, depth)) = at {
        let next = links.next_in_tree(key, depth);
        if is_stop(&stop, key) {
            return Ok(keys);
        }
        keep_line(&mut keys, links, key, frame_key)?;
        at = next;
    }
    match stop {
        Some(_) => Ok(Vec::new(alloc)),
        None => Ok(keys),
    }
}

/// The lines that a range of the root's tree selects, in preorder: those of the frame of its first point from that point's
/// block to the block of the other one. Where a point has no block, what is after the point counts. There are none where
/// the last block holds the first one.
#[tactic(auto, unfolding(crate::specs::Lines::selected_lines))]
pub fn selected_lines(alloc: Global, links: &Links, range: &Ranged) -> Result<Vec<Key>, NoMemory>
    requires anchor { lookups.is_attached links.now range.now.anchor.key ≡ true }
    requires focus { lookups.is_attached links.now range.now.focus.key ≡ true }
    ensures { IfOk result (λ keys. keys.items ≡ lines.selected_lines links.now range.now) }
{
    let (start, end) = in_order(links, range);
    let from = from_block(links, &start);
    let stop = behind_block(links, &end);
    let frame_key = frame(links, start.key);
    collect_lines(alloc, links, from, stop, &frame_key)
}
