//! Joining a block with the line before or after it.

ghost use Rattle.std.specs.Prelude.{◌≡◌, ◌+◌, ◌<◌, ◌≤◌, ◌^◌, ◌==◌, ◌&&◌, not, if◌then◌else◌, true, length, IfSome};
ghost use Rattle.lx_node.specs.Kinds as kinds;
ghost use Rattle.lx_forest.specs.Lookups as lookups;
ghost use Rattle.lx_draft.specs.Faults.{after};
ghost use Rattle.lx_draft.specs.Steps.{take_step, put_step};
ghost use Rattle.lx_edit.specs.Standing.{Does};
ghost use Rattle.lx_blocks.specs.Blocks as blocks;
ghost use Rattle.lx_blocks.specs.Walks.{left_from, IsAt};
ghost use Rattle.lx_caret.specs.Deleting as deleting;

use crate::removing::remove_empty;
use lx_blocks::{
    frame, is_inline_at, is_line, is_rule_or_table_at, leading, previous_in_tree, same_node,
};
use lx_draft::{Draft, PointRule};
use lx_edit::{element_point, remove};
use lx_links::Links;
use lx_node::{Fault, Key, Kind};
use std::alloc::Global;

/// Joins a block back to the line before it, or the line after it to the line before that one. A rule that is met is
/// removed in place of that, and a table stops it.
#[tactic(auto, unfolding(crate::specs::Deleting::join_step))]
pub(crate) fn join(alloc: Global, draft: &mut Draft, back: bool, block: Key) -> Result<(), Fault>
    requires { lookups.is_attached draft.old.forest block ≡ true }
    ensures { Does (deleting.join_step back block draft.old) draft.new result }
{
    if back {
        join_back(alloc, draft, block)
    } else {
        join_on(alloc, draft, block)
    }
}

/// Joins a block back to the line before it, or removes the rule before it.
#[tactic(auto, unfolding(crate::specs::Deleting::join_back_step))]
fn join_back(alloc: Global, draft: &mut Draft, block: Key) -> Result<(), Fault>
    requires { lookups.is_attached draft.old.forest block ≡ true }
    ensures { Does (deleting.join_back_step block draft.old) draft.new result }
{
    match stop_before(draft.links(), block) {
        Some(found) => join_with(alloc, draft, found, block),
        None => Ok(()),
    }
}

/// Joins the block to the line that was found, or removes the rule.
fn join_with(alloc: Global, draft: &mut Draft, found: Key, block: Key) -> Result<(), Fault>
    ensures { Does (deleting.joined_with (lookups.kind_of draft.old.forest found) found block draft.old) draft.new result }
{
    match draft.links().kind(found) {
        Some(Kind::Table) => Ok(()),
        Some(Kind::Rule) => remove(draft, found),
        _ => join_line(alloc, draft, found, block),
    }
}

/// Joins the line after a block back, or removes the rule after it.
fn join_on(alloc: Global, draft: &mut Draft, block: Key) -> Result<(), Fault>
    requires { lookups.is_attached draft.old.forest block ≡ true }
    ensures { Does (deleting.on_to (deleting.stop_behind draft.old.forest block) draft.old) draft.new result }
{
    match stop_behind(draft.links(), block) {
        Some(next) => meet(alloc, draft, next),
        None => Ok(()),
    }
}

/// Joins the next line back, or removes the next rule.
fn meet(alloc: Global, draft: &mut Draft, next: Key) -> Result<(), Fault>
    requires { lookups.is_attached draft.old.forest next ≡ true }
    ensures { Does (deleting.met (lookups.kind_of draft.old.forest next) next draft.old) draft.new result }
{
    match draft.links().kind(next) {
        Some(Kind::Table) => Ok(()),
        Some(Kind::Rule) => remove(draft, next),
        _ => join_back(alloc, draft, next),
    }
}

/// Whether it is a line, rule or table of the frame.
fn is_stop(links: &Links, within: &Option<Key>, key: Key) -> bool
    ensures { result ≡ deleting.is_stop links.now within.now key }
{
    (is_line(links, key) || is_rule_or_table_at(links, key))
        && same_node(frame(links, key), *within)
}

/// Whether it is a line, rule or table of the frame, and another one than the block.
fn is_other_stop(links: &Links, within: &Option<Key>, block: Key, key: Key) -> bool
    ensures { result ≡ (not (key == block) && deleting.is_stop links.now within.now key) }
{
    key != block && is_stop(links, within, key)
}

/// The last line, rule or table of the block's frame before the block.
fn stop_before(links: &Links, block: Key) -> Option<Key>
    requires { lookups.is_attached links.now block ≡ true }
    ensures { result ≡ deleting.stop_before links.now block }
{
    let within = frame(links, block);
    let mut at = previous_in_tree(links, block);
    while let Some(key) = at {
        if is_stop(links, &within, key) {
            return Some(key);
        }
        at = previous_in_tree(links, key);
    }
    None
}

/// The first line, rule or table of the block's frame after the block.
fn stop_behind(links: &Links, block: Key) -> Option<Key>
    requires { lookups.is_attached links.now block ≡ true }
    ensures stop { result ≡ deleting.stop_behind links.now block }
    ensures attached { IfSome result (λ found. lookups.is_attached links.now found ≡ true) }
{
    let within = frame(links, block);
    let mut at = with_depth(links, block);
    while let Some((key, depth)) = at {
        let next = links.next_in_tree(key, depth);
        if is_other_stop(links, &within, block, key) {
            return Some(key);
        }
        at = next;
    }
    None
}

/// A node of the root's tree with its depth.
fn with_depth(links: &Links, key: Key) -> Option<(Key, u32)>
    requires { lookups.is_attached links.now key ≡ true }
    ensures left { left_from links.now result ≡ lookups.from links.now key }
    ensures at { IsAt links.now result }
{
    let depth = links.depth(key)?;
    Some((key, depth))
}

/// The place after a child if it is inline, or else the one so far.
fn place_behind(links: &Links, child: Key, here: u32, so_far: u32) -> u32
    ensures { result ≡ (if blocks.is_at kinds.is_inline links.now child then here else so_far) }
{
    if is_inline_at(links, child) {
        here
    } else {
        so_far
    }
}

/// How many of the line's children come before the last inline one before the block, itself among them.
fn inline_place(links: &Links, line: Key, block: Key) -> u32
    ensures place { result ≡ deleting.inline_place links.now line block }
    ensures within { result ≤ lookups.size_of links.now line }
{
    let mut so_far: u32 = 0;
    let mut here: u32 = 0;
    for child in links.children(line) {
        if links.is_within(child, block) {
            return so_far;
        }
        here += 1;
        so_far = place_behind(links, child, here, so_far);
    }
    so_far
}

/// Moves the block's leading inline children, and the points on it, after the line's inline children before it.
#[tactic(auto, unfolding(crate::specs::Deleting::line_joined))]
fn join_line(alloc: Global, draft: &mut Draft, line: Key, block: Key) -> Result<(), Fault>
    ensures { Does (deleting.line_joined line block draft.old) draft.new result }
{
    let index = inline_place(draft.links(), line, block);
    let keys = leading(alloc, draft.links(), block)?;
    move_in(draft, line, index, &keys)?;
    draft.point_rule(PointRule::Move {
        key: block,
        to: element_point(line, index),
    });
    remove_empty(draft, block)
}

/// Moves nodes, in order, into an element from an index on.
#[tactic(auto, unfolding(crate::specs::Deleting::moved_in))]
fn move_in(draft: &mut Draft, to: Key, index: u32, keys: &[Key]) -> Result<(), Fault>
    requires { index + length keys.now < 2 ^ 32 }
    ensures { Does (deleting.moved_in to index keys.now draft.old) draft.new result }
{
    let mut at = index;
    for key in keys {
        move_to(draft, to, at, *key)?;
        at += 1;
    }
    Ok(())
}

/// Moves a node to an index of an element.
fn move_to(draft: &mut Draft, to: Key, index: u32, key: Key) -> Result<(), Fault>
    ensures { Does (after (take_step key draft.old) (put_step key to index)) draft.new result }
{
    draft.take(key)?;
    draft.put(key, to, index)
}
