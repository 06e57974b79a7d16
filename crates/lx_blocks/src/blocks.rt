//! Text blocks, frames and lines.

ghost use Rattle.std.specs.Prelude.{◌≡◌, ◌∷◌, true, IfOk, IfSome, find};
ghost use Rattle.std.specs.List.{list_any};
ghost use Rattle.lx_node.specs.Kinds as kinds;
ghost use Rattle.lx_forest.specs.Lookups as lookups;
ghost use Rattle.lx_links.specs.Stands.{Sound};
ghost use Rattle.lx_blocks.specs.Blocks as blocks;

use crate::kinds::{is_block_at, is_cell_at, is_inline_at};
use crate::ways::upward;
use lx_links::Links;
use lx_node::{Key, Kind, NoMemory};
use std::alloc::Global;

/// The text block of a node: itself, or the nearest above it.
pub fn block(links: &Links, key: Key) -> Option<Key>
    ensures block { result ≡ blocks.block_of links.now key }
    ensures attached { lookups.is_attached links.now key ≡ true → IfSome result (λ block. lookups.is_attached links.now block ≡ true) }
    ensures sound { Sound links.now }
{
    let mut at = key;
    while !is_block_at(links, at) {
        match links.parent(at) {
            Some(parent) => at = parent,
            None => return None,
        }
    }
    Some(at)
}

/// The cell of a node: itself, or the nearest above it.
pub fn cell_from(links: &Links, key: Key) -> Option<Key>
    ensures { result ≡ blocks.cell_of links.now key }
{
    upward(links, key).find(|above| is_cell_at(links, *above))
}

/// The frame of a node: the nearest cell above it.
#[tactic(auto, using(crate::proofs::Up::frame_up, crate::proofs::Up::frame_top))]
pub fn frame(links: &Links, key: Key) -> Option<Key>
    ensures frame { result ≡ blocks.frame_of links.now key }
    ensures sound { Sound links.now }
{
    match links.parent(key) {
        Some(parent) => cell_from(links, parent),
        None => None,
    }
}

/// Whether there is such a node, and it is the root or a cell.
fn holds_blocks_at(links: &Links, key: Key) -> bool
    ensures { result ≡ blocks.is_at blocks.holds_blocks links.now key }
{
    matches!(links.kind(key), Some(Kind::Root | Kind::Cell))
}

/// Whether a node is a child of the root or of a cell.
fn stands_among_blocks(links: &Links, key: Key) -> bool
    ensures { result ≡ blocks.stands_among_blocks links.now key }
{
    match links.parent(key) {
        Some(parent) => holds_blocks_at(links, parent),
        None => false,
    }
}

/// The nearest of a node and those above it that is a child of the root or of a cell.
pub fn outer_block(links: &Links, key: Key) -> Option<Key>
    ensures { result ≡ blocks.outer_block links.now key }
{
    upward(links, key).find(|above| stands_among_blocks(links, *above))
}

/// Whether both are the same node, or neither is there.
pub fn same_node(a: Option<Key>, b: Option<Key>) -> bool
    ensures { result ≡ blocks.same_node a b }
{
    match (a, b) {
        (None, None) => true,
        (Some(a), Some(b)) => a == b,
        _ => false,
    }
}

/// Whether one of the node's children is in a line of text.
fn has_inline(links: &Links, key: Key) -> bool
    ensures { result ≡ list_any (blocks.is_at kinds.is_inline links.now) (lookups.children_of links.now key) }
{
    for child in links.children(key) {
        if is_inline_at(links, child) {
            return true;
        }
    }
    false
}

/// Whether the node is a line: a text block that is empty or has an inline child.
pub fn is_line(links: &Links, key: Key) -> bool
    ensures { result ≡ blocks.is_line links.now key }
{
    is_block_at(links, key) && (links.size(key) == 0 || has_inline(links, key))
}

/// The inline children with which the node's children begin, in order.
#[tactic(auto, using(crate::proofs::InlineFirst::leading_on, crate::proofs::InlineFirst::leading_ends))]
pub fn leading(alloc: Global, links: &Links, key: Key) -> Result<Vec<Key>, NoMemory>
    ensures { IfOk result (λ keys. keys.items ≡ blocks.leading links.now key) }
{
    let mut keys = Vec::new(alloc);
    for child in links.children(key) {
        if !is_inline_at(links, child) {
            return Ok(keys);
        }
        keys.push(child)?;
    }
    Ok(keys)
}
