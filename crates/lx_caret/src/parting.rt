//! Links that are split with the block around them: each that has children on both sides of the caret.

ghost use Rattle.std.specs.Prelude.{◌≡◌, ◌&&◌, ◌∷◌, true, nat_lt, Some, IfOk};
ghost use Rattle.lx_node.specs.Kinds as kinds;
ghost use Rattle.lx_forest.specs.Lookups as lookups;
ghost use Rattle.lx_edit.specs.Standing.{Does, Gives};
ghost use Rattle.lx_blocks.specs.Blocks as blocks;
ghost use Rattle.lx_blocks.specs.Places.{until};
ghost use Rattle.lx_caret.specs.Paragraphs as paragraphs;

use lx_blocks::{children_from, is_link_at, make_like};
use lx_draft::Draft;
use lx_edit::move_each;
use lx_links::Links;
use lx_node::{Fault, Key, NoMemory, Point, PointKind};
use std::alloc::Global;

/// How many children of its parent come before an offset of a node: the node itself does so where it isn't 0.
#[tactic(auto, using(lx_blocks::proofs::Passing::index_fits))]
fn place_above(links: &Links, key: Key, offset: u32) -> u32
    ensures { result ≡ paragraphs.place_of (lookups.index_of links.now key) offset }
{
    match links.index_of(key) {
        Some(index) => if offset == 0 { index } else { index + 1 },
        None => 0,
    }
}

/// How many children of what holds a point come before it.
fn before_point(links: &Links, point: &Point) -> u32
    ensures { result ≡ paragraphs.before_point links.now point.now point.now.kind }
{
    match point.kind {
        PointKind::Text => place_above(links, point.key, point.offset),
        PointKind::Element => point.offset,
    }
}

/// The keys from a node up to the block, without it.
fn way_up(alloc: Global, links: &Links, key: Key, block: Key) -> Result<Vec<Key>, NoMemory>
    ensures { IfOk result (λ keys. keys.items ≡ until (Some block) (key ∷ lookups.ancestors links.now key)) }
{
    let mut keys = Vec::new(alloc);
    let mut at = key;
    'up: loop {
        if at == block {
            return Ok(keys);
        }
        keys.push(at)?;
        match links.parent(at) {
            Some(parent) => at = parent,
            None => return Ok(keys),
        }
    }
}

/// The keys from what holds a point up to the block, without it.
#[tactic(auto, using(crate::proofs::Holders::above_parent, crate::proofs::Holders::above_top))]
fn holders(alloc: Global, links: &Links, block: Key, point: &Point) -> Result<Vec<Key>, NoMemory>
    ensures { IfOk result (λ keys. keys.items ≡ paragraphs.holders_in links.now block point.now) }
{
    match point.kind {
        PointKind::Text => match links.parent(point.key) {
            Some(parent) => way_up(alloc, links, parent, block),
            None => Ok(Vec::new(alloc)),
        },
        PointKind::Element => way_up(alloc, links, point.key, block),
    }
}

/// Whether a place is among the children of a node, with some on both sides.
fn has_both_sides(links: &Links, key: Key, index: u32) -> bool
    ensures { result ≡ (nat_lt 0 index && nat_lt index (lookups.size_of links.now key)) }
{
    0 < index && index < links.size(key)
}

/// Moves the children of a link from an index on into a new one like it, after it.
#[tactic(auto, unfolding(crate::specs::Paragraphs::parted_at))]
fn part_at(alloc: Global, draft: &mut Draft, key: Key, index: u32) -> Result<(), Fault>
    requires { blocks.is_at kinds.is_link draft.old.forest key ≡ true }
    ensures { Does (paragraphs.parted_at key index draft.old) draft.new result }
{
    let moved = children_from(alloc, draft.links(), key, index)?;
    let new = make_like(alloc, draft, key)?;
    draft.put_behind(new, key)?;
    move_each(draft, new, &moved)
}

/// Parts a link that has children on both sides of a place. Any other node stays whole.
#[tactic(auto, unfolding(crate::specs::Paragraphs::link_parted))]
fn part_link(alloc: Global, draft: &mut Draft, key: Key, index: u32) -> Result<(), Fault>
    ensures { Does (paragraphs.link_parted key index draft.old) draft.new result }
{
    if is_link_at(draft.links(), key) && has_both_sides(draft.links(), key, index) {
        part_at(alloc, draft, key, index)
    } else {
        Ok(())
    }
}

/// Parts a node at a place among its children, and answers that place among its parent's: after what stayed.
fn part(alloc: Global, draft: &mut Draft, key: Key, index: u32) -> Result<u32, Fault>
    ensures does { Does (paragraphs.link_parted key index draft.old) draft.new result }
    ensures place { IfOk result (λ place. place ≡ paragraphs.place_of (lookups.index_of draft.new.forest key) index) }
{
    part_link(alloc, draft, key, index)?;
    Ok(place_above(draft.links(), key, index))
}

/// Parts nodes at a place, the innermost first, and answers how many children of what is above them come before it.
#[tactic(auto, unfolding(crate::specs::Paragraphs::parted_up))]
fn part_each(alloc: Global, draft: &mut Draft, keys: &[Key], index: u32) -> Result<u32, Fault>
    ensures { Gives (paragraphs.parted_up keys.now index draft.old) (λ place. record { draft = draft.new; index = place }) draft.new result }
{
    let mut place = index;
    for key in keys {
        place = part(alloc, draft, *key, place)?;
    }
    Ok(place)
}

/// Parts what holds a point, up to the block, and answers how many of the block's children come before it.
pub fn part_up(alloc: Global, draft: &mut Draft, block: Key, point: &Point) -> Result<u32, Fault>
    ensures { Gives (paragraphs.parted_up (paragraphs.holders_in draft.old.forest block point.now) (paragraphs.before_point draft.old.forest point.now point.now.kind) draft.old) (λ place. record { draft = draft.new; index = place }) draft.new result }
{
    let keys = holders(alloc, draft.links(), block, point)?;
    let before = before_point(draft.links(), point);
    part_each(alloc, draft, &keys, before)
}
