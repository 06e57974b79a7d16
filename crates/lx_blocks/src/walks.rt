//! The nodes before and after a point, in preorder.

ghost use Rattle.std.specs.Prelude.{◌≡◌, ◌++◌, ◌∷◌, ◌||◌, [], true, OnOk, IfOk, IfSome, IfNone, Some, filter, not, option_map, unwrap_or};
ghost use Rattle.lx_trees.specs.Siblings.{is_named, last_of};
ghost use Rattle.lx_forest.specs.Lookups as lookups;
ghost use Rattle.lx_links.specs.Stands.{Sound};
ghost use Rattle.lx_blocks.specs.Places as places;
ghost use Rattle.lx_blocks.specs.Walks as walks;
ghost use Rattle.lx_blocks.specs.Walks.{left_from, IsAt, nodes_before, node_before};

use lx_links::Links;
use lx_node::{Key, NoMemory, Point, PointKind};
use std::alloc::Global;

/// The first node after a point in the root's tree, with its depth.
pub fn first_behind(links: &Links, point: &Point) -> Option<(Key, u32)>
    requires { lookups.is_attached links.now point.now.key ≡ true }
    ensures left { left_from links.now result ≡ places.nodes_behind links.now point.now }
    ensures at { IsAt links.now result }
    ensures sound { Sound links.now }
{
    let depth = links.depth(point.key)?;
    match point.kind {
        PointKind::Text => links.next_behind(point.key, depth),
        PointKind::Element => match links.child_at(point.key, point.offset) {
            Some(child) => Some((child, depth + 1)),
            None => links.next_behind(point.key, depth),
        },
    }
}

pub(crate) fn is_stop(stop: &Option<(Key, u32)>, key: Key) -> bool
    ensures { result ≡ is_named (walks.key_of_step stop.now) key }
{
    match stop {
        Some((stop, _)) => key == *stop,
        None => false,
    }
}

/// The nodes from one on, in preorder, up to a stop.
pub fn walk_until(
    alloc: Global,
    links: &Links,
    from: Option<(Key, u32)>,
    stop: Option<(Key, u32)>,
) -> Result<Vec<Key>, NoMemory>
    requires { IsAt links.now from }
    ensures { IfOk result (λ keys. keys.items ≡ places.until (walks.key_of_step stop) (left_from links.now from)) }
{
    let mut keys = Vec::new(alloc);
    let mut at = from;
    while let Some((key, depth)) = at {
        let next = links.next_in_tree(key, depth);
        if is_stop(&stop, key) {
            return Ok(keys);
        }
        keys.push(key)?;
        at = next;
    }
    Ok(keys)
}

/// Keeps the keys whose trees don't hold this one.
fn keep_without(keys: &mut Vec<Key>, links: &Links, held: Key)
    ensures { keys.new.items ≡ filter (λ k. not (lookups.is_within links.now k held)) keys.old.items }
{
    keys.retain(|key| !links.is_within(*key, held));
}

/// The nodes that lie wholly between two points.
fn between(alloc: Global, links: &Links, start: &Point, end: &Point) -> Result<Vec<Key>, NoMemory>
    requires start { lookups.is_attached links.now start.now.key ≡ true }
    requires end { lookups.is_attached links.now end.now.key ≡ true }
    ensures covered { IfOk result (λ keys. keys.items ≡ places.covered links.now start.now end.now) }
    ensures sound { Sound links.now }
{
    let from = first_behind(links, start);
    let stop = first_behind(links, end);
    let mut keys = walk_until(alloc, links, from, stop)?;
    keep_without(&mut keys, links, end.key);
    Ok(keys)
}

/// The nodes that lie wholly between two points of the root's tree, in preorder.
pub fn covered(
    alloc: Global,
    links: &Links,
    start: &Point,
    end: &Point,
) -> Result<Vec<Key>, NoMemory>
    requires start { lookups.is_attached links.now start.now.key ≡ true }
    requires end { lookups.is_attached links.now end.now.key ≡ true }
    ensures { IfOk result (λ keys. keys.items ≡ places.covered links.now start.now end.now) }
{
    between(alloc, links, start, end)
}

/// Whether the parent's tree holds one of the keys, or there is no parent.
fn holds_above(links: &Links, key: Key, start: Key, end: Key) -> bool
    ensures { result ≡ unwrap_or (option_map (λ p. lookups.is_within links.now p start || lookups.is_within links.now p end) (lookups.parent_of links.now key)) true }
{
    match links.parent(key) {
        Some(parent) => links.is_within(parent, start) || links.is_within(parent, end),
        None => true,
    }
}

fn keep_outermost(keys: &mut Vec<Key>, links: &Links, start: Key, end: Key)
    ensures { keys.new.items ≡ filter (λ k. unwrap_or (option_map (λ p. lookups.is_within links.now p start || lookups.is_within links.now p end) (lookups.parent_of links.now k)) true) keys.old.items }
{
    keys.retain(|key| holds_above(links, *key, start, end));
}

/// Of the nodes that lie wholly between two points of the root's tree, those whose parent doesn't, in preorder.
pub fn outermost(
    alloc: Global,
    links: &Links,
    start: &Point,
    end: &Point,
) -> Result<Vec<Key>, NoMemory>
    requires start { lookups.is_attached links.now start.now.key ≡ true }
    requires end { lookups.is_attached links.now end.now.key ≡ true }
    ensures { IfOk result (λ keys. keys.items ≡ places.outermost links.now (places.covered links.now start.now end.now)) }
{
    // A covered node's parent is covered where its tree holds neither point.
    let mut keys = between(alloc, links, start, end)?;
    keep_outermost(&mut keys, links, start.key, end.key);
    Ok(keys)
}

/// The last node of the key's tree in preorder.
pub fn last_within(links: &Links, key: Key) -> Key
    requires { lookups.has key links.now ≡ true }
    ensures last { Some result ≡ last_of (lookups.keys_within links.now key) }
    ensures sound { Sound links.now }
{
    let mut at = key;
    while let Some(child) = links.last(at) {
        at = child;
    }
    at
}

/// The node right before this one in the root's tree in preorder: the last one in the tree of its previous sibling, or
/// its parent. It takes the way down there.
pub fn previous_in_tree(links: &Links, key: Key) -> Option<Key>
    requires { lookups.is_attached links.now key ≡ true }
    ensures before { result ≡ node_before links.now key }
    ensures others { IfSome result (λ before. nodes_before links.now key ≡ nodes_before links.now before ++ before ∷ []) }
    ensures attached { IfSome result (λ before. lookups.is_attached links.now before ≡ true) }
    ensures first { IfNone result (nodes_before links.now key ≡ []) }
{
    match links.previous(key) {
        Some(previous) => Some(last_within(links, previous)),
        None => links.parent(key),
    }
}

/// The last node that comes before a point in preorder: the last one in the tree of the text or tab that has it, or of
/// the element where it is after the children, or else the node before the child at the point.
pub fn last_before(links: &Links, point: &Point) -> Option<Key>
    requires { lookups.is_attached links.now point.now.key ≡ true }
    ensures before { IfSome result (λ before. places.nodes_up_to links.now point.now ≡ nodes_before links.now before ++ before ∷ []) }
    ensures attached { IfSome result (λ before. lookups.is_attached links.now before ≡ true) }
    ensures none { IfNone result (places.nodes_up_to links.now point.now ≡ []) }
{
    match point.kind {
        PointKind::Text => Some(last_within(links, point.key)),
        PointKind::Element => match links.child_at(point.key, point.offset) {
            Some(child) => previous_in_tree(links, child),
            None => Some(last_within(links, point.key)),
        },
    }
}
