//! Where what a node has begins.

ghost use Rattle.std.specs.Prelude.{◌≡◌, true, Some};
ghost use Rattle.lx_forest.specs.Lookups as lookups;
ghost use Rattle.lx_blocks.specs.Starts as starts;

use crate::kinds::{is_element_at, is_text_at};
use lx_draft::Draft;
use lx_edit::{element_point, text_point};
use lx_links::Links;
use lx_node::{Key, Point};

/// The first node without children, down first children from a node.
fn first_leaf(links: &Links, key: Key) -> Key
    requires { lookups.has key links.now ≡ true }
    ensures { Some result ≡ starts.first_leaf links.now key }
{
    let mut at = key;
    while let Some(child) = links.first(at) {
        at = child;
    }
    at
}

/// The place before a node in its parent.
fn place_before(links: &Links, key: Key) -> Point
    ensures { result ≡ starts.place_at 0 key (lookups.parent_of links.now key) (lookups.index_of links.now key) }
{
    match (links.parent(key), links.index_of(key)) {
        (Some(parent), Some(index)) => element_point(parent, index),
        _ => element_point(key, 0),
    }
}

/// Where a leaf begins: with its characters, at the start of an empty element, or before any other in its parent.
fn start_at(links: &Links, key: Key) -> Point
    ensures { result ≡ starts.start_at links.now (Some key) }
{
    if is_text_at(links, key) {
        text_point(key, 0)
    } else if is_element_at(links, key) {
        element_point(key, 0)
    } else {
        place_before(links, key)
    }
}

/// Where what a node has begins: with the first node without children, down first children from it. A text begins with its
/// characters, an empty element at its own start, and anything else before itself in its parent. Where there is no such node
/// it is the start of the root.
pub fn start_within(draft: &Draft, key: Key) -> Point
    ensures { result ≡ starts.start_within draft.now.forest key }
{
    let links = draft.links();
    if links.has(key) {
        start_at(links, first_leaf(links, key))
    } else {
        element_point(Key::root(), 0)
    }
}
