//! Points in order.

ghost use Rattle.std.specs.Prelude.{◌≡◌, length};
ghost use Rattle.lx_blocks.specs.Places as places;

use lx_links::Links;
use lx_node::{Key, Point};
use std::cmp::Ordering;

/// How many of a node's children come before the one in whose tree the key is: all where it is in none.
pub fn children_before(links: &Links, outer: Key, key: Key) -> u32
    ensures { result ≡ length (places.children_before links.now outer key) }
{
    let size = links.size(outer);
    let mut passed = 0;
    for child in links.children(outer) {
        if links.is_within(child, key) {
            return passed;
        }
        passed += 1;
    }
    size
}

fn is_less(order: Option<Ordering>) -> bool
    ensures { result ≡ places.is_less order }
{
    matches!(order, Some(Ordering::Less))
}

/// Whether the first point comes before the second in the root's tree, or is at its place. A point in an element is
/// before all that is below the child at its offset.
pub fn comes_first(links: &Links, a: &Point, b: &Point) -> bool
    ensures { result ≡ places.comes_first links.now a.now b.now }
{
    if a.key == b.key {
        a.offset <= b.offset
    } else if links.is_within(a.key, b.key) {
        a.offset <= children_before(links, a.key, b.key)
    } else if links.is_within(b.key, a.key) {
        children_before(links, b.key, a.key) < b.offset
    } else {
        is_less(links.order_of(a.key, b.key))
    }
}
