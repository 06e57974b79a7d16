//! What is where, and where points go.

ghost use Rattle.std.specs.Prelude.{◌≡◌, IfOk};
ghost use Rattle.lx_forest.specs.Lookups as lookups;
ghost use Rattle.lx_links.specs.Stands.{Sound};
ghost use Rattle.lx_draft.specs.Selecting as selecting;
ghost use Rattle.lx_edit.specs.Edits as edits;

use lx_links::Links;
use lx_node::{Fields, Key, NoMemory, Point, PointKind};
use std::alloc::Global;

/// The keys of a node's children, in order.
pub fn children_of(alloc: Global, links: &Links, key: Key) -> Result<Vec<Key>, NoMemory>
    ensures keys { IfOk result (λ keys. keys.items ≡ lookups.children_of links.now key) }
    ensures sound { Sound links.now }
{
    let mut keys = Vec::new(alloc);
    for child in links.children(key) {
        keys.push(child)?;
    }
    Ok(keys)
}

/// A point before the child at this index of an element, or after the last one.
pub fn element_point(key: Key, offset: u32) -> Point
    ensures { result ≡ edits.element_point key offset }
{
    Point {
        key,
        offset,
        kind: PointKind::Element,
    }
}

/// A point in a text or tab, at an offset in UTF-16 code units.
pub fn text_point(key: Key, offset: u32) -> Point
    ensures { result ≡ edits.text_point key offset }
{
    Point {
        key,
        offset,
        kind: PointKind::Text,
    }
}

/// The length of the text of a text or tab.
pub(crate) fn length_of(links: &Links, key: Key) -> u32
    ensures { result ≡ selecting.length_of (lookups.fields_of links.now key) }
{
    match links.node(key) {
        Some(node) => match &node.fields {
            Fields::Text(text) => lx_text::length_of(&text.text),
            _ => 0,
        },
        None => 0,
    }
}

/// The start of what a node has: characters, or children.
fn start_of(links: &Links, key: Key) -> Option<Point>
    ensures { result ≡ edits.start_in key (lookups.kind_of links.now key) }
{
    let kind = links.kind(key)?;
    if kind.has_characters() {
        Some(text_point(key, 0))
    } else if kind.is_element() {
        Some(element_point(key, 0))
    } else {
        None
    }
}

/// The end of what a node has: characters, or children.
fn end_of(links: &Links, key: Key) -> Option<Point>
    ensures { result ≡ edits.end_in links.now key (lookups.kind_of links.now key) }
{
    let kind = links.kind(key)?;
    if kind.has_characters() {
        Some(text_point(key, length_of(links, key)))
    } else if kind.is_element() {
        Some(element_point(key, links.size(key)))
    } else {
        None
    }
}

/// Where points on a node go when it is removed, if that is a place in what is beside it.
pub(crate) fn beside(links: &Links, key: Key) -> Option<Point>
    ensures { result ≡ edits.beside links.now (lookups.previous_of links.now key) (lookups.next_of links.now key) }
{
    match (links.previous(key), links.next(key)) {
        (Some(previous), _) => end_of(links, previous),
        (None, Some(next)) => start_of(links, next),
        (None, None) => None,
    }
}
