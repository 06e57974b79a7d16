//! The whole content selected.

ghost use Rattle.std.specs.Prelude.{◌≡◌, ◌≢◌, Some};
ghost use Rattle.lx_trees.specs.Trees.{nil};
ghost use Rattle.lx_forest.specs.Lookups as lookups;
ghost use Rattle.lx_edit.specs.Standing.{Does};
ghost use Rattle.lx_caret.specs.SelectAll as selecting;
ghost use Rattle.lx_caret.specs.SelectAll.{select_all_step};

use lx_blocks::{is_element_at, is_text_at, start_within};
use lx_draft::Draft;
use lx_edit::{admitted, element_point, text_point};
use lx_links::Links;
use lx_node::{Fault, Key, Point};
use lx_select::Selection;

/// The last node, down last children from the root.
fn last_leaf(links: &Links) -> Key
    requires { links.now ≢ nil }
    ensures { Some result ≡ selecting.last_leaf links.now 0 }
{
    let mut at = Key::root();
    while let Some(child) = links.last(at) {
        at = child;
    }
    at
}

/// The place after a node in its parent.
#[tactic(auto, using(lx_blocks::proofs::Passing::index_fits))]
fn place_behind(links: &Links, key: Key) -> Point
    ensures { result ≡ selecting.place_at 1 key (lookups.parent_of links.now key) (lookups.index_of links.now key) }
{
    match (links.parent(key), links.index_of(key)) {
        (Some(parent), Some(index)) => element_point(parent, index + 1),
        _ => element_point(key, 0),
    }
}

/// Where a leaf ends: with its characters, at the start of an empty element, or after any other in its parent.
fn end_at(draft: &Draft, key: Key) -> Point
    ensures { result ≡ selecting.end_at draft.now.forest (Some key) }
{
    let links = draft.links();
    if is_text_at(links, key) {
        text_point(key, draft.text_length(key))
    } else if is_element_at(links, key) {
        element_point(key, 0)
    } else {
        place_behind(links, key)
    }
}

/// Selects the whole content.
#[tactic(auto, unfolding(crate::specs::SelectAll::select_all_step))]
pub(crate) fn select_content(draft: &mut Draft) -> Result<(), Fault>
    ensures { Does (select_all_step draft.old) draft.new result }
{
    admitted(draft, None)?;
    let anchor = start_within(draft, Key::root());
    let focus = end_at(draft, last_leaf(draft.links()));
    draft.select(Selection::Range {
        anchor,
        focus,
        format: 0,
    })
}
