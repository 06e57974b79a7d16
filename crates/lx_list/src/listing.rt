//! Lines become items of lists.

ghost use Rattle.std.specs.Prelude.{◌≡◌, true};
ghost use Rattle.std.specs.List.{list_all};
ghost use Rattle.lx_node.specs.Kinds as kinds;
ghost use Rattle.lx_forest.specs.Lookups as lookups;
ghost use Rattle.lx_edit.specs.Standing.{Does};
ghost use Rattle.lx_blocks.specs.Blocks as blocks;
ghost use Rattle.lx_list.specs.Listing as listing;

use crate::kinds::is_list_of_at;
use crate::making::{item_fields, list_fields, unchecked};
use crate::retyping::retype_above;
use lx_blocks::{is_inline_at, is_item_at, ready};
use lx_draft::Draft;
use lx_edit::{move_children, remove};
use lx_links::Links;
use lx_node::{Fault, Key, Kind, ListType};
use std::alloc::Global;

/// A line, and the type of the list of which it is to be an item.
#[derive(Clone, Copy, Debug)]
pub(crate) struct NewItem {
    pub line: Key,
    pub list_type: ListType,
}

/// Puts what is in a line into a new item at a list's end, and removes the line.
#[tactic(auto, unfolding(crate::specs::Listing::item_made), using(crate::proofs::Made::item_suits))]
fn make_item(alloc: Global, draft: &mut Draft, new: NewItem, list: Key) -> Result<(), Fault>
    ensures { Does (listing.item_made new.list_type new.line list draft.old) draft.new result }
{
    let fields = item_fields(alloc, unchecked(new.list_type));
    let item = draft.new_node(Kind::Item, fields)?;
    let end = draft.links().size(list);
    draft.put(item, list, end)?;
    move_children(alloc, draft, new.line, item)?;
    remove(draft, new.line)
}

/// Makes a list before a line, whose only item takes what is in the line.
#[tactic(auto, unfolding(crate::specs::Listing::list_made), using(crate::proofs::Made::list_suits))]
fn make_list(alloc: Global, draft: &mut Draft, new: NewItem) -> Result<(), Fault>
    ensures { Does (listing.list_made new.list_type new.line draft.old) draft.new result }
{
    let fields = list_fields(alloc);
    let list = draft.new_node(Kind::List(new.list_type), fields)?;
    draft.put_before(list, new.line)?;
    make_item(alloc, draft, new, list)
}

/// Makes a line an item of the list before it, where that is one of the type, and else of a new one.
fn itemize(alloc: Global, draft: &mut Draft, new: NewItem) -> Result<(), Fault>
    ensures { Does (listing.itemized new.list_type new.line (lookups.previous_of draft.old.forest new.line) draft.old) draft.new result }
{
    match draft.links().previous(new.line) {
        Some(list) if is_list_of_at(draft.links(), new.list_type, list) => {
            make_item(alloc, draft, new, list)
        }
        _ => make_list(alloc, draft, new),
    }
}

/// Whether a node has no children but inline ones.
fn has_inlines_alone(links: &Links, key: Key) -> bool
    ensures { result ≡ list_all (blocks.is_at kinds.is_inline links.now) (lookups.children_of links.now key) }
{
    for child in links.children(key) {
        if !is_inline_at(links, child) {
            return false;
        }
    }
    true
}

/// Gives an item's list the type, and makes any other line an item, where all its children are inline.
#[tactic(auto, unfolding(crate::specs::Listing::listed))]
pub(crate) fn list_line(alloc: Global, draft: &mut Draft, new: NewItem) -> Result<(), Fault>
    ensures { Does (listing.listed new.list_type new.line draft.old) draft.new result }
{
    ready(draft)?;
    if is_item_at(draft.links(), new.line) {
        retype_above(alloc, draft, new.list_type, new.line)
    } else if has_inlines_alone(draft.links(), new.line) {
        itemize(alloc, draft, new)
    } else {
        Ok(())
    }
}
