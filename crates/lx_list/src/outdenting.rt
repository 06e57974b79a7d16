//! Lines go one level up.

ghost use Rattle.std.specs.Prelude.{◌≡◌, ◌&&◌, true};
ghost use Rattle.lx_node.specs.Kinds as kinds;
ghost use Rattle.lx_trees.specs.Siblings.{is_named};
ghost use Rattle.lx_forest.specs.Lookups as lookups;
ghost use Rattle.lx_edit.specs.Standing.{Does};
ghost use Rattle.lx_blocks.specs.Blocks as blocks;
ghost use Rattle.lx_list.specs.Outdenting as outdenting;

use crate::changing::{Change, change_fields};
use crate::making::{item_fields, items_behind, like};
use lx_blocks::{is_item_at, ready};
use lx_draft::Draft;
use lx_edit::{move_before, move_behind, move_each, remove};
use lx_links::Links;
use lx_node::{Fault, Fields, Key, Kind};
use std::alloc::Global;

/// Puts a new item after an outer one, with a list in it that takes items, and a node between the two.
#[tactic(auto, using(crate::proofs::Made::item_suits, crate::proofs::Made::no_root))]
fn part_with(
    alloc: Global,
    draft: &mut Draft,
    item: Key,
    behind: &[Key],
    outer: Key,
    list: Key,
) -> Result<(), Fault>
    requires { blocks.is_at kinds.is_list draft.old.forest list ≡ true }
    ensures { Does (outdenting.parted_like item behind.now outer (lookups.label_of draft.old.forest list) draft.old) draft.new result }
{
    let (kind, fields) = like(alloc, draft.links(), list)?;
    let new = draft.new_node(Kind::Item, item_fields(alloc, None))?;
    let inner = draft.new_node(kind, fields)?;
    draft.put(inner, new, 0)?;
    move_each(draft, inner, behind)?;
    draft.put_behind(new, outer)?;
    move_behind(draft, outer, item)
}

/// Moves an item after the outer one, and between the two and what was after it in its list.
#[tactic(auto, unfolding(crate::specs::Outdenting::parted))]
fn part(alloc: Global, draft: &mut Draft, item: Key, list: Key, outer: Key) -> Result<(), Fault>
    requires { blocks.is_at kinds.is_list draft.old.forest list ≡ true }
    ensures { Does (outdenting.parted item list outer draft.old) draft.new result }
{
    let behind = items_behind(alloc, draft.links(), list, item)?;
    part_with(alloc, draft, item, &behind, outer, list)
}

/// Whether a node is another's first child.
fn is_first(links: &Links, parent: Key, key: Key) -> bool
    ensures { result ≡ is_named (lookups.first_child links.now parent) key }
{
    match links.first(parent) {
        Some(first) => first == key,
        None => false,
    }
}

/// Moves an item out of its list: before the outer item, or after it.
#[tactic(auto, unfolding(crate::specs::Outdenting::moved_out))]
fn move_out(alloc: Global, draft: &mut Draft, item: Key, list: Key, outer: Key) -> Result<(), Fault>
    requires { blocks.is_at kinds.is_list draft.old.forest list ≡ true }
    ensures { Does (outdenting.moved_out item list outer draft.old) draft.new result }
{
    let links = draft.links();
    if is_first(links, list, item) && is_first(links, outer, list) {
        move_before(draft, outer, item)
    } else if links.next(item).is_none() {
        move_behind(draft, outer, item)
    } else {
        part(alloc, draft, item, list, outer)
    }
}

/// Moves an item out of a list in an outer item. The list goes too where nothing is left in it.
#[tactic(auto, unfolding(crate::specs::Outdenting::out_of))]
pub(crate) fn take_out_of(
    alloc: Global,
    draft: &mut Draft,
    item: Key,
    list: Key,
    outer: Key,
) -> Result<(), Fault>
    requires { blocks.is_at kinds.is_list draft.old.forest list ≡ true }
    ensures { Does (outdenting.out_of item list outer draft.old) draft.new result }
{
    move_out(alloc, draft, item, list, outer)?;
    if draft.links().size(list) == 0 {
        remove(draft, list)
    } else {
        Ok(())
    }
}

/// The same, where the item is in a list and that in an outer item.
#[tactic(auto, using(crate::proofs::Above::list_above))]
fn take_out(alloc: Global, draft: &mut Draft, item: Key) -> Result<(), Fault>
    requires { blocks.is_at kinds.is_item draft.old.forest item ≡ true }
    ensures { Does (outdenting.out_by item (lookups.parent_of draft.old.forest item) draft.old) draft.new result }
{
    let Some(list) = draft.links().parent(item) else {
        return Ok(());
    };
    match draft.links().parent(list) {
        Some(outer) if is_item_at(draft.links(), outer) => {
            take_out_of(alloc, draft, item, list, outer)
        }
        _ => Ok(()),
    }
}

/// Moves an item out of its list, and indents any other line by one less.
#[tactic(auto, unfolding(crate::specs::Outdenting::outdented))]
pub(crate) fn outdent_line(alloc: Global, draft: &mut Draft, line: Key) -> Result<(), Fault>
    ensures { Does (outdenting.outdented line draft.old) draft.new result }
{
    ready(draft)?;
    if is_item_at(draft.links(), line) {
        take_out(alloc, draft, line)
    } else {
        change_fields(alloc, draft, line, Change::Shallower)
    }
}
