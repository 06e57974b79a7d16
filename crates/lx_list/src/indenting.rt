//! Lines go one level deeper.

ghost use Rattle.std.specs.Prelude.{◌≡◌, true};
ghost use Rattle.lx_node.specs.Kinds as kinds;
ghost use Rattle.lx_forest.specs.Lookups as lookups;
ghost use Rattle.lx_edit.specs.Standing.{Does};
ghost use Rattle.lx_blocks.specs.Blocks as blocks;
ghost use Rattle.lx_list.specs.Indenting as indenting;

use crate::changing::{Change, change_fields};
use crate::making::{item_fields, like};
use crate::nesting::nested_in;
use lx_blocks::{is_item_at, ready};
use lx_draft::Draft;
use lx_edit::{move_children, move_to_end, remove};
use lx_node::{Fault, Key, Kind};
use std::alloc::Global;

/// Puts a new item in the place of one that is in a list, and that one into a list in it that is like its own.
#[tactic(auto, using(crate::proofs::Above::list_above, crate::proofs::Made::item_suits, crate::proofs::Made::no_root))]
fn wrap(alloc: Global, draft: &mut Draft, item: Key) -> Result<(), Fault>
    requires { blocks.is_at kinds.is_item draft.old.forest item ≡ true }
    ensures { Does (indenting.wrapped_in item (lookups.parent_of draft.old.forest item) draft.old) draft.new result }
{
    let Some(list) = draft.links().parent(item) else {
        return Ok(());
    };
    let (kind, fields) = like(alloc, draft.links(), list)?;
    let outer = draft.new_node(Kind::Item, item_fields(alloc, None))?;
    let inner = draft.new_node(kind, fields)?;
    draft.put_before(outer, item)?;
    draft.put(inner, outer, 0)?;
    move_to_end(draft, inner, item)
}

/// Moves the items of a further list after those of a list, and removes what holds the further one.
fn take_from(alloc: Global, draft: &mut Draft, list: Key, further: Key) -> Result<(), Fault>
    ensures { Does (indenting.taken_from list further (lookups.parent_of draft.old.forest further) draft.old) draft.new result }
{
    match draft.links().parent(further) {
        Some(holder) => {
            move_children(alloc, draft, further, list)?;
            remove(draft, holder)
        }
        None => Ok(()),
    }
}

/// Moves an item to the front of a list.
#[tactic(auto, unfolding(crate::specs::Indenting::moved_to_front))]
fn move_to_front(draft: &mut Draft, list: Key, item: Key) -> Result<(), Fault>
    ensures { Does (indenting.moved_to_front list item draft.old) draft.new result }
{
    draft.take(item)?;
    draft.put(item, list, 0)
}

/// Moves an item into the lists that are nested before it and after it, or else into a new one.
#[tactic(auto, unfolding(crate::specs::Indenting::moved_between))]
fn nest(
    alloc: Global,
    draft: &mut Draft,
    before: Option<Key>,
    behind: Option<Key>,
    item: Key,
) -> Result<(), Fault>
    requires { blocks.is_at kinds.is_item draft.old.forest item ≡ true }
    ensures { Does (indenting.nested_by before behind item draft.old) draft.new result }
{
    match (before, behind) {
        (Some(list), Some(further)) => {
            move_to_end(draft, list, item)?;
            take_from(alloc, draft, list, further)
        }
        (Some(list), None) => move_to_end(draft, list, item),
        (None, Some(list)) => move_to_front(draft, list, item),
        (None, None) => wrap(alloc, draft, item),
    }
}

/// Nests an item, and indents any other line by one more.
#[tactic(auto, unfolding(crate::specs::Indenting::indented))]
pub(crate) fn indent_line(alloc: Global, draft: &mut Draft, line: Key) -> Result<(), Fault>
    ensures { Does (indenting.indented line draft.old) draft.new result }
{
    ready(draft)?;
    let links = draft.links();
    if is_item_at(links, line) {
        let before = nested_in(links, links.previous(line));
        let behind = nested_in(links, links.next(line));
        nest(alloc, draft, before, behind, line)
    } else {
        change_fields(alloc, draft, line, Change::Deeper)
    }
}
