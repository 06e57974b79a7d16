//! An item without children ends its list.

ghost use Rattle.std.specs.Prelude.{◌≡◌, true, Some, OnOk};
ghost use Rattle.lx_node.specs.Kinds as kinds;
ghost use Rattle.lx_node.specs.OfKind.{IsOfKind};
ghost use Rattle.lx_forest.specs.Lookups as lookups;
ghost use Rattle.lx_edit.specs.Standing.{Does};
ghost use Rattle.lx_blocks.specs.Blocks as blocks;
ghost use Rattle.lx_caret.specs.Lying.{IsLying};
ghost use Rattle.lx_list.specs.Ending as ending;
ghost use Rattle.lx_list.specs.Ending.{paragraph_in_item_step};

use crate::making::{items_behind, like};
use crate::outdenting::take_out_of;
use lx_blocks::{is_item_at, place_caret, ready};
use lx_draft::Draft;
use lx_edit::{element_point, move_each, remove};
use lx_node::{Fault, Fields, Key, Kind};
use std::alloc::Global;

/// Moves items, if there are any, into a new list of this kind and with these fields after a paragraph.
#[tactic(auto, using(crate::proofs::Made::no_root))]
fn part_rest(
    draft: &mut Draft,
    paragraph: Key,
    items: &[Key],
    kind: Kind,
    fields: Fields,
    list: Key,
) -> Result<(), Fault>
    requires list { kinds.is_list kind ≡ true }
    requires of_kind { IsOfKind kind fields }
    ensures { Does (ending.rest_parted paragraph items.now (Some (record { key = list; kind = kind; fields = fields })) draft.old) draft.new result }
{
    match items {
        [] => Ok(()),
        _ => {
            let rest = draft.new_node(kind, fields)?;
            draft.put_behind(rest, paragraph)?;
            move_each(draft, rest, items)
        }
    }
}

/// Puts a paragraph after a list in the place of an item, with the caret, and the items after that into a list of
/// their own.
#[tactic(auto, unfolding(crate::specs::Ending::paragraph_behind), using(lx_blocks::proofs::Labelled::paragraph_suits))]
fn put_paragraph(alloc: Global, draft: &mut Draft, item: Key, list: Key) -> Result<(), Fault>
    requires { blocks.is_at kinds.is_list draft.old.forest list ≡ true }
    ensures { Does (ending.paragraph_behind item list draft.old) draft.new result }
{
    let items = items_behind(alloc, draft.links(), list, item)?;
    let (kind, fields) = like(alloc, draft.links(), list)?;
    let paragraph = draft.new_node(Kind::Paragraph, Fields::plain_element(alloc))?;
    draft.put_behind(paragraph, list)?;
    part_rest(draft, paragraph, &items, kind, fields, list)?;
    place_caret(draft, &element_point(paragraph, 0));
    remove(draft, item)
}

/// Ends a list at an item, by what the list is in.
fn end_list(alloc: Global, draft: &mut Draft, item: Key, list: Key) -> Result<(), Fault>
    requires { blocks.is_at kinds.is_list draft.old.forest list ≡ true }
    ensures { Does (ending.list_ended_by item list (lookups.parent_of draft.old.forest list) draft.old) draft.new result }
{
    match draft.links().parent(list) {
        Some(above) if is_item_at(draft.links(), above) => {
            take_out_of(alloc, draft, item, list, above)
        }
        Some(_) => put_paragraph(alloc, draft, item, list),
        None => Ok(()),
    }
}

/// Ends its list at an item, where it is in one.
#[tactic(auto, unfolding(crate::specs::Ending::paragraph_in_item_step), using(crate::proofs::Above::list_above))]
fn end_at(alloc: Global, draft: &mut Draft, item: Key) -> Result<(), Fault>
    requires { blocks.is_at kinds.is_item draft.old.forest item ≡ true }
    ensures { Does (paragraph_in_item_step item draft.old) draft.new result }
{
    match draft.links().parent(item) {
        Some(list) => end_list(alloc, draft, item, list),
        None => Ok(()),
    }
}

/// Ends its list at an item without children. Where the list is in another item, the item goes out of it as by
/// `outdent`. Otherwise a new paragraph comes after the list in the place of the item, with the caret in it; and the items
/// that came after the item go into a new list after the paragraph, with the kind and the fields of theirs. The
/// selection's format stays. What may not be left empty goes with the item. At an item of the root's tree it leaves a
/// selection that lies in that tree, where it began with such a one.
///
/// It is refused as the edits of a draft are: with `StepLimit` where 100,000 counts were taken, and with `TooLarge` where
/// the new nodes would bring what was written above 16,777,216 scalar values.
pub fn paragraph_in_item(alloc: Global, draft: &mut Draft, item: Key) -> Result<(), Fault>
    requires { blocks.is_at kinds.is_item draft.old.forest item ≡ true }
    ensures does { Does (paragraph_in_item_step item draft.old) draft.new result }
    ensures lying { OnOk result (IsLying draft.old → lookups.is_attached draft.old.forest item ≡ true → IsLying draft.new) }
{
    ready(draft)?;
    end_at(alloc, draft, item)
}
