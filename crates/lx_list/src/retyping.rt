//! Lists become lists of another type.

ghost use Rattle.std.specs.Prelude.{◌≡◌, true, Some, IfOk};
ghost use Rattle.lx_node.specs.Kinds as kinds;
ghost use Rattle.lx_node.specs.OfKind.{IsOfKind};
ghost use Rattle.lx_node.specs.declared.kind.Kind.TheVariants.{List as ListKind};
ghost use Rattle.lx_forest.specs.Lookups as lookups;
ghost use Rattle.lx_edit.specs.InTurn.{in_turn};
ghost use Rattle.lx_edit.specs.Standing.{Does};
ghost use Rattle.lx_blocks.specs.Blocks as blocks;
ghost use Rattle.lx_list.specs.Listing as listing;

use crate::changing::{check_item, check_of};
use crate::kinds::is_list_of_at;
use crate::making::like;
use lx_draft::Draft;
use lx_edit::{children_of, move_children, remove};
use lx_links::Links;
use lx_node::{Fault, Fields, Key, Kind, ListType, NoMemory};
use std::alloc::Global;

/// In a check list, gives an item a check mark where it has none. In another list it loses its own.
fn remark(alloc: Global, draft: &mut Draft, list_type: ListType, item: Key) -> Result<(), Fault>
    ensures { Does (listing.remarked list_type item draft.old) draft.new result }
{
    match list_type {
        ListType::Check => {
            if check_of(draft.links(), item).is_some() {
                Ok(())
            } else {
                check_item(alloc, draft, item, Some(false))
            }
        }
        _ => check_item(alloc, draft, item, None),
    }
}

/// The same for items, one after another.
#[tactic(auto, unfolding(lx_edit::specs::InTurn::in_turn))]
fn remark_each(
    alloc: Global,
    draft: &mut Draft,
    list_type: ListType,
    items: &[Key],
) -> Result<(), Fault>
    ensures { Does (in_turn (listing.remarked list_type) items.now draft.old) draft.new result }
{
    for item in items {
        remark(alloc, draft, list_type, *item)?;
    }
    Ok(())
}

/// The fields of a list, for a list of any type.
fn list_fields_at(
    alloc: Global,
    links: &Links,
    list: Key,
    list_type: ListType,
) -> Result<Fields, NoMemory>
    requires { blocks.is_at kinds.is_list links.now list ≡ true }
    ensures fields { IfOk result (λ made. lookups.fields_of links.now list ≡ Some made) }
    ensures of_kind { IfOk result (λ made. IsOfKind (ListKind list_type) made) }
{
    let (_, fields) = like(alloc, links, list)?;
    Ok(fields)
}

/// Puts a list of the type in the place of a list, with its fields and its items.
#[tactic(auto, unfolding(crate::specs::Listing::retyped))]
fn retype(alloc: Global, draft: &mut Draft, list_type: ListType, list: Key) -> Result<(), Fault>
    requires { blocks.is_at kinds.is_list draft.old.forest list ≡ true }
    ensures { Does (listing.retyped list_type list draft.old) draft.new result }
{
    let fields = list_fields_at(alloc, draft.links(), list, list_type)?;
    let new = draft.new_node(Kind::List(list_type), fields)?;
    draft.put_before(new, list)?;
    move_children(alloc, draft, list, new)?;
    remove(draft, list)?;
    let items = children_of(alloc, draft.links(), new)?;
    remark_each(alloc, draft, list_type, &items)
}

/// Gives the list of an item the type, if that is another.
#[tactic(auto, using(crate::proofs::Above::list_above))]
pub(crate) fn retype_above(
    alloc: Global,
    draft: &mut Draft,
    list_type: ListType,
    item: Key,
) -> Result<(), Fault>
    requires { blocks.is_at kinds.is_item draft.old.forest item ≡ true }
    ensures { Does (listing.retyped_above list_type (lookups.parent_of draft.old.forest item) draft.old) draft.new result }
{
    match draft.links().parent(item) {
        Some(list) => {
            if is_list_of_at(draft.links(), list_type, list) {
                Ok(())
            } else {
                retype(alloc, draft, list_type, list)
            }
        }
        None => Ok(()),
    }
}
