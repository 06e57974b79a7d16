//! New nodes, and the items after one.

ghost use Rattle.std.specs.Prelude.{◌≡◌, ◌+◌, true, Some, IfOk, unwrap_or};
ghost use Rattle.lx_node.specs.Kinds as kinds;
ghost use Rattle.lx_node.specs.OfKind.{IsOfKind};
ghost use Rattle.lx_forest.specs.Lookups as lookups;
ghost use Rattle.lx_blocks.specs.Blocks as blocks;
ghost use Rattle.lx_list.specs.Making as making;
ghost use Rattle.lx_list.specs.Outdenting as outdenting;

use lx_blocks::{children_from, node_at};
use lx_links::Links;
use lx_node::{ElementFields, Extra, Fields, Key, Kind, ListType, NoMemory};
use std::alloc::Global;

/// The fields of a list of which nothing is set.
pub(crate) fn list_fields(alloc: Global) -> Fields
    ensures { result ≡ making.list_fields }
{
    Fields::Element(ElementFields::with(alloc, Extra::List { start: 1 }))
}

/// The fields of an item of which nothing but its check mark is set.
pub(crate) fn item_fields(alloc: Global, checked: Option<bool>) -> Fields
    ensures { result ≡ making.item_fields checked }
{
    Fields::Element(ElementFields::with(alloc, Extra::Item { value: 1, checked }))
}

/// The check mark of a new item in a list of the type.
pub(crate) fn unchecked(list_type: ListType) -> Option<bool>
    ensures { result ≡ making.unchecked list_type }
{
    match list_type {
        ListType::Check => Some(false),
        _ => None,
    }
}

/// The kind and the fields of a list, for another like it.
pub(crate) fn like(alloc: Global, links: &Links, list: Key) -> Result<(Kind, Fields), NoMemory>
    requires { blocks.is_at kinds.is_list links.now list ≡ true }
    ensures label { IfOk result (λ made. lookups.label_of links.now list ≡ Some (record { key = list; kind = made.0; fields = made.1 })) }
    ensures list { IfOk result (λ made. kinds.is_list made.0 ≡ true) }
    ensures of_kind { IfOk result (λ made. IsOfKind made.0 made.1) }
{
    match node_at(links, list) {
        Some(node) => Ok((node.kind, node.fields.copy(alloc)?)),
        None => unreachable!(),
    }
}

/// How many items of its list come before what comes after an item.
#[tactic(auto, using(lx_blocks::proofs::Passing::index_fits))]
fn place_behind(links: &Links, item: Key) -> u32
    ensures { result ≡ unwrap_or (lookups.index_of links.now item) 0 + 1 }
{
    match links.index_of(item) {
        Some(index) => index + 1,
        None => 1,
    }
}

/// The items of a list after one of them.
pub(crate) fn items_behind(
    alloc: Global,
    links: &Links,
    list: Key,
    item: Key,
) -> Result<Vec<Key>, NoMemory>
    ensures { IfOk result (λ keys. keys.items ≡ outdenting.items_behind links.now list item) }
{
    children_from(alloc, links, list, place_behind(links, item))
}
