//! Items are checked.

ghost use Rattle.std.specs.Prelude.{◌≡◌, OnOk};
ghost use Rattle.lx_node.specs.Kinds as kinds;
ghost use Rattle.lx_forest.specs.Lookups as lookups;
ghost use Rattle.lx_draft.specs.Selecting.{unlike};
ghost use Rattle.lx_edit.specs.Standing.{Does};
ghost use Rattle.lx_caret.specs.Lying.{IsLying};
ghost use Rattle.lx_list.specs.Checking as checking;
ghost use Rattle.lx_list.specs.Checking.{set_checked_step, toggle_checked_step};

use crate::changing::{check_item, check_of};
use lx_blocks::{block, is_item_at, no_range, range_of, ready};
use lx_draft::Draft;
use lx_edit::admitted;
use lx_links::Links;
use lx_node::{Cause, Fault, Key, SelectionKind};
use std::alloc::Global;

/// The node isn't there, or it is no item.
fn item_fault(links: &Links, key: Key) -> Option<Cause>
    ensures { result ≡ checking.item_fault links.now key }
{
    match links.missing(key) {
        Some(cause) => Some(cause),
        None => no_item(links, key),
    }
}

/// The node is of another kind.
fn no_item(links: &Links, key: Key) -> Option<Cause>
    ensures { result ≡ unlike kinds.is_item (lookups.kind_of links.now key) }
{
    let kind = links.kind(key)?;
    if is_item_at(links, key) {
        None
    } else {
        Some(Cause::WrongKind(kind))
    }
}

/// Gives an item a check mark, set or not.
#[tactic(auto, unfolding(crate::specs::Checking::set_checked_step))]
fn check(alloc: Global, draft: &mut Draft, item: Key, checked: bool) -> Result<(), Fault>
    ensures { Does (set_checked_step item checked draft.old) draft.new result }
{
    let fault = item_fault(draft.links(), item);
    admitted(draft, fault)?;
    check_item(alloc, draft, item, Some(checked))
}

/// Gives an item a check mark, set or not. A selection that lies in the root's tree does so after it.
///
/// It is refused where there is no such node and where it is no item, as `UnknownNode` and as `WrongKind` with its kind; and
/// as `Draft::set` is, where 100,000 counts were taken, and where what was written would come above 16,777,216 scalar
/// values.
pub fn set_checked(alloc: Global, draft: &mut Draft, item: Key, checked: bool) -> Result<(), Fault>
    ensures does { Does (set_checked_step item checked draft.old) draft.new result }
    ensures lying { OnOk result (IsLying draft.old → IsLying draft.new) }
{
    ready(draft)?;
    check(alloc, draft, item, checked)
}

/// Whether an item's check mark is set.
fn is_checked(links: &Links, item: Key) -> bool
    ensures { result ≡ checking.is_checked (lookups.fields_of links.now item) }
{
    matches!(check_of(links, item), Some(true))
}

/// Sets the check mark of the anchor's block, or clears it where it is set.
#[tactic(auto, unfolding(crate::specs::Checking::toggle_checked_step))]
fn toggle(alloc: Global, draft: &mut Draft) -> Result<(), Fault>
    ensures { Does (toggle_checked_step draft.old) draft.new result }
{
    let range = range_of(draft)?;
    match block(draft.links(), range.anchor.key) {
        Some(block) => {
            let checked = !is_checked(draft.links(), block);
            check(alloc, draft, block, checked)
        }
        None => Err(no_range(SelectionKind::Range)),
    }
}

/// Sets the check mark of the item that is the anchor's block, or clears it where it is set. A block without one gets it.
/// It leaves a selection that lies in the root's tree.
///
/// It is refused with `NoSelection` where the selection is no range, where a point of it doesn't lie in the root's tree,
/// where one lies in another cell than the other, and where the anchor is in no block; and otherwise as `set_checked` is of
/// that block.
pub fn toggle_checked(alloc: Global, draft: &mut Draft) -> Result<(), Fault>
    ensures does { Does (toggle_checked_step draft.old) draft.new result }
    ensures lying { OnOk result (IsLying draft.new) }
{
    ready(draft)?;
    toggle(alloc, draft)
}
