//! Items get their numbers.

ghost use Rattle.std.specs.Prelude.{ℕ, ◌≡◌, ◌+◌, ◌<◌, ◌^◌, ◌++◌, ◌∷◌, [], length, if◌then◌else◌, true, OnOk, IfOk, IfSome, IfNone, filter};
ghost use Rattle.lx_trees.specs.Siblings.{is_among};
ghost use Rattle.lx_node.specs.Kinds as kinds;
ghost use Rattle.lx_forest.specs.Lookups as lookups;
ghost use Rattle.lx_forest.specs.Lookups.{IsForest, IsHeld};
ghost use Rattle.lx_forest.specs.Suited.{IsSuited};
ghost use Rattle.lx_links.specs.Stands.{Sound};
ghost use Rattle.lx_draft.specs.Covering.{IsReady};
ghost use Rattle.lx_edit.specs.InTurn.{in_turn};
ghost use Rattle.lx_edit.specs.Standing.{Does};
ghost use Rattle.lx_blocks.specs.Blocks as blocks;
ghost use Rattle.lx_caret.specs.Lying.{IsLying};
ghost use Rattle.lx_list.specs.Numbering as numbering;
ghost use Rattle.lx_list.specs.Numbering.{number_step};
ghost use Rattle.lx_list.specs.Laws.{IsRenumbered};
ghost use Rattle.lx_list.specs.Began.{BeganNumbered};
ghost use Rattle.lx_list.specs.Parts.{AreParts, AreSmall, part_numbered};

use crate::changing::number_item;
use crate::kinds::is_list_at;
use crate::nesting::is_nesting;
use crate::parts::{Part, part_of};
use crate::touched::{are_few, touched_lists};
use crate::weighing::weigh_parts;
use lx_blocks::ready;
use lx_draft::Draft;
use lx_edit::children_of;
use lx_links::Links;
use lx_node::{Extra, Fault, Fields, Key, NoMemory};
use std::alloc::Global;

/// The number that comes after an item.
pub(crate) fn following(number: u32, nests: bool) -> u32
    requires { number + 1 < 2 ^ 32 }
    ensures { result ≡ (if nests then number else number + 1) }
{
    if nests { number } else { number + 1 }
}

/// The number with which a list begins.
pub(crate) fn start_of(links: &Links, list: Key) -> u32
    ensures start { result ≡ numbering.list_start (lookups.fields_of links.now list) }
    ensures sound { Sound links.now }
{
    match links.node(list) {
        Some(node) => match &node.fields {
            Fields::Element(element) => match &element.extra {
                Extra::List { start } => *start,
                _ => 1,
            },
            _ => 1,
        },
        None => 1,
    }
}

/// Gives items their numbers, from this one on.
#[tactic(auto, unfolding(crate::specs::Numbering::numbered_from))]
fn number_items(alloc: Global, draft: &mut Draft, items: &[Key], first: u32) -> Result<(), Fault>
    requires few { first + length items.now < 2 ^ 32 }
    ensures { Does (numbering.numbered_from first items.now draft.old) draft.new result }
{
    let mut number = first;
    for item in items {
        let nests = is_nesting(draft.links(), *item);
        number_item(alloc, draft, *item, number)?;
        number = following(number, nests);
    }
    Ok(())
}

/// Keeps the key of a list.
fn keep_list(lists: &mut Vec<Key>, links: &Links, key: Key) -> Result<(), NoMemory>
    ensures { OnOk result (lists.new.items ≡ lists.old.items ++ filter (blocks.is_at kinds.is_list links.now) (key ∷ [])) }
{
    if is_list_at(links, key) {
        lists.push(key)?;
    }
    Ok(())
}

/// The lists of the root's tree, in preorder.
fn lists_of(alloc: Global, links: &Links) -> Result<Vec<Key>, NoMemory>
    ensures { IfOk result (λ keys. keys.items ≡ filter (blocks.is_at kinds.is_list links.now) (lookups.preorder links.now)) }
{
    let mut lists = Vec::new(alloc);
    if links.has_failed() {
        return Ok(lists);
    }
    let mut at = Some((Key::root(), 0));
    while let Some((key, depth)) = at {
        keep_list(&mut lists, links, key)?;
        at = links.next_in_tree(key, depth);
    }
    Ok(lists)
}

/// Gives the items of a list their numbers.
fn number_list(alloc: Global, draft: &mut Draft, list: Key) -> Result<(), Fault>
    ensures { Does (numbering.list_numbered list draft.old) draft.new result }
{
    let first = start_of(draft.links(), list);
    let items = children_of(alloc, draft.links(), list)?;
    number_items(alloc, draft, &items, first)
}

/// Gives the items of lists their numbers.
#[tactic(auto, unfolding(lx_edit::specs::InTurn::in_turn))]
fn number_lists(alloc: Global, draft: &mut Draft, lists: &[Key]) -> Result<(), Fault>
    ensures { Does (in_turn numbering.list_numbered lists.now draft.old) draft.new result }
{
    for list in lists {
        number_list(alloc, draft, *list)?;
    }
    Ok(())
}

/// Gives the items of parts their numbers.
#[tactic(auto, unfolding(lx_edit::specs::InTurn::in_turn))]
fn number_parts(alloc: Global, draft: &mut Draft, parts: &[Part]) -> Result<(), Fault>
    requires small { AreSmall parts.now }
    ensures { Does (in_turn part_numbered parts.now draft.old) draft.new result }
{
    for part in parts {
        number_items(alloc, draft, &part.keys, part.number)?;
    }
    Ok(())
}

/// The parts of lists. None, where a number is too great for a machine.
fn parts_of(alloc: Global, draft: &Draft, lists: &[Key]) -> Result<Option<Vec<Part>>, NoMemory>
    requires since { BeganNumbered draft.now }
    requires order { IsForest draft.now.forest }
    requires held { IsHeld kinds.may_hold draft.now.forest }
    requires are_lists { (q : ℕ) → is_among q lists.now ≡ true → blocks.is_at kinds.is_list draft.now.forest q ≡ true }
    ensures { IfOk result (λ found. IfSome found (λ parts. AreParts draft.now.forest lists.now parts.items)) }
{
    let mut parts = Vec::new(alloc);
    for list in lists {
        let Some(part) = part_of(alloc, draft, *list)? else {
            return Ok(None);
        };
        parts.push(part)?;
    }
    Ok(Some(parts))
}

/// Takes the counts at once of all items but those of the touched lists that may not have their numbers, and what they
/// write. It answers those that are left. Where a limit would be passed on the way, or many lists are touched, it does
/// nothing, and answers none.
fn number_untouched(alloc: Global, draft: &mut Draft) -> Result<Option<Vec<Part>>, NoMemory>
    requires since { BeganNumbered draft.old }
    requires ready { IsReady draft.old }
    requires held { IsHeld kinds.may_hold draft.old.forest }
    requires suited { IsSuited draft.old.forest }
    ensures done { IfOk result (λ left. IfSome left (λ parts. number_step draft.old ≡ in_turn part_numbered parts.items draft.new)) }
    ensures small { IfOk result (λ left. IfSome left (λ parts. AreSmall parts.items)) }
    ensures same { IfOk result (λ left. IfNone left (draft.new ≡ draft.old)) }
{
    if !are_few(draft.links(), draft.marks()) {
        return Ok(None);
    }
    let lists = touched_lists(alloc, draft)?;
    let Some(parts) = parts_of(alloc, draft, &lists)? else {
        return Ok(None);
    };
    let (loose_items, loose_characters) = draft.loose_items()?;
    let links = draft.links();
    let items = links.items();
    let characters = links.item_characters();
    let Some(own) = weigh_parts(links, &parts) else {
        return Ok(None);
    };
    if !draft.may_write(items, characters) {
        return Ok(None);
    }
    let others = items - loose_items - own.items;
    if draft.rewrite(others, characters - loose_characters - own.characters) {
        Ok(Some(parts))
    } else {
        Ok(None)
    }
}

/// Gives the items of all lists their numbers.
#[tactic(auto, unfolding(crate::specs::Numbering::number_step))]
fn number_tree(alloc: Global, draft: &mut Draft) -> Result<(), Fault>
    ensures { Does (number_step draft.old) draft.new result }
{
    let lists = lists_of(alloc, draft.links())?;
    number_lists(alloc, draft, &lists)
}

/// Gives each item in the root's tree its number: that with which its list begins, and one more for each item before it
/// whose first child isn't a list. Each item takes a count, and its fields are written, also where it has its number. The
/// whole tree is walked, so it relies on nothing; `number` does the same faster, where the draft began numbered. A
/// selection that lies in the root's tree does so after it.
///
/// It is refused with `StepLimit` where 100,000 counts were taken, and with `TooLarge` where what was written would come
/// above 16,777,216 scalar values. A draft on which it was refused is only fit to be dropped.
pub fn number_all(alloc: Global, draft: &mut Draft) -> Result<(), Fault>
    ensures does { Does (number_step draft.old) draft.new result }
    ensures numbered { OnOk result (IsRenumbered draft.old.forest draft.new.forest) }
    ensures lying { OnOk result (IsLying draft.old → IsLying draft.new) }
{
    ready(draft)?;
    number_tree(alloc, draft)
}

/// The same as `number_all`, and faster on a draft that began with a forest in which each item has its number: of lists that
/// are marked themselves, or of which a child is, it walks the items from the first such child on, until one behind the last
/// has its number. Where there are no items, no node is looked at. Where there are no such lists only the keys that are marked
/// are, and what was taken out of the tree. Where there are many, it is `number_all`.
///
/// It is refused for the same causes as `number_all`.
#[tactic(auto, unfolding(crate::specs::Numbering::number_step), using(crate::proofs::Renumbers::number_lies, crate::proofs::Renumbered::renumbered, crate::proofs::Itemless::number_itemless))]
pub fn number(alloc: Global, draft: &mut Draft) -> Result<(), Fault>
    requires since { BeganNumbered draft.old }
    ensures does { Does (number_step draft.old) draft.new result }
    ensures numbered { OnOk result (IsRenumbered draft.old.forest draft.new.forest) }
    ensures lying { OnOk result (IsLying draft.old → IsLying draft.new) }
{
    ready(draft)?;
    if draft.links().items() == 0 {
        return Ok(());
    }
    match number_untouched(alloc, draft)? {
        Some(parts) => number_parts(alloc, draft, &parts),
        None => number_tree(alloc, draft),
    }
}
