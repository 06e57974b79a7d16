//! The part of a list whose items may not have their numbers.

ghost use Rattle.std.specs.Prelude.{ℕ, ◌≡◌, ◌+◌, ◌||◌, if◌then◌else◌, true, Some, option_map, IsTrue, IfOk, IfSome, IfNone};
ghost use Rattle.lx_node.specs.Kinds as kinds;
ghost use Rattle.lx_forest.specs.Lookups as lookups;
ghost use Rattle.lx_forest.specs.Lookups.{IsForest, IsHeld};
ghost use Rattle.lx_blocks.specs.Blocks as blocks;
ghost use Rattle.lx_list.specs.Began.{BeganNumbered};
ghost use Rattle.lx_list.specs.Numbered.{item_number};
ghost use Rattle.lx_list.specs.Parts as parts;
ghost use Rattle.lx_list.specs.Parts.{AreUntouched, IsMarkedWindow, IsBehind, IsBeginning, IsUnnumberedPart};

use crate::changing::{has_number, number_of};
use crate::nesting::is_nesting;
use crate::numbering::start_of;
use crate::windows::window_of;
use lx_draft::Draft;
use lx_links::Links;
use lx_node::{Key, NoMemory};
use std::alloc::Global;

/// Items of a list, each the next sibling of the one before, and the number that the first of them is to have.
#[derive(Drop)]
pub(crate) struct Part {
    pub(crate) number: u32,
    pub(crate) keys: Vec<Key>,
}

/// The number behind an item that has this one. None, where a machine has none.
fn counted_on(number: u32, nests: bool) -> Option<u32>
    ensures { IfSome result (λ next. next ≡ (if nests then number else number + 1)) }
{
    if nests {
        Some(number)
    } else {
        number.checked_add(1)
    }
}

/// The number behind an item. None, where it has none, and where a machine has none.
fn number_after(links: &Links, item: Key) -> Option<u32>
    ensures { IfSome result (λ next. IsBehind links.now item next) }
{
    match number_of(links, item) {
        Some(number) => counted_on(number, is_nesting(links, item)),
        None => None,
    }
}

/// Whether a list has a first item, and that has this number.
fn starts_with(links: &Links, list: Key, number: u32) -> bool
    ensures { IsTrue result → (q : ℕ) → lookups.first_child links.now list ≡ Some q → item_number (lookups.fields_of links.now q) ≡ Some number }
{
    match links.first(list) {
        Some(first) => has_number(links, first, number),
        None => false,
    }
}

/// The first of a window.
fn first_in(window: Option<(Key, Key)>) -> Option<Key>
    ensures { result ≡ option_map (λ ends. ends.0) window }
{
    match window {
        Some((first, _)) => Some(first),
        None => None,
    }
}

/// The item of a list from which on items may not have their numbers, and the number that it is to have: the first one that
/// is marked itself, where those before it have theirs, and else the first of all.
fn beginning(draft: &Draft, list: Key, window: Option<(Key, Key)>) -> Option<(Option<Key>, u32)>
    requires since { BeganNumbered draft.now }
    requires order { IsForest draft.now.forest }
    requires is_list { blocks.is_at kinds.is_list draft.now.forest list ≡ true }
    requires some { IfSome window (λ ends. IsMarkedWindow draft.now.forest draft.now.marks list ends.0 ends.1) }
    requires none { IfNone window (AreUntouched draft.now.marks (lookups.children_of draft.now.forest list)) }
    ensures { IfSome result (λ begun. IsBeginning draft.now list window begun.0 begun.1) }
{
    let links = draft.links();
    let start = start_of(links, list);
    let first = links.first(list);
    let Some(front) = first_in(window) else {
        return Some((first, start));
    };
    let Some(before) = links.previous(front) else {
        return Some((first, start));
    };
    if !starts_with(links, list, start) {
        return Some((first, start));
    }
    match number_after(links, before) {
        Some(number) => Some((Some(front), number)),
        None => None,
    }
}

/// Whether the last of a window was passed, once this item was.
fn passes_end(window: Option<(Key, Key)>, is_past: bool, item: Key) -> bool
    ensures { result ≡ (is_past || parts.is_end window item) }
{
    match window {
        Some((_, last)) => is_past || item == last,
        None => is_past,
    }
}

/// The items of a list that may not have their numbers: those from the beginning up to the last of a window, and on to
/// where the others have their numbers.
fn part_around(
    alloc: Global,
    draft: &Draft,
    list: Key,
    window: Option<(Key, Key)>,
) -> Result<Option<Part>, NoMemory>
    requires since { BeganNumbered draft.now }
    requires order { IsForest draft.now.forest }
    requires is_list { blocks.is_at kinds.is_list draft.now.forest list ≡ true }
    requires some { IfSome window (λ ends. IsMarkedWindow draft.now.forest draft.now.marks list ends.0 ends.1) }
    requires none { IfNone window (AreUntouched draft.now.marks (lookups.children_of draft.now.forest list)) }
    ensures { IfOk result (λ found. IfSome found (λ part. IsUnnumberedPart draft.now.forest list part.number part.keys.items)) }
{
    let Some((from, number)) = beginning(draft, list, window) else {
        return Ok(None);
    };
    let links = draft.links();
    let mut keys = Vec::new(alloc);
    let mut due = number;
    let mut is_past = window.is_none();
    let mut at = from;
    while let Some(item) = at {
        if is_past && has_number(links, item, due) {
            return Ok(Some(Part { number, keys }));
        }
        keys.push(item)?;
        is_past = passes_end(window, is_past, item);
        let Some(next) = counted_on(due, is_nesting(links, item)) else {
            return Ok(None);
        };
        due = next;
        at = links.next(item);
    }
    Ok(Some(Part { number, keys }))
}

/// The items of a list that may not have their numbers, from the first that is marked itself on: those after the last such
/// one come to it until one has the number that it is to have. None, where a number is too great for a machine.
pub(crate) fn part_of(alloc: Global, draft: &Draft, list: Key) -> Result<Option<Part>, NoMemory>
    requires since { BeganNumbered draft.now }
    requires order { IsForest draft.now.forest }
    requires held { IsHeld kinds.may_hold draft.now.forest }
    requires is_list { blocks.is_at kinds.is_list draft.now.forest list ≡ true }
    ensures { IfOk result (λ found. IfSome found (λ part. IsUnnumberedPart draft.now.forest list part.number part.keys.items)) }
{
    let window = window_of(draft.links(), draft.marks(), list);
    part_around(alloc, draft, list, window)
}
