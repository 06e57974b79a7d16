//! The lists whose items may not have their numbers any more.

ghost use Rattle.std.specs.Prelude.{ℕ, ◌≤◌, ◌≡◌, ◌==◌, ◌&&◌, ◌||◌, Bool, true, length, IfOk, OnOk, IfSome, MatchOption, filter, insert};
ghost use Rattle.std.specs.List.{list_any};
ghost use Rattle.lx_node.specs.Kinds as kinds;
ghost use Rattle.lx_forest.specs.Lookups as lookups;
ghost use Rattle.lx_blocks.specs.Blocks as blocks;
ghost use Rattle.lx_list.specs.Touched as touched;

use crate::kinds::is_list_at;
use lx_draft::Draft;
use lx_links::Links;
use lx_marks::Marks;
use lx_node::{Key, NoMemory};
use std::alloc::Global;
use std::cmp::Ordering;

/// How many marks may be of lists where these are looked for by their marks. Each such list takes a look at all marks, so
/// beyond it a walk through the tree is faster.
const MOST_OF_LISTS: u32 = 64;

/// Whether a key is that of a list, or of a child of one.
fn is_of_a_list(links: &Links, key: Key) -> bool {
    match links.parent(key) {
        Some(parent) => is_list_at(links, key) || is_list_at(links, parent),
        None => is_list_at(links, key),
    }
}

/// Whether few of the elements that are marked themselves are of lists.
fn few_are_of_lists(links: &Links, elements: &[(Key, bool)]) -> bool {
    let mut left = MOST_OF_LISTS;
    for (key, flag) in elements {
        if *flag && is_of_a_list(links, *key) {
            if left == 0 {
                return false;
            }
            left -= 1;
        }
    }
    true
}

/// Whether so few marks are of lists that these are looked for by them. Where few elements are marked at all, none is
/// looked at.
pub(crate) fn are_few(links: &Links, marks: &Marks) -> bool {
    marks.element_at(MOST_OF_LISTS).is_none() || few_are_of_lists(links, marks.elements())
}

/// The place at which a list of the root's tree comes among keys that are kept in preorder: none where it is there.
fn place_of(keys: &[Key], links: &Links, list: Key) -> Option<usize>
    requires in_order { lookups.IsForest links.now }
    requires attached { lookups.is_attached links.now list ≡ true }
    ensures within { IfSome result (λ at. at ≤ length keys.now) }
    ensures place { (p : ℕ → Bool) → keys.now ≡ filter p (lookups.preorder links.now) → MatchOption result (keys.now ≡ filter (λ q. p q || q == list) (lookups.preorder links.now)) (λ at. insert keys.now at list ≡ filter (λ q. p q || q == list) (lookups.preorder links.now)) }
{
    let mut at = 0;
    while at < keys.len() {
        let Some(order) = links.order_of(keys[at], list) else {
            return Some(at);
        };
        match order {
            Ordering::Less => at += 1,
            Ordering::Equal => return None,
            Ordering::Greater => return Some(at),
        }
    }
    Some(at)
}

/// Keeps a list of the root's tree at its place in preorder, once.
fn keep_in_order(keys: &mut Vec<Key>, links: &Links, list: Key) -> Result<(), NoMemory>
    requires in_order { lookups.IsForest links.now }
    requires attached { lookups.is_attached links.now list ≡ true }
    ensures { (p : ℕ → Bool) → keys.old.items ≡ filter p (lookups.preorder links.now) → OnOk result (keys.new.items ≡ filter (λ q. p q || q == list) (lookups.preorder links.now)) }
{
    if let Some(at) = place_of(keys, links, list) {
        keys.insert(at, list)?;
    }
    Ok(())
}

/// Keeps the key where it is that of a list in the root's tree.
fn keep_list(keys: &mut Vec<Key>, links: &Links, key: Key) -> Result<(), NoMemory>
    ensures { (p : ℕ → Bool) → keys.old.items ≡ filter p (lookups.preorder links.now) → OnOk result (keys.new.items ≡ filter (λ q. p q || (blocks.is_at kinds.is_list links.now q && q == key)) (lookups.preorder links.now)) }
{
    if is_list_at(links, key) && links.is_attached(key) {
        keep_in_order(keys, links, key)?;
    }
    Ok(())
}

/// Keeps the list of the root's tree that the key is of: as its own, and as that of one of its children.
fn keep_list_of(keys: &mut Vec<Key>, links: &Links, key: Key) -> Result<(), NoMemory>
    ensures { (p : ℕ → Bool) → keys.old.items ≡ filter p (lookups.preorder links.now) → OnOk result (keys.new.items ≡ filter (λ q. p q || (blocks.is_at kinds.is_list links.now q && touched.is_of_list links.now q key)) (lookups.preorder links.now)) }
{
    keep_list(keys, links, key)?;
    match links.parent(key) {
        Some(parent) => keep_list(keys, links, parent),
        None => Ok(()),
    }
}

/// Keeps the lists that leaves are of.
fn keep_of_leaves(keys: &mut Vec<Key>, links: &Links, leaves: &[Key]) -> Result<(), NoMemory>
    ensures { (p : ℕ → Bool) → keys.old.items ≡ filter p (lookups.preorder links.now) → OnOk result (keys.new.items ≡ filter (λ q. p q || (blocks.is_at kinds.is_list links.now q && list_any (touched.is_of_list links.now q) leaves.now)) (lookups.preorder links.now)) }
{
    for leaf in leaves {
        keep_list_of(keys, links, *leaf)?;
    }
    Ok(())
}

/// Keeps the list that an element is of, if it is marked itself.
fn keep_of_element(keys: &mut Vec<Key>, links: &Links, key: Key, flag: bool) -> Result<(), NoMemory>
    ensures { (p : ℕ → Bool) → keys.old.items ≡ filter p (lookups.preorder links.now) → OnOk result (keys.new.items ≡ filter (λ q. p q || (blocks.is_at kinds.is_list links.now q && (flag && touched.is_of_list links.now q key))) (lookups.preorder links.now)) }
{
    if flag {
        return keep_list_of(keys, links, key);
    }
    Ok(())
}

/// Keeps the lists that elements are of which are marked themselves.
fn keep_of_elements(
    keys: &mut Vec<Key>,
    links: &Links,
    elements: &[(Key, bool)],
) -> Result<(), NoMemory>
    ensures { (p : ℕ → Bool) → keys.old.items ≡ filter p (lookups.preorder links.now) → OnOk result (keys.new.items ≡ filter (λ q. p q || (blocks.is_at kinds.is_list links.now q && list_any (λ e. e.1 && touched.is_of_list links.now q e.0) elements.now)) (lookups.preorder links.now)) }
{
    for (key, flag) in elements {
        keep_of_element(keys, links, *key, *flag)?;
    }
    Ok(())
}

/// The lists of the root's tree that are marked themselves, or of which a child is, in preorder. It takes as long as there
/// are marks and such lists, and to find the order of two of them.
pub(crate) fn touched_lists(alloc: Global, draft: &Draft) -> Result<Vec<Key>, NoMemory>
    ensures { IfOk result (λ lists. lists.items ≡ touched.touched_lists draft.now.forest draft.now.marks) }
{
    let links = draft.links();
    let marks = draft.marks();
    let mut lists = Vec::new(alloc);
    keep_of_leaves(&mut lists, links, marks.leaves())?;
    keep_of_elements(&mut lists, links, marks.elements())?;
    Ok(lists)
}
