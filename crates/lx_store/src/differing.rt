//! Where two stores differ, found page by page.

ghost use Rattle.std.specs.Prelude.{◌≡◌, ◌≢◌, ◌↔◌, ◌<◌, ◌≤◌, ◌+◌, ◌*◌, ℕ, IsTrue};
ghost use Rattle.std.specs.Option.{option_copied};
ghost use Rattle.std.specs.FinMap as map;
ghost use Rattle.lx_store.specs.Differing.{item_in, first_after, AreSame, AreSameTo};

use crate::chapter::{self, Chapter};
use crate::item::Item;
use crate::page::{self, Page};
use crate::slots::Slots;
use crate::table::Table;
use lx_node::Key;

/// The first key after one, or the first of all, under which two tables have other items.
pub(crate) fn next_difference<V: Item>(
    a: &Table<V>,
    b: &Table<V>,
    after: Option<Key>,
) -> Option<Key>
    ensures { AreSameTo (map.get a.now) (map.get b.now) (first_after after) result }
{
    let end = a.end().max(b.end());
    let from = number_after(after);
    let mut number = (from / chapter::SLOTS as u64) as u32;
    let mut slot = (from % chapter::SLOTS as u64) as u32;
    while number < end {
        let at = same_in_chapters(a.chapter(number), b.chapter(number), slot);
        if at < chapter::SLOTS {
            return Some(Key(number * chapter::SLOTS + at));
        }
        number += 1;
        slot = 0;
    }
    None
}

// The number of the first key after one, or of the first of all.
fn number_after(after: Option<Key>) -> u64
    ensures after { result ≡ first_after after }
    ensures small { result ≤ 4294967296 }
{
    match after {
        Some(key) => key.number() as u64 + 1,
        None => 0,
    }
}

// Up to which slot, from one on, two chapters have equal items.
fn same_in_chapters<V: Item>(a: Option<&Chapter<V>>, b: Option<&Chapter<V>>, from: u32) -> u32
    requires { from ≤ 1024 }
    ensures range { (from ≤ result) × (result ≤ 1024) }
    ensures same { AreSame (item_in (option_copied a.entry)) (item_in (option_copied b.entry)) from result }
    ensures differ { result < 1024 → item_in (option_copied a.entry) result ≢ item_in (option_copied b.entry) result }
{
    if a.is_none() && b.is_none() {
        return chapter::SLOTS;
    }
    let mut at = from;
    while at < chapter::SLOTS {
        let place = at / page::SLOTS;
        let slot = same_in_pages(page_in(a, place), page_in(b, place), at % page::SLOTS);
        at = place * page::SLOTS + slot;
        if slot < page::SLOTS {
            return at;
        }
    }
    chapter::SLOTS
}

// The page at a place, where there is a chapter and it has one.
fn page_in<V: Item>(chapter: Option<&Chapter<V>>, place: u32) -> Option<&Page<V>>
    requires { place < 32 }
    ensures { (slot : ℕ) → slot < 32 → item_in (option_copied result) slot ≡ item_in (option_copied chapter.entry) (place * 32 + slot) }
{
    match chapter {
        Some(chapter) => chapter.page(place),
        None => None,
    }
}

// Up to which slot, from one on, two pages have equal items.
fn same_in_pages<V: Item>(a: Option<&Page<V>>, b: Option<&Page<V>>, from: u32) -> u32
    requires { from ≤ 32 }
    ensures range { (from ≤ result) × (result ≤ 32) }
    ensures same { AreSame (item_in (option_copied a.entry)) (item_in (option_copied b.entry)) from result }
    ensures differ { result < 32 → item_in (option_copied a.entry) result ≢ item_in (option_copied b.entry) result }
{
    if a.is_none() && b.is_none() {
        return page::SLOTS;
    }
    let mut slot = from;
    while slot < page::SLOTS && is_same(item_at(a, slot), item_at(b, slot)) {
        slot += 1;
    }
    slot
}

// The item in a slot, where there is a page and it has one.
fn item_at<V: Item>(page: Option<&Page<V>>, slot: u32) -> Option<&V>
    requires { slot < 32 }
    ensures { option_copied result ≡ item_in (option_copied page.entry) slot }
{
    match page {
        Some(page) => page.get(slot),
        None => None,
    }
}

// Whether there is no item in either place, or equal ones are in both.
fn is_same<V: Item>(a: Option<&V>, b: Option<&V>) -> bool
    ensures { IsTrue result ↔ (option_copied a.entry ≡ option_copied b.entry) }
{
    match (a, b) {
        (Some(a), Some(b)) => a.is_equal(b),
        (None, None) => true,
        _ => false,
    }
}
