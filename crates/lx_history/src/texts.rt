//! What a tree has of a text or tab, and whether it is as before.

ghost use Rattle.std.specs.Prelude.{◌≡◌, ◌==◌, Some};
ghost use Rattle.std.specs.Option.{option_copied, option_eq};
ghost use Rattle.lx_forest.specs.Lookups.{fields_of};
ghost use Rattle.lx_history.specs.Changes as changes;

use lx_links::Links;
use lx_marks::Marks;
use lx_node::{Fields, Key, TextFields};
use lx_text::length_of;

fn fields_at(links: &Links, key: Key) -> Option<&Fields>
    ensures { option_copied result ≡ fields_of links.now key }
{
    match links.node(key) {
        Some(node) => Some(&node.fields),
        None => None,
    }
}

/// What a text or tab has.
pub(crate) fn text_at(links: &Links, key: Key) -> Option<&TextFields>
    ensures { option_copied result ≡ changes.text_fields_at links.now key }
{
    match fields_at(links, key) {
        Some(Fields::Text(text)) => Some(text),
        _ => None,
    }
}

/// The length of a text or tab, or 0.
pub(crate) fn length_at(links: &Links, key: Key) -> u64
    ensures { result ≡ changes.characters_in_text (changes.text_fields_at links.now key) }
{
    match text_at(links, key) {
        Some(text) => length_of(&text.text) as u64,
        None => 0,
    }
}

/// Whether both are those of a text or tab, and equal.
#[tactic(auto, unfolding(lx_node::specs::Same::same_fields))]
fn is_same_text(old: &Fields, new: &Fields) -> bool
    ensures { result ≡ changes.is_same_text (changes.fields_of_text (Some old.now)) (changes.fields_of_text (Some new.now)) }
{
    match (old, new) {
        (Fields::Text(_), Fields::Text(_)) => old.is_equal(new),
        _ => false,
    }
}

/// Whether the key is that of a text or tab in both trees, with equal fields.
fn has_same_text(old: &Links, new: &Links, key: Key) -> bool
    ensures { result ≡ changes.is_same_text (changes.text_fields_at old.now key) (changes.text_fields_at new.now key) }
{
    match (fields_at(old, key), fields_at(new, key)) {
        (Some(old), Some(new)) => is_same_text(old, new),
        _ => false,
    }
}

fn is_same_key(a: Option<Key>, b: Option<Key>) -> bool
    ensures { result ≡ option_eq (λ p q. p == q) a b }
{
    a == b
}

/// Whether exactly one leaf is marked, a text or tab of both trees that is as before and in the same place.
pub(crate) fn is_touched_alone(marks: &Marks, old: &Links, new: &Links) -> bool
    ensures { result ≡ changes.is_touched_alone marks.now.leaves old.now new.now }
{
    match marks.leaves() {
        [key] => {
            has_same_text(old, new, *key) && is_same_key(old.parent(*key), new.parent(*key))
        }
        _ => false,
    }
}
