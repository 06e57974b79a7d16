ghost use Rattle.std.specs.Prelude.{ℕ, ◌≡◌, ◌==◌, ◌||◌, ◌⊎◌, true, OnOk, IfSome};
ghost use Rattle.std.specs.Option.{option_or};
ghost use Rattle.lx_forest.specs.Lookups as lookups;
ghost use Rattle.lx_marks.specs.Marks.{is_touched, is_noted};
ghost use Rattle.lx_compare.specs.Differing.{Differs, IsAffected};
ghost use Rattle.lx_compare.specs.Marking.{IsRaised, IsRaisedBut, AreFounded, Grows, IsTold};

use lx_links::Links;
use lx_marks::Marks;
use lx_node::{Key, Kind, NoMemory};

/// Marks a node that differs, its parent in the old tree and its parent in the new one, each itself.
pub(crate) fn mark_difference(
    marks: &mut Marks,
    old: &Links,
    new: &Links,
    key: Key,
) -> Result<(), NoMemory>
    requires differs { Differs old.now new.now key }
    requires founded { AreFounded old.now new.now marks.old }
    ensures founded { OnOk result (AreFounded old.now new.now marks.new) }
    ensures grows { OnOk result (Grows marks.old marks.new) }
    ensures told { OnOk result (IsTold old.now new.now marks.new key) }
{
    mark_node(marks, old, new, key)?;
    mark_optional(marks, old, new, old.parent(key))?;
    mark_optional(marks, old, new, new.parent(key))
}

/// Marks a node, if one is given.
fn mark_optional(
    marks: &mut Marks,
    old: &Links,
    new: &Links,
    key: Option<Key>,
) -> Result<(), NoMemory>
    requires affected { IfSome key (λ k. IsAffected old.now new.now k) }
    requires founded { AreFounded old.now new.now marks.old }
    ensures founded { OnOk result (AreFounded old.now new.now marks.new) }
    ensures grows { OnOk result (Grows marks.old marks.new) }
    ensures touched { OnOk result (IfSome key (λ k. is_touched marks.new k ≡ true)) }
{
    match key {
        Some(key) => mark_node(marks, old, new, key),
        None => Ok(()),
    }
}

/// Marks a node itself, and what is above it in the new tree.
fn mark_node(marks: &mut Marks, old: &Links, new: &Links, key: Key) -> Result<(), NoMemory>
    requires affected { IsAffected old.now new.now key }
    requires founded { AreFounded old.now new.now marks.old }
    ensures founded { OnOk result (AreFounded old.now new.now marks.new) }
    ensures grows { OnOk result (Grows marks.old marks.new) }
    ensures touched { OnOk result (is_touched marks.new key ≡ true) }
{
    mark_itself(marks, kind_in_either(old, new, key), key)?;
    mark_above(marks, new, key)
}

/// Marks a node itself: as a leaf, or as an element.
fn mark_itself(marks: &mut Marks, kind: Option<Kind>, key: Key) -> Result<(), NoMemory>
    ensures touched { OnOk result ((q : ℕ) → is_touched marks.new q ≡ (is_touched marks.old q || q == key)) }
    ensures noted { OnOk result ((q : ℕ) → is_noted marks.new q ≡ (is_noted marks.old q || q == key)) }
{
    match kind {
        Some(kind) => {
            if kind.is_element() {
                marks.mark_element(key, true)
            } else {
                marks.mark_leaf(key)
            }
        }
        None => marks.mark_leaf(key),
    }
}

/// The kind that a key has in the new tree, or else in the old one.
fn kind_in_either(old: &Links, new: &Links, key: Key) -> Option<Kind>
    ensures { result ≡ option_or (lookups.kind_of new.now key) (lookups.kind_of old.now key) }
{
    match new.kind(key) {
        Some(kind) => Some(kind),
        None => old.kind(key),
    }
}

/// Notes what is above a node, from the nearest. It may stop at one that is there: so are those above it.
fn mark_above(marks: &mut Marks, links: &Links, key: Key) -> Result<(), NoMemory>
    requires raised { IsRaisedBut links.now key marks.old }
    ensures raised { OnOk result (IsRaised links.now marks.new) }
    ensures touched { OnOk result ((q : ℕ) → is_touched marks.new q ≡ is_touched marks.old q) }
    ensures noted { OnOk result ((q : ℕ) → is_noted marks.new q ≡ true → (is_noted marks.old q ≡ true) ⊎ (lookups.has q links.now ≡ true)) }
{
    let mut at = key;
    while let Some(parent) = links.parent(at) {
        if marks.element(parent).is_some() {
            return Ok(());
        }
        marks.mark_element(parent, false)?;
        at = parent;
    }
    Ok(())
}
