ghost use Rattle.std.specs.Prelude.{ℕ, ◌≡◌, true, [], ◌∷◌, OnOk, IfOk};
ghost use Rattle.lx_forest.specs.Lookups.{roots, IsForest};
ghost use Rattle.lx_marks.specs.Marks.{is_touched, is_noted};
ghost use Rattle.lx_forest.specs.Covered.{AreCovered};
ghost use Rattle.lx_compare.specs.Differing.{KeepsKinds, IsAffected, AreKnown};
ghost use Rattle.lx_compare.specs.Marking.{AreFounded, Grows, IsSettled};
ghost use Rattle.lx_compare.specs.Places.{IsOutside, IsAsBefore};
ghost use Rattle.lx_trees.specs.Siblings.{is_among};

use crate::marking::mark_difference;
use crate::places::Places;
use crate::same::is_as_before;
use lx_links::Links;
use lx_marks::Marks;
use lx_node::{Key, NoMemory};
use std::alloc::Global;

/// Marks of what differs between two trees: each node that one of the two alone has, or whose fields, parent
/// or neighbours are others, and its parent in either. They cover the two trees, unless a key has another
/// kind in the new one. It costs a look at each page of nodes of the two, and beside that what differs, with the
/// ways up from there. The marks take memory from the allocator.
pub fn differences(alloc: Global, old: &Links, new: &Links) -> Result<Marks, NoMemory>
    requires old_order { IsForest old.now }
    requires new_order { IsForest new.now }
    requires old_alone { roots old.now ≡ 0 ∷ [] }
    requires new_alone { roots new.now ≡ 0 ∷ [] }
    ensures covered { IfOk result (λ marks. KeepsKinds old.now new.now → AreCovered old.now new.now (record { touched = is_touched marks; noted = is_noted marks })) }
    ensures known { IfOk result (λ marks. AreKnown old.now new.now marks) }
    ensures due { IfOk result (λ marks. (key : ℕ) → is_touched marks key ≡ true → IsAffected old.now new.now key) }
{
    let mut marks = Marks::new(alloc)?;
    mark_differences(&mut marks, old, new)?;
    Ok(marks)
}

/// The same, where it is told at which keys the two trees may differ: at the first of these, and at those that came since. It
/// costs a look at each of them, or at each page of nodes where nothing is told.
pub fn differences_at(
    alloc: Global,
    old: &Links,
    new: &Links,
    places: &Places,
    since: &Places,
) -> Result<Marks, NoMemory>
    requires old_order { IsForest old.now }
    requires new_order { IsForest new.now }
    requires old_alone { roots old.now ≡ 0 ∷ [] }
    requires new_alone { roots new.now ≡ 0 ∷ [] }
    requires told { (q : ℕ) → IsOutside places.now q → IsOutside since.now q → IsAsBefore old.now new.now q }
    ensures covered { IfOk result (λ marks. KeepsKinds old.now new.now → AreCovered old.now new.now (record { touched = is_touched marks; noted = is_noted marks })) }
    ensures known { IfOk result (λ marks. AreKnown old.now new.now marks) }
    ensures due { IfOk result (λ marks. (key : ℕ) → is_touched marks key ≡ true → IsAffected old.now new.now key) }
{
    match (places.keys(), since.keys()) {
        (Some(first), Some(later)) => {
            let mut marks = Marks::new(alloc)?;
            mark_among(&mut marks, old, new, first)?;
            mark_among(&mut marks, old, new, later)?;
            Ok(marks)
        }
        _ => differences(alloc, old, new),
    }
}

/// Marks what differs at some keys.
fn mark_among(marks: &mut Marks, old: &Links, new: &Links, keys: &[Key]) -> Result<(), NoMemory>
    requires founded { AreFounded old.now new.now marks.old }
    ensures founded { OnOk result (AreFounded old.now new.now marks.new) }
    ensures grows { OnOk result (Grows marks.old marks.new) }
    ensures settled { OnOk result ((q : ℕ) → is_among q keys.now ≡ true → IsSettled old.now new.now marks.new q) }
{
    for key in keys {
        settle(marks, old, new, *key)?;
    }
    Ok(())
}

/// Marks what differs, key by key.
fn mark_differences(marks: &mut Marks, old: &Links, new: &Links) -> Result<(), NoMemory>
    requires old_alone { roots old.now ≡ 0 ∷ [] }
    requires new_alone { roots new.now ≡ 0 ∷ [] }
    requires founded { AreFounded old.now new.now marks.old }
    ensures founded { OnOk result (AreFounded old.now new.now marks.new) }
    ensures settled { OnOk result ((q : ℕ) → IsSettled old.now new.now marks.new q) }
{
    let mut last = None;
    while let Some(key) = old.next_difference(new, last) {
        settle(marks, old, new, key)?;
        last = Some(key);
    }
    Ok(())
}

/// Marks the node at a key, if it differs. Where two nodes have other children alone, these differ and not the two.
#[tactic(auto, using(crate::proofs::Settled::differs_by))]
fn settle(marks: &mut Marks, old: &Links, new: &Links, key: Key) -> Result<(), NoMemory>
    requires founded { AreFounded old.now new.now marks.old }
    ensures founded { OnOk result (AreFounded old.now new.now marks.new) }
    ensures grows { OnOk result (Grows marks.old marks.new) }
    ensures settled { OnOk result (IsSettled old.now new.now marks.new key) }
{
    if is_as_before(old, new, key) {
        return Ok(());
    }
    mark_difference(marks, old, new, key)
}
