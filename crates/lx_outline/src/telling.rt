//! The events of a commit, from the marks that cover its two trees.

ghost use Rattle.std.specs.Prelude.{◌≡◌, ℕ, true, false, [], ◌∷◌, IfOk, OnOk};
ghost use Rattle.lx_trees.specs.Siblings.{is_among};
ghost use Rattle.lx_forest.specs.Lookups.{has, roots, IsForest};
ghost use Rattle.lx_marks.specs.Marks.{is_touched};
ghost use Rattle.lx_outline.specs.Covers.{IsCovered};
ghost use Rattle.lx_outline.specs.Events.{IsCreated, IsUpdated, AreEvents};
ghost use Rattle.lx_outline.specs.Parts.{IsPart, AreGone, HasLost, Grows};

use crate::differing::{is_changed, is_created, is_touched};
use crate::event::Event;
use crate::keys::{Change, Keys};
use lx_draft::State;
use lx_links::Links;
use lx_marks::Marks;
use lx_node::{Key, NoMemory};
use std::alloc::Global;

/// The marked keys that the second tree alone has.
fn created_among(
    alloc: Global,
    before: &Links,
    after: &Links,
    marked: &[Key],
) -> Result<Keys, NoMemory>
    ensures { IfOk result (λ keys. IsPart (IsCreated before.now after.now) marked.now keys) }
{
    let mut keys = Keys::new(alloc);
    for key in marked {
        keys.insert_if(is_created(before, after, *key), *key)?;
    }
    Ok(keys)
}

/// The marked keys whose nodes are others in the second tree.
fn updated_among(
    alloc: Global,
    before: &Links,
    after: &Links,
    marks: &Marks,
    marked: &[Key],
) -> Result<Keys, NoMemory>
    requires covered { IsCovered before.now after.now marks.now }
    ensures { IfOk result (λ keys. IsPart (IsUpdated before.now after.now) marked.now keys) }
{
    let mut keys = Keys::new(alloc);
    for key in marked {
        keys.insert_if(is_changed(before, after, marks, *key), *key)?;
    }
    Ok(keys)
}

/// Adds the keys of a tree, where it is gone, but for what went elsewhere: what is below a node comes before it.
#[cycle(add_gone)]
fn add_gone(before: &Links, after: &Links, key: Key, keys: &mut Keys) -> Result<(), NoMemory>
    requires there { has key before.now ≡ true }
    requires gone { AreGone before.now after.now keys.old }
    ensures gone { OnOk result (AreGone before.now after.now keys.new) }
    ensures grows { OnOk result (Grows keys.old keys.new) }
    ensures told { OnOk result (has key after.now ≡ false → is_among key keys.new ≡ true) }
{
    if after.has(key) {
        return Ok(());
    }
    add_lost(before, after, key, keys)?;
    keys.insert(key)
}

/// Adds what is gone of the trees right below a node.
#[cycle(add_gone)]
fn add_lost(before: &Links, after: &Links, key: Key, keys: &mut Keys) -> Result<(), NoMemory>
    requires gone { AreGone before.now after.now keys.old }
    ensures gone { OnOk result (AreGone before.now after.now keys.new) }
    ensures grows { OnOk result (Grows keys.old keys.new) }
    ensures told { OnOk result (HasLost before.now after.now key keys.new) }
{
    for child in before.children(key) {
        add_gone(before, after, child, keys)?;
    }
    Ok(())
}

/// Adds what is gone right below a node that is still there, where it is marked itself.
fn add_what_left(
    before: &Links,
    after: &Links,
    marks: &Marks,
    key: Key,
    keys: &mut Keys,
) -> Result<(), NoMemory>
    requires gone { AreGone before.now after.now keys.old }
    ensures gone { OnOk result (AreGone before.now after.now keys.new) }
    ensures grows { OnOk result (Grows keys.old keys.new) }
    ensures told { OnOk result (is_touched marks.now key ≡ true → has key after.now ≡ true → HasLost before.now after.now key keys.new) }
{
    if is_touched(marks, key) && after.has(key) {
        return add_lost(before, after, key, keys);
    }
    Ok(())
}

/// The keys of the nodes that are gone. Of a tree that is gone only its top had a parent that is still there, which is marked
/// itself, since it has other children.
fn destroyed_from(
    alloc: Global,
    before: &Links,
    after: &Links,
    marks: &Marks,
    keys: &[Key],
) -> Result<Keys, NoMemory>
    ensures gone { IfOk result (λ gone. AreGone before.now after.now gone) }
    ensures told { IfOk result (λ gone. (p : ℕ) → is_among p keys.now ≡ true → is_touched marks.now p ≡ true → has p after.now ≡ true → HasLost before.now after.now p gone) }
{
    let mut gone = Keys::new(alloc);
    for key in keys {
        add_what_left(before, after, marks, *key, &mut gone)?;
    }
    Ok(gone)
}

/// What a commit did to the nodes of a tree, whose marks cover the trees before and after: which were destroyed, which were
/// created and which were updated, each part in ascending order of keys. It costs a look at each marked node and at each that
/// is gone, and two at the children of those that are marked themselves.
///
/// The first tree stands alone, as in any state: nothing would be marked where a detached tree is gone.
pub fn events(
    alloc: Global,
    before: &State,
    after: &State,
    marks: &Marks,
) -> Result<Vec<Event>, NoMemory>
    requires before { IsForest before.now.links }
    requires after { IsForest after.now.links }
    requires one_tree { roots before.now.links ≡ 0 ∷ [] }
    requires covered { IsCovered before.now.links after.now.links marks.now }
    ensures { IfOk result (λ events. AreEvents before.now.links after.now.links events.items) }
{
    let keys = marks.keys()?;
    let marked = keys.as_slice();
    let old = &before.links;
    let new = &after.links;
    let destroyed = destroyed_from(alloc, old, new, marks, marked)?;
    let created = created_among(alloc, old, new, marked)?;
    let updated = updated_among(alloc, old, new, marks, marked)?;
    let mut events = Vec::new(alloc);
    destroyed.tell(Change::Destroyed, &mut events)?;
    created.tell(Change::Created, &mut events)?;
    updated.tell(Change::Updated, &mut events)?;
    Ok(events)
}
