ghost use Rattle.std.specs.Prelude.{◌≡◌};
ghost use Rattle.lx_edit.specs.InTurn.{in_turn};
ghost use Rattle.lx_edit.specs.Edits as edits;
ghost use Rattle.lx_edit.specs.Edits.{unwrap_step};
ghost use Rattle.lx_edit.specs.Brought.{BringsUp};
ghost use Rattle.lx_edit.specs.Standing.{Does};

use crate::conditions::{admitted, unwrap_fault};
use crate::places::children_of;
use crate::removing::remove;
use lx_draft::Draft;
use lx_node::{Fault, Key, Point};
use std::alloc::Global;

/// Puts the children of an element, in order, in its place, and removes it. Points on it go along: what
/// came before its child `i` comes before that child in the parent. It is refused where there is no such
/// node, where it isn't an element, where it is below nothing, where the parent may not hold one of the
/// children, and where 100,000 counts were taken.
#[tactic(auto, unfolding(crate::specs::Edits::unwrap_step))]
pub fn unwrap(alloc: Global, draft: &mut Draft, key: Key) -> Result<(), Fault>
    ensures { Does (unwrap_step key draft.old) draft.new result }
{
    let fault = unwrap_fault(draft.links(), key);
    admitted(draft, fault)?;
    unfold_children(alloc, draft, key)
}

/// The children with the points that were on their parent, where nothing refuses them.
fn unfold_children(alloc: Global, draft: &mut Draft, key: Key) -> Result<(), Fault>
    ensures { Does (edits.unwrapped key draft.old) draft.new result }
{
    let children = children_of(alloc, draft.links(), key)?;
    let parent = draft.links().parent(key);
    let index = index_for_points(draft, key);
    let before = draft.selection().ends();
    move_each_before(draft, key, &children)?;
    bring_up(draft, key, parent, index, before);
    remove(draft, key)
}

/// The index of a node in its parent. It is looked for only where points are on the node, which need it.
#[tactic(auto, using(crate::proofs::Brought::brought_same, crate::proofs::Brought::brought_apart))]
fn index_for_points(draft: &Draft, key: Key) -> Option<u32>
    ensures { BringsUp key draft.now result }
{
    if draft.selection().has_point_on(key) {
        draft.links().index_of(key)
    } else {
        None
    }
}

/// Brings the points that were on a node to where it was in its parent, if it was in one.
fn bring_up(
    draft: &mut Draft,
    key: Key,
    parent: Option<Key>,
    index: Option<u32>,
    before: Option<(Point, Point)>,
)
    ensures { draft.new ≡ edits.brought_up key parent index before draft.old }
{
    if let (Some(parent), Some(index)) = (parent, index) {
        draft.carry_points(before, key, parent, index);
    }
}

/// Moves nodes, in order, before another.
#[tactic(auto, unfolding(crate::specs::InTurn::in_turn))]
fn move_each_before(draft: &mut Draft, other: Key, keys: &[Key]) -> Result<(), Fault>
    ensures { Does (in_turn (edits.moved_before other) keys.now draft.old) draft.new result }
{
    for key in keys {
        move_before(draft, other, *key)?;
    }
    Ok(())
}

/// Takes a node out, and puts it before another.
#[tactic(auto, unfolding(crate::specs::Edits::moved_before))]
pub fn move_before(draft: &mut Draft, other: Key, key: Key) -> Result<(), Fault>
    ensures { Does (edits.moved_before other key draft.old) draft.new result }
{
    draft.take(key)?;
    draft.put_before(key, other)
}

/// Takes a node out, and puts it right after another.
#[tactic(auto, unfolding(crate::specs::Edits::moved_behind))]
pub fn move_behind(draft: &mut Draft, other: Key, key: Key) -> Result<(), Fault>
    ensures { Does (edits.moved_behind other key draft.old) draft.new result }
{
    draft.take(key)?;
    draft.put_behind(key, other)
}
