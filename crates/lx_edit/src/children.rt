ghost use Rattle.lx_edit.specs.Edits as edits;
ghost use Rattle.lx_edit.specs.Edits.{children_step};
ghost use Rattle.lx_edit.specs.InTurn.{in_turn};
ghost use Rattle.lx_edit.specs.Standing.{Does};

use crate::conditions::{admitted, children_fault};
use crate::places::children_of;
use lx_draft::Draft;
use lx_node::{Fault, Key};
use std::alloc::Global;

/// Moves the children of one element, in order, to the end of another's. Points on the first go along: what
/// came before its child `i` comes before that child there. It is refused where one of the two isn't
/// there, where one isn't an element, where the second is in the first's tree, and where the second may not
/// hold one of the children; and as the draft's own edits are, where 100,000 counts were taken.
#[tactic(auto, unfolding(crate::specs::Edits::children_step))]
pub fn move_children(alloc: Global, draft: &mut Draft, from: Key, to: Key) -> Result<(), Fault>
    ensures { Does (children_step from to draft.old) draft.new result }
{
    let fault = children_fault(draft.links(), from, to);
    admitted(draft, fault)?;
    carry_children(alloc, draft, from, to)
}

/// The children with the points that were on their parent, where nothing refuses them.
fn carry_children(alloc: Global, draft: &mut Draft, from: Key, to: Key) -> Result<(), Fault>
    ensures { Does (edits.children_moved from to draft.old) draft.new result }
{
    let children = children_of(alloc, draft.links(), from)?;
    let size = draft.links().size(to);
    let before = draft.selection().ends();
    move_each(draft, to, &children)?;
    draft.carry_points(before, from, to, size);
    Ok(())
}

/// Moves nodes, one after another, to the end of an element's children. Points go as these edits move them.
#[tactic(auto, unfolding(crate::specs::InTurn::in_turn))]
pub fn move_each(draft: &mut Draft, to: Key, keys: &[Key]) -> Result<(), Fault>
    ensures { Does (in_turn (edits.moved_to_end to) keys.now draft.old) draft.new result }
{
    for key in keys {
        move_to_end(draft, to, *key)?;
    }
    Ok(())
}

/// Takes a node out, and puts it at the end of an element's children.
#[tactic(auto, unfolding(crate::specs::Edits::moved_to_end))]
pub fn move_to_end(draft: &mut Draft, parent: Key, key: Key) -> Result<(), Fault>
    ensures { Does (edits.moved_to_end parent key draft.old) draft.new result }
{
    draft.take(key)?;
    let index = draft.links().size(parent);
    draft.put(key, parent, index)
}
