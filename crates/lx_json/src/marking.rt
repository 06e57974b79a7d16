//! The marks with which a document comes.

ghost use Rattle.std.specs.Prelude.{◌≡◌, OnOk};
ghost use Rattle.lx_forest.specs.Lookups.{preorder};
ghost use Rattle.lx_draft.specs.Marking.{marked_in};

use lx_draft::Draft;
use lx_node::{Key, NoMemory};

/// Marks every node of the root's tree, in preorder. It takes no count. Each key that the walk comes to is there, so that
/// nothing stops it but running out of memory.
pub(crate) fn mark_tree(draft: &mut Draft) -> Result<(), NoMemory>
    ensures { OnOk result (draft.new ≡ marked_in draft.old.forest (preorder draft.old.forest) draft.old) }
{
    if draft.links().has_failed() {
        return Err(NoMemory);
    }
    let mut at = Some((Key::root(), 0));
    while let Some((key, depth)) = at {
        match draft.mark_uncounted(key) {
            Ok(()) => {}
            Err(_) => return Err(NoMemory),
        }
        at = draft.links().next_in_tree(key, depth);
    }
    Ok(())
}
