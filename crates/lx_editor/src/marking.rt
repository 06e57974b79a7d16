//! The marks with which a rule is registered.

ghost use Rattle.std.specs.Prelude.{◌≡◌, Ok, OnOk, IfOk, IfErr};
ghost use Rattle.lx_forest.specs.Lookups.{kind_of};
ghost use Rattle.lx_draft.specs.Covering.{IsReady, AreCovered};
ghost use Rattle.lx_draft.specs.Faults.{TellsStep};
ghost use Rattle.lx_draft.specs.Steps.{mark_uncounted_step};
ghost use Rattle.lx_edit.specs.InTurn.{in_turn};
ghost use Rattle.lx_rules.specs.Types.{is_of_row};
ghost use Rattle.lx_editor.specs.Registered.{of_type, marked_for};

use lx_draft::Draft;
use lx_links::Links;
use lx_node::{Fault, Key, NoMemory};
use lx_step::TypeRow;
use std::alloc::Global;

/// Marks the nodes of a type in the root's tree, in preorder. It takes no count.
pub(crate) fn mark_type(alloc: Global, draft: &mut Draft, on: TypeRow) -> Result<(), Fault>
    ensures ok { OnOk result (marked_for on draft.old ≡ Ok draft.new) }
    ensures covered { OnOk result (IsReady draft.old → AreCovered draft.old draft.new) }
    ensures err { IfErr result (λ e. TellsStep e (marked_for on draft.old)) }
{
    let keys = keys_of_type(alloc, draft.links(), on)?;
    mark_all(draft, keys.as_slice())
}

/// Marks nodes in turn, and takes no count.
#[tactic(auto, unfolding(lx_edit::specs::InTurn::in_turn))]
fn mark_all(draft: &mut Draft, keys: &[Key]) -> Result<(), Fault>
    ensures ok { OnOk result (in_turn mark_uncounted_step keys.now draft.old ≡ Ok draft.new) }
    ensures err { IfErr result (λ e. TellsStep e (in_turn mark_uncounted_step keys.now draft.old)) }
{
    for key in keys {
        draft.mark_uncounted(*key)?;
    }
    Ok(())
}

/// The keys of the nodes of a type in the root's tree, in preorder. It walks the tree once.
fn keys_of_type(alloc: Global, links: &Links, on: TypeRow) -> Result<Vec<Key>, NoMemory>
    ensures { IfOk result (λ keys. keys.items ≡ of_type on links.now) }
{
    let mut keys = Vec::new(alloc);
    if links.has_failed() {
        return Ok(keys);
    }
    let mut at = Some((Key::root(), 0));
    while let Some((key, depth)) = at {
        if is_of_type(links, key, on) {
            keys.push(key)?;
        }
        at = links.next_in_tree(key, depth);
    }
    Ok(keys)
}

fn is_of_type(links: &Links, key: Key, on: TypeRow) -> bool
    ensures { result ≡ is_of_row on.0 (kind_of links.now key) }
{
    match links.kind(key) {
        Some(kind) => on == TypeRow::of(kind),
        None => false,
    }
}
