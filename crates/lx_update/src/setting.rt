//! What a step writes into a node's fields.

ghost use Rattle.std.specs.Prelude.{◌≡◌, Ok, OnOk, IfOk, IfErr};
ghost use Rattle.lx_forest.specs.Lookups as lookups;
ghost use Rattle.lx_draft.specs.Faults.{TellsStep};
ghost use Rattle.lx_update.specs.Scripts as scripts;
ghost use Rattle.lx_update.specs.Scripts.{script_set_step};

use lx_draft::Draft;
use lx_node::{Fault, Fields, Key};
use lx_step::Patch;
use std::alloc::Global;

/// Writes a patch into a node's fields. It is refused, with the node's kind, where a member can't be set on
/// it, and as the draft's own sets are.
#[tactic(auto, unfolding(crate::specs::Scripts::script_set_step))]
pub(crate) fn set_node(
    alloc: Global,
    draft: &mut Draft,
    key: Key,
    patch: &Patch,
) -> Result<(), Fault>
    ensures ok { OnOk result (script_set_step patch.now.members key draft.old ≡ Ok draft.new) }
    ensures err { IfErr result (λ e. TellsStep e (script_set_step patch.now.members key draft.old)) }
{
    match patched(alloc, draft, key, patch) {
        Ok(fields) => draft.set(key, fields),
        Err(fault) => Err(fault),
    }
}

/// A node's fields with the patch written into them.
fn patched(alloc: Global, draft: &Draft, key: Key, patch: &Patch) -> Result<Fields, Fault>
    ensures ok { IfOk result (λ made. scripts.repatched patch.now.members (lookups.label_of draft.now.forest key) ≡ Ok made) }
    ensures err { IfErr result (λ e. TellsStep e (scripts.repatched patch.now.members (lookups.label_of draft.now.forest key))) }
{
    match draft.links().node(key) {
        Some(node) => patch.onto(alloc, node.kind, &node.fields),
        None => Ok(Fields::Bare),
    }
}
