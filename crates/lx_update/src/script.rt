//! What a step of a script does to a draft, by itself.

ghost use Rattle.std.specs.Prelude.{◌≡◌, Ok, OnOk, IfErr};
ghost use Rattle.lx_step.specs.Sound.{IsSound};
ghost use Rattle.lx_draft.specs.Faults.{TellsStep};
ghost use Rattle.lx_update.specs.Scripts.{scripted, effect_of};

use crate::append::append_paragraph;
use crate::names::Names;
use crate::selecting::selection_for;
use crate::stepping::{NodeEdit, PairEdit, edit_node, edit_nodes, new_at, split_at};
use lx_draft::Draft;
use lx_node::{Cause, Fault};
use lx_step::Step;
use std::alloc::Global;

/// What a step does that has begun. One that does a command, dispatches one or queues steps is refused here, since it
/// does nothing to a draft by itself.
pub(crate) fn take_effect(
    alloc: Global,
    draft: &mut Draft,
    names: &mut Names,
    step: &Step,
) -> Result<(), Fault>
    requires sound { IsSound step.now }
    ensures ok { OnOk result (effect_of step.now (scripted draft.old names.old) ≡ Ok (scripted draft.new names.new)) }
    ensures err { IfErr result (λ e. TellsStep e (effect_of step.now (scripted draft.old names.old))) }
{
    match step {
        Step::Append(text) => append_paragraph(alloc, draft, text.as_str()),
        Step::New { kind, fields, name } => new_at(alloc, draft, names, *kind, fields, name),
        Step::Put { node, into, index } => {
            edit_nodes(alloc, draft, names, node, into, PairEdit::Put(*index))
        }
        Step::Remove(node) => edit_node(alloc, draft, names, node, NodeEdit::Remove),
        Step::Replace { node, with, keep } => {
            edit_nodes(alloc, draft, names, node, with, PairEdit::Replace(*keep))
        }
        Step::Set { node, patch } => edit_node(alloc, draft, names, node, NodeEdit::Set(patch)),
        Step::Mark(node) => edit_node(alloc, draft, names, node, NodeEdit::Mark),
        Step::Split {
            node,
            offsets,
            name,
        } => split_at(alloc, draft, names, node, offsets.items(), name),
        Step::Join { node, with } => { edit_nodes(alloc, draft, names, node, with, PairEdit::Join) }
        Step::Wrap { node, outer } => {
            edit_nodes(alloc, draft, names, node, outer, PairEdit::Wrap)
        }
        Step::Unwrap(node) => edit_node(alloc, draft, names, node, NodeEdit::Unwrap),
        Step::Children { from, into } => {
            edit_nodes(alloc, draft, names, from, into, PairEdit::Children)
        }
        Step::Select(chosen) => draft.select(selection_for(alloc, draft, names, chosen)?),
        Step::Do(_) | Step::Dispatch(_) | Step::Later(_) => Err(Fault::Cause(Cause::BadCommand)),
    }
}
