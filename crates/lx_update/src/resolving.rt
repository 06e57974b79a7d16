//! The nodes that references of steps mean.

ghost use Rattle.std.specs.Prelude.{◌≡◌, Ok, Some, IfOk, IfErr};
ghost use Rattle.lx_node.specs.declared.cause.Cause.TheVariants.{UnknownNode};
ghost use Rattle.lx_draft.specs.Faults.{TellsStep, TellsFault};
ghost use Rattle.lx_update.specs.Scripts as scripts;
ghost use Rattle.lx_update.specs.Scripts.{scripted, resolved};

use crate::names::Names;
use lx_blocks::block;
use lx_draft::Draft;
use lx_node::{Cause, Fault, Key, Named, NoMemory, Txt};
use lx_select::Selection;
use lx_step::Reference;
use std::alloc::Global;

/// The node that a reference means. It is refused as an unknown node, with what the reference says, where
/// there is none.
#[tactic(auto, unfolding(crate::specs::Scripts::resolved))]
pub(crate) fn resolve(
    alloc: Global,
    draft: &Draft,
    names: &Names,
    reference: &Reference,
) -> Result<Key, Fault>
    ensures ok { IfOk result (λ key. resolved reference.now (scripted draft.now names.now) ≡ Ok key) }
    ensures err { IfErr result (λ e. TellsStep e (resolved reference.now (scripted draft.now names.now))) }
{
    match key_for(draft, names, reference) {
        Some(key) => {
            if draft.links().has(key) {
                Ok(key)
            } else {
                Err(unknown(alloc, reference))
            }
        }
        None => Err(unknown(alloc, reference)),
    }
}

/// The key of the node that a reference means, if it means one.
fn key_for(draft: &Draft, names: &Names, reference: &Reference) -> Option<Key>
    ensures { result ≡ scripts.key_for reference.now (scripted draft.now names.now) }
{
    match reference {
        Reference::Key(key) => Some(*key),
        Reference::Anchor => anchor_of(draft.selection()),
        Reference::Focus => focus_of(draft.selection()),
        Reference::Block => match anchor_of(draft.selection()) {
            Some(key) => block(draft.links(), key),
            None => None,
        },
        Reference::Name(name) => names.find(name),
    }
}

/// The anchor of a range.
pub(crate) fn anchor_of(selection: &Selection) -> Option<Key>
    ensures { result ≡ scripts.anchor_of selection.now }
{
    match selection {
        Selection::Range { anchor, .. } => Some(anchor.key),
        _ => None,
    }
}

fn focus_of(selection: &Selection) -> Option<Key>
    ensures { result ≡ scripts.focus_node selection.now }
{
    match selection {
        Selection::Range { focus, .. } => Some(focus.key),
        _ => None,
    }
}

/// There is no such node as the reference means.
fn unknown(alloc: Global, reference: &Reference) -> Fault
    ensures { TellsFault result (Some (UnknownNode (scripts.said_of reference.now))) }
{
    match said_of(alloc, reference) {
        Ok(said) => Fault::Cause(Cause::UnknownNode(said)),
        Err(NoMemory) => Fault::Memory,
    }
}

/// What the reference says.
fn said_of(alloc: Global, reference: &Reference) -> Result<Named, NoMemory>
    ensures { IfOk result (λ said. said ≡ scripts.said_of reference.now) }
{
    match reference {
        Reference::Key(key) => Ok(Named::Key(*key)),
        Reference::Anchor => Ok(Named::Name(Txt::new(alloc, "@anchor")?)),
        Reference::Focus => Ok(Named::Name(Txt::new(alloc, "@focus")?)),
        Reference::Block => Ok(Named::Name(Txt::new(alloc, "@block")?)),
        Reference::Name(name) => Ok(Named::Name(name.copy(alloc)?)),
    }
}
