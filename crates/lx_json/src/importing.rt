ghost use Rattle.std.specs.Prelude.{◌≡◌, ◌<◌, ◌≤◌, Ok, IfOk, IfErr};
ghost use Rattle.serde_json.specs.View.{view};
ghost use Rattle.lx_node.specs.Limits.{most_key};
ghost use Rattle.lx_draft.specs.Faults.{TellsStep};
ghost use Rattle.lx_draft.specs.Working.{MayStart};
ghost use Rattle.lx_json.specs.Importing as importing;
ghost use Rattle.lx_json.specs.Importing.{imported, IsImported};

use crate::growing::Growth;
use crate::marking::mark_tree;
use crate::reading::read_document;
use lx_draft::{Draft, State, limits_fault};
use lx_node::{Fault, NoMemory};
use lx_select::Selection;
use serde_json::Value;
use std::alloc::Global;

/// The draft of the tree that a document describes: nothing is selected, its new nodes have keys from `next_key` on,
/// each before those below it, and every node is marked. Nothing is counted, and nothing counts as written. The
/// document is refused at the first thing in it that isn't as it has to be: as `BadState` with the place as a JSON
/// pointer, as `UnknownType` with the type, or as `EmptyState` where the root has no children; and after all these as
/// `TooLarge` where the tree is deeper than 48, has more than 16,384 nodes or more than 1,048,576 scalar values in its
/// strings, or its next key is above 1,048,576.
#[tactic(auto, unfolding(crate::specs::Importing::imported))]
pub fn import(alloc: Global, document: &Value, next_key: u32) -> Result<Draft, Fault>
    requires first { 0 < next_key }
    requires most { next_key ≤ most_key }
    ensures ok { IfOk result (λ draft. imported (view document.now) next_key ≡ Ok draft) }
    ensures err { IfErr result (λ e. TellsStep e (imported (view document.now) next_key)) }
    ensures made { IfOk result (IsImported next_key) }
{
    let growth = match read_document(alloc, document, next_key) {
        Ok(growth) => growth,
        Err(fault) => return Err(fault),
    };
    if let Some(cause) = limits_fault(&growth.links, growth.next) {
        return Err(Fault::Cause(cause));
    }
    match drafted(alloc, growth) {
        Ok(draft) => Ok(draft),
        Err(_) => Err(Fault::Memory),
    }
}

/// The draft of links that are within the limits of a document: nothing is selected, and every node is marked.
fn drafted(alloc: Global, growth: Growth) -> Result<Draft, NoMemory>
    requires { MayStart growth.links growth.next }
    ensures { IfOk result (λ draft. draft ≡ importing.drafted growth.links growth.next) }
{
    let state = State {
        links: growth.links,
        selection: Selection::Nothing,
    };
    let mut draft = Draft::start(alloc, &state, growth.next)?;
    mark_tree(&mut draft)?;
    Ok(draft)
}
