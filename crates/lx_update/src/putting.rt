//! Where a step puts a node.

ghost use Rattle.std.specs.Prelude.{◌≡◌, Ok, Some, None, OnOk, IfOk, IfErr, length};
ghost use Rattle.lx_trees.specs.Siblings.{names_without};
ghost use Rattle.lx_forest.specs.Lookups as lookups;
ghost use Rattle.lx_draft.specs.Faults.{TellsStep};
ghost use Rattle.lx_edit.specs.Standing.{Does};
ghost use Rattle.lx_update.specs.Scripts as scripts;
ghost use Rattle.lx_update.specs.Scripts.{script_put_step};

use lx_draft::Draft;
use lx_links::{Links, misfit};
use lx_node::{Cause, Fault, Key};

/// Puts a node among another's children, at an index that is counted without the node itself, or at their end.
/// What is below something is taken out before. It is refused where the node is the root, or the place is
/// in its tree, where the place may not hold it, and where the index is above the number of children; and as
/// the draft's own edits are, where 100,000 counts were taken.
#[tactic(auto, unfolding(crate::specs::Scripts::script_put_step))]
pub(crate) fn put_node(
    draft: &mut Draft,
    key: Key,
    parent: Key,
    index: Option<u64>,
) -> Result<(), Fault>
    ensures ok { OnOk result (script_put_step key parent index draft.old ≡ Ok draft.new) }
    ensures err { IfErr result (λ e. TellsStep e (script_put_step key parent index draft.old)) }
{
    let index = match admitted_index(draft.links(), key, parent, index) {
        Ok(index) => index,
        Err(cause) => return Err(Fault::Cause(cause)),
    };
    loosen(draft, key)?;
    let size = draft.links().size(parent);
    draft.put(key, parent, index.unwrap_or(size))
}

/// Takes a node out, where it is below something.
fn loosen(draft: &mut Draft, key: Key) -> Result<(), Fault>
    ensures { Does (scripts.loosened (lookups.parent_of draft.old.forest key) key draft.old) draft.new result }
{
    match draft.links().parent(key) {
        Some(_) => draft.take(key),
        None => Ok(()),
    }
}

/// The index, where nothing refuses that the node goes there.
fn admitted_index(
    links: &Links,
    key: Key,
    parent: Key,
    index: Option<u64>,
) -> Result<Option<u32>, Cause>
    ensures same { IfOk result (λ small. small ≡ index) }
    ensures allowed { OnOk result (scripts.move_fault key parent index links.now ≡ None) }
    ensures err { IfErr result (λ cause. scripts.move_fault key parent index links.now ≡ Some cause) }
{
    if let Some(cause) = inside_itself(links, key, parent) {
        return Err(cause);
    }
    if let Some(cause) = misfit(links.kind(parent), links.kind(key)) {
        return Err(cause);
    }
    narrowed(index, places(links, key, parent))
}

/// The node is the root, or the place is in its tree.
fn inside_itself(links: &Links, key: Key, parent: Key) -> Option<Cause>
    ensures { result ≡ scripts.inside_itself links.now key parent }
{
    if key == Key::root() || links.is_within(key, parent) {
        Some(Cause::BadPlace(key.number() as u64))
    } else {
        None
    }
}

/// How many children the parent has beside the node.
#[tactic(auto, using(crate::proofs::Beside::beside_child, crate::proofs::Beside::beside_other))]
fn places(links: &Links, key: Key, parent: Key) -> u32
    ensures { result ≡ length (names_without key (lookups.children_of links.now parent)) }
{
    let size = links.size(parent);
    match links.parent(key) {
        Some(above) => { if above == parent { size - 1 } else { size } }
        None => size,
    }
}

/// The index, where it isn't above the number of children.
fn narrowed(index: Option<u64>, size: u32) -> Result<Option<u32>, Cause>
    ensures same { IfOk result (λ small. small ≡ index) }
    ensures allowed { OnOk result (scripts.too_far index size ≡ None) }
    ensures err { IfErr result (λ cause. scripts.too_far index size ≡ Some cause) }
{
    match index {
        Some(index) => {
            if index > size as u64 {
                Err(Cause::BadPlace(index))
            } else {
                Ok(Some(index as u32))
            }
        }
        None => Ok(None),
    }
}
