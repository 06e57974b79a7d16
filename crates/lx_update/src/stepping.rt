//! The steps of a script, each by itself.

ghost use Rattle.std.specs.Prelude.{◌≡◌, Ok, Some, OnOk, IfErr};
ghost use Rattle.lx_step.specs.Sound.{MayBeNew};
ghost use Rattle.lx_draft.specs.Faults.{TellsStep};
ghost use Rattle.lx_draft.specs.Steps.{new_step};
ghost use Rattle.lx_update.specs.Naming.{names_bound};
ghost use Rattle.lx_update.specs.Scripts as scripts;
ghost use Rattle.lx_update.specs.Scripts.{scripted, at_node, at_nodes, naming};
ghost use Rattle.lx_update.specs.Stepping as stepping;

use crate::names::Names;
use crate::putting::put_node;
use crate::resolving::resolve;
use crate::setting::set_node;
use crate::splitting::split;
use lx_draft::Draft;
use lx_edit::{join_texts, move_children, remove, replace, unwrap, wrap};
use lx_node::{Fault, Fields, Key, Kind, NoMemory, Txt};
use lx_step::{Patch, Reference};
use std::alloc::Global;

/// Gives the node the name, if there is both.
fn bind(names: &mut Names, name: &Option<Txt>, key: Option<Key>) -> Result<(), NoMemory>
    ensures { OnOk result (names.new ≡ names_bound name.now key names.old) }
{
    match (name, key) {
        (Some(name), Some(key)) => names.bind(name, key),
        _ => Ok(()),
    }
}

/// Makes a node, which gets the name.
pub(crate) fn new_at(
    alloc: Global,
    draft: &mut Draft,
    names: &mut Names,
    kind: Kind,
    fields: &Fields,
    name: &Option<Txt>,
) -> Result<(), Fault>
    requires { MayBeNew kind fields.now }
    ensures ok { OnOk result (naming name.now (new_step kind fields.now) (scripted draft.old names.old) ≡ Ok (scripted draft.new names.new)) }
    ensures err { IfErr result (λ e. TellsStep e (naming name.now (new_step kind fields.now) (scripted draft.old names.old))) }
{
    let fields = fields.copy(alloc)?;
    match draft.new_node(kind, fields) {
        Ok(key) => Ok(bind(names, name, Some(key))?),
        Err(fault) => Err(fault),
    }
}

/// Splits a text, of which the first new one gets the name.
pub(crate) fn split_at(
    alloc: Global,
    draft: &mut Draft,
    names: &mut Names,
    node: &Reference,
    offsets: &[u64],
    name: &Option<Txt>,
) -> Result<(), Fault>
    ensures ok { OnOk result (scripts.script_split_step node.now offsets.now name.now (scripted draft.old names.old) ≡ Ok (scripted draft.new names.new)) }
    ensures err { IfErr result (λ e. TellsStep e (scripts.script_split_step node.now offsets.now name.now (scripted draft.old names.old))) }
{
    let key = match resolve(alloc, draft, names, node) {
        Ok(key) => key,
        Err(fault) => return Err(fault),
    };
    match split(alloc, draft, key, offsets) {
        Ok(keys) => Ok(bind(names, name, keys.as_slice().first().copied())?),
        Err(fault) => Err(fault),
    }
}

/// What a step does to one node.
#[derive(Clone, Copy)]
pub(crate) enum NodeEdit<'a> {
    Remove,
    Set(&'a Patch),
    Mark,
    Unwrap,
}

/// What a step does to one node and another.
#[derive(Clone, Copy)]
pub(crate) enum PairEdit {
    /// The first is put among the second's children, at the index or at their end.
    Put(Option<u64>),
    /// The second is put in the first's place, and with `true` it gets that node's children.
    Replace(bool),
    /// The second's text goes after the first's.
    Join,
    /// The second is put in the first's place, and the first into it.
    Wrap,
    /// The first's children go after the second's.
    Children,
}

fn edit_key(alloc: Global, draft: &mut Draft, key: Key, edit: NodeEdit<'_>) -> Result<(), Fault>
    ensures ok { OnOk result (stepping.of_node edit.entry key draft.old ≡ Ok draft.new) }
    ensures err { IfErr result (λ e. TellsStep e (stepping.of_node edit.entry key draft.old)) }
{
    match edit {
        NodeEdit::Remove => remove(draft, key),
        NodeEdit::Set(patch) => set_node(alloc, draft, key, patch),
        NodeEdit::Mark => draft.mark(key),
        NodeEdit::Unwrap => unwrap(alloc, draft, key),
    }
}

fn edit_keys(
    alloc: Global,
    draft: &mut Draft,
    key: Key,
    other: Key,
    edit: PairEdit,
) -> Result<(), Fault>
    ensures ok { OnOk result (stepping.of_pair edit key other draft.old ≡ Ok draft.new) }
    ensures err { IfErr result (λ e. TellsStep e (stepping.of_pair edit key other draft.old)) }
{
    match edit {
        PairEdit::Put(index) => put_node(draft, key, other, index),
        PairEdit::Replace(keep) => replace(alloc, draft, key, other, keep),
        PairEdit::Join => join_texts(alloc, draft, key, other),
        PairEdit::Wrap => wrap(draft, key, other),
        PairEdit::Children => move_children(alloc, draft, key, other),
    }
}

/// Edits the node of a reference.
pub(crate) fn edit_node(
    alloc: Global,
    draft: &mut Draft,
    names: &Names,
    node: &Reference,
    edit: NodeEdit<'_>,
) -> Result<(), Fault>
    ensures ok { OnOk result (at_node node.now (stepping.of_node edit.entry) (scripted draft.old names.now) ≡ Ok (scripted draft.new names.now)) }
    ensures err { IfErr result (λ e. TellsStep e (at_node node.now (stepping.of_node edit.entry) (scripted draft.old names.now))) }
{
    let key = resolve(alloc, draft, names, node)?;
    edit_key(alloc, draft, key, edit)
}

/// Edits the nodes of two references, which are looked for in this order.
pub(crate) fn edit_nodes(
    alloc: Global,
    draft: &mut Draft,
    names: &Names,
    node: &Reference,
    other: &Reference,
    edit: PairEdit,
) -> Result<(), Fault>
    ensures ok { OnOk result (at_nodes node.now other.now (stepping.of_pair edit) (scripted draft.old names.now) ≡ Ok (scripted draft.new names.now)) }
    ensures err { IfErr result (λ e. TellsStep e (at_nodes node.now other.now (stepping.of_pair edit) (scripted draft.old names.now))) }
{
    let key = resolve(alloc, draft, names, node)?;
    let other = resolve(alloc, draft, names, other)?;
    edit_keys(alloc, draft, key, other, edit)
}
