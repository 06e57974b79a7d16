//! What an edit of a rule does to the node at which the rule was asked.

ghost use Rattle.std.specs.Prelude.{◌≡◌, true, IfOk};
ghost use Rattle.lx_step.specs.declared.rule.SelfEdit.TheVariants as edits;
ghost use Rattle.lx_forest.specs.Lookups as lookups;
ghost use Rattle.lx_forest.specs.Views.{view_of};
ghost use Rattle.lx_draft.specs.Steps.{new_step};
ghost use Rattle.lx_edit.specs.Standing.{Does};
ghost use Rattle.lx_settle.specs.Acting as acting;
ghost use Rattle.lx_settle.specs.Acting.{act_step, CanBeMade};

use lx_draft::Draft;
use lx_edit::{length_at, move_children, remove, replace, unwrap, wrap};
use lx_node::{Fault, Fields, Key, NoMemory, Txt};
use lx_step::{NewNode, Patch, SelfEdit};
use std::alloc::Global;

/// What an edit that has work at the node of the key does there. It is refused as the draft's edits are that
/// it is made of. What has no work isn't asked for: its new node need not be one that can be made.
pub(crate) fn act(alloc: Global, draft: &mut Draft, edit: &SelfEdit, key: Key) -> Result<(), Fault>
    requires { acting.has_work_at (view_of draft.old.forest key) edit.now ≡ true }
    ensures { Does (act_step edit.now key draft.old) draft.new result }
{
    match edit {
        SelfEdit::Set(patch) => write_patch(alloc, draft, patch, key),
        SelfEdit::Add(text) => add_text(draft, text, key),
        SelfEdit::Remove => remove_node(draft, key),
        SelfEdit::Replace(new) => replace_by_new(alloc, draft, new, key),
        SelfEdit::Wrap(new) => wrap_in_new(alloc, draft, new, key),
        SelfEdit::Unwrap => unwrap_node(alloc, draft, key),
        SelfEdit::Before(new) => put_new_before(alloc, draft, new, key),
        SelfEdit::After(new) => put_new_behind(alloc, draft, new, key),
        SelfEdit::Child(new) => put_new_child(alloc, draft, new, key),
        SelfEdit::MergeNext => merge_next(alloc, draft, key),
    }
}

/// Writes members of the node's fields, where all of them can be set on it.
#[tactic(auto, unfolding(crate::specs::Acting::act_step))]
fn write_patch(alloc: Global, draft: &mut Draft, patch: &Patch, key: Key) -> Result<(), Fault>
    ensures { Does (act_step (edits.Set patch.now) key draft.old) draft.new result }
{
    match patched(alloc, draft, patch, key)? {
        Some(fields) => draft.set(key, fields),
        None => Ok(()),
    }
}

/// The node's fields with the members written into them, where there is a node and all of them can be set on it.
fn patched(
    alloc: Global,
    draft: &Draft,
    patch: &Patch,
    key: Key,
) -> Result<Option<Fields>, NoMemory>
    ensures { IfOk result (λ made. made ≡ acting.patched_in (lookups.label_of draft.now.forest key) patch.now.members) }
{
    let Some(node) = draft.links().node(key) else {
        return Ok(None);
    };
    match patch.onto(alloc, node.kind, &node.fields) {
        Ok(fields) => Ok(Some(fields)),
        Err(Fault::Cause(_)) => Ok(None),
        Err(Fault::Memory) => Err(NoMemory),
    }
}

/// Puts a text after that of the node.
#[tactic(auto, unfolding(crate::specs::Acting::act_step))]
fn add_text(draft: &mut Draft, text: &Txt, key: Key) -> Result<(), Fault>
    ensures { Does (act_step (edits.Add text.now) key draft.old) draft.new result }
{
    let end = length_at(draft, key);
    draft.splice(key, end, end, text.as_str())
}

#[tactic(auto, unfolding(crate::specs::Acting::act_step))]
fn remove_node(draft: &mut Draft, key: Key) -> Result<(), Fault>
    ensures { Does (act_step edits.Remove key draft.old) draft.new result }
{
    remove(draft, key)
}

#[tactic(auto, unfolding(crate::specs::Acting::act_step))]
fn unwrap_node(alloc: Global, draft: &mut Draft, key: Key) -> Result<(), Fault>
    ensures { Does (act_step edits.Unwrap key draft.old) draft.new result }
{
    unwrap(alloc, draft, key)
}

/// Makes a new node that is below nothing yet, and answers its key.
fn make(alloc: Global, draft: &mut Draft, new: &NewNode) -> Result<Key, Fault>
    requires { CanBeMade new.now }
    ensures does { Does (new_step new.now.kind new.now.fields draft.old) draft.new result }
    ensures key { IfOk result (λ key. key ≡ draft.old.next_key) }
{
    let fields = new.fields.copy(alloc)?;
    draft.new_node(new.kind, fields)
}

fn is_element(draft: &Draft, key: Key) -> bool
    ensures { result ≡ acting.is_element_at (lookups.kind_of draft.now.forest key) }
{
    match draft.links().kind(key) {
        Some(kind) => kind.is_element(),
        None => false,
    }
}

/// Puts a new node in the place of the node, with its children where both are elements.
#[tactic(auto, unfolding(crate::specs::Acting::act_step))]
fn replace_by_new(alloc: Global, draft: &mut Draft, new: &NewNode, key: Key) -> Result<(), Fault>
    requires { CanBeMade new.now }
    ensures { Does (act_step (edits.Replace new.now) key draft.old) draft.new result }
{
    let keep = new.kind.is_element() && is_element(draft, key);
    let made = make(alloc, draft, new)?;
    replace(alloc, draft, key, made, keep)
}

/// Puts a new element around the node.
#[tactic(auto, unfolding(crate::specs::Acting::act_step))]
fn wrap_in_new(alloc: Global, draft: &mut Draft, new: &NewNode, key: Key) -> Result<(), Fault>
    requires { CanBeMade new.now }
    ensures { Does (act_step (edits.Wrap new.now) key draft.old) draft.new result }
{
    let made = make(alloc, draft, new)?;
    wrap(draft, key, made)
}

/// Puts a new node right before the node.
#[tactic(auto, unfolding(crate::specs::Acting::act_step))]
fn put_new_before(alloc: Global, draft: &mut Draft, new: &NewNode, key: Key) -> Result<(), Fault>
    requires { CanBeMade new.now }
    ensures { Does (act_step (edits.Before new.now) key draft.old) draft.new result }
{
    let made = make(alloc, draft, new)?;
    draft.put_before(made, key)
}

/// Puts a new node right after the node.
#[tactic(auto, unfolding(crate::specs::Acting::act_step))]
fn put_new_behind(alloc: Global, draft: &mut Draft, new: &NewNode, key: Key) -> Result<(), Fault>
    requires { CanBeMade new.now }
    ensures { Does (act_step (edits.After new.now) key draft.old) draft.new result }
{
    let made = make(alloc, draft, new)?;
    draft.put_behind(made, key)
}

/// Puts a new node after the node's children.
#[tactic(auto, unfolding(crate::specs::Acting::act_step))]
fn put_new_child(alloc: Global, draft: &mut Draft, new: &NewNode, key: Key) -> Result<(), Fault>
    requires { CanBeMade new.now }
    ensures { Does (act_step (edits.Child new.now) key draft.old) draft.new result }
{
    let made = make(alloc, draft, new)?;
    let size = draft.links().size(key);
    draft.put(made, key, size)
}

/// Brings the children of the next sibling after those of the node, and removes that sibling.
#[tactic(auto, unfolding(crate::specs::Acting::act_step))]
fn merge_next(alloc: Global, draft: &mut Draft, key: Key) -> Result<(), Fault>
    ensures { Does (act_step edits.MergeNext key draft.old) draft.new result }
{
    match draft.links().next(key) {
        Some(next) => {
            move_children(alloc, draft, next, key)?;
            remove(draft, next)
        }
        None => Ok(()),
    }
}
