ghost use Rattle.std.specs.Prelude.{◌≡◌, OnOk, IfOk};
ghost use Rattle.lx_forest.specs.Lookups as lookups;
ghost use Rattle.lx_draft.specs.Selecting as selecting;
ghost use Rattle.lx_edit.specs.Edits as edits;
ghost use Rattle.lx_edit.specs.Edits.{replace_step, wrap_step};
ghost use Rattle.lx_edit.specs.Standing.{Does};

use crate::children::{move_children, move_to_end};
use crate::conditions::{admitted, replace_fault, wrap_fault};
use crate::removing::remove;
use lx_draft::{Draft, PointRule};
use lx_links::Links;
use lx_node::{Fault, Fields, Key, Kind, NoMemory, Txt};
use std::alloc::Global;

/// Puts the second node, which is below nothing, in the place of the first, which is removed. With
/// `keep` the children of the first go into the second before. Points on a text go to the same offset of a
/// text that replaces it, to its end where they are past that, and inside a surrogate pair to the pair's
/// start. It is refused where one of the two isn't there; where the first is below nothing; where the
/// second is the root, is below something, or has the first in its tree; where the parent may not hold it;
/// with `keep`, where one of the two isn't an element, and where the second may not hold one of the children;
/// and where 100,000 counts were taken.
#[tactic(auto, unfolding(crate::specs::Edits::replace_step))]
pub fn replace(
    alloc: Global,
    draft: &mut Draft,
    key: Key,
    with: Key,
    keep: bool,
) -> Result<(), Fault>
    ensures { Does (replace_step key with keep draft.old) draft.new result }
{
    let fault = replace_fault(draft.links(), key, with, keep);
    admitted(draft, fault)?;
    draft.put_before(with, key)?;
    if keep {
        move_children(alloc, draft, key, with)?;
    }
    point_into_text(alloc, draft, key, with)?;
    remove(draft, key)
}

/// Of two texts, sends the points on the first to the same offsets of the second. It takes memory for the text.
#[tactic(auto, unfolding(crate::specs::Edits::texts_pointed))]
fn point_into_text(alloc: Global, draft: &mut Draft, key: Key, with: Key) -> Result<(), NoMemory>
    ensures { OnOk result (draft.new ≡ edits.texts_pointed key with draft.old) }
{
    if is_text(draft.links(), key) && is_text(draft.links(), with) {
        let text = copy_of_text(alloc, draft.links(), with)?;
        draft.point_rule(PointRule::Replace {
            old: key,
            new: with,
            text,
        });
    }
    Ok(())
}

/// A copy of the text of a text or tab, which is empty for any other node.
fn copy_of_text(alloc: Global, links: &Links, key: Key) -> Result<Txt, NoMemory>
    ensures { IfOk result (λ text. text ≡ selecting.text_of (lookups.fields_of links.now key)) }
{
    match links.node(key) {
        Some(node) => match &node.fields {
            Fields::Text(text) => text.text.copy(alloc),
            _ => Ok(Txt::empty(alloc)),
        },
        None => Ok(Txt::empty(alloc)),
    }
}

#[tactic(auto, unfolding(lx_node::specs::Kinds::is_text))]
fn is_text(links: &Links, key: Key) -> bool
    ensures { result ≡ edits.is_text_at (lookups.kind_of links.now key) }
{
    matches!(links.kind(key), Some(Kind::Text))
}

/// Puts the outer node, which is below nothing, in the place of the other, which goes to the end of the
/// outer one's children. It is refused as a replacing is, and where the outer one may not hold the other.
#[tactic(auto, unfolding(crate::specs::Edits::wrap_step))]
pub fn wrap(draft: &mut Draft, key: Key, outer: Key) -> Result<(), Fault>
    ensures { Does (wrap_step key outer draft.old) draft.new result }
{
    let fault = wrap_fault(draft.links(), key, outer);
    admitted(draft, fault)?;
    draft.put_before(outer, key)?;
    move_to_end(draft, outer, key)
}
