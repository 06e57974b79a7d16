ghost use Rattle.std.specs.Prelude.{◌≡◌, ◌+◌, ◌≤◌, OnOk, IfOk};
ghost use Rattle.lx_node.specs.Kinds as kinds;
ghost use Rattle.lx_forest.specs.Lookups as lookups;
ghost use Rattle.lx_forest.specs.Lookups.{IsForest};
ghost use Rattle.lx_node.specs.Limits.{most_counts};
ghost use Rattle.lx_draft.specs.Steps.{take_step};
ghost use Rattle.lx_edit.specs.Edits as edits;
ghost use Rattle.lx_edit.specs.Edits.{remove_step};
ghost use Rattle.lx_edit.specs.Standing.{Does};

use crate::places::{beside, element_point};
use lx_draft::{Draft, PointRule};
use lx_links::Links;
use lx_node::{Fault, Key, Kind};

/// Takes a node, with all below it, out from below its parent. Then the parent goes too where it has no
/// children left and may not be so: where it is of a kind that may not be empty, or an item that had a list;
/// and so on upwards, as far as there is a parent. Points on each go to the end of what came before it, if
/// that has characters or children; where nothing came before it, to the start of what came after; and
/// otherwise to where it was in its parent. It is refused where there is no such node, where it is
/// below nothing, and where 100,000 counts were taken.
pub fn remove(draft: &mut Draft, key: Key) -> Result<(), Fault>
    ensures { Does (remove_step key draft.old) draft.new result }
{
    let mut next = Some(key);
    while let Some(at) = next {
        match remove_one(draft, at) {
            Ok(emptied) => next = emptied,
            Err(fault) => return Err(fault),
        }
    }
    Ok(())
}

/// Takes a node out, and answers its parent where that has to go too.
#[tactic(auto, using(crate::proofs::Climbed::taken_once, crate::proofs::Climbed::order_before))]
fn remove_one(draft: &mut Draft, key: Key) -> Result<Option<Key>, Fault>
    ensures does { Does (take_step key (edits.sent_away key draft.old)) draft.new result }
    ensures order { OnOk result (IsForest draft.old.forest) }
    ensures counted { OnOk result (draft.new.counted ≡ draft.old.counted + 1) }
    ensures within { OnOk result (draft.new.counted ≤ most_counts) }
    ensures emptied { IfOk result (λ next. next ≡ edits.goes_next (lookups.kind_of draft.old.forest key) draft.new.forest (lookups.parent_of draft.old.forest key)) }
{
    let kind = draft.links().kind(key);
    let parent = draft.links().parent(key);
    send_points_away(draft, key);
    draft.take(key)?;
    Ok(goes_next(draft.links(), kind, parent))
}

/// Sends the points on a node to a place beside it. Its place is looked for only where there are any.
#[tactic(auto, unfolding(crate::specs::Edits::sent_away))]
fn send_points_away(draft: &mut Draft, key: Key)
    ensures { draft.new ≡ edits.sent_away key draft.old }
{
    if !draft.selection().has_point_on(key) {
        return;
    }
    if let (Some(parent), Some(index)) = (draft.links().parent(key), draft.links().index_of(key)) {
        let to = beside(draft.links(), key).unwrap_or(element_point(parent, index));
        draft.point_rule(PointRule::Move { key, to });
    }
}

/// The parent, if it has to go too after a child of this kind went.
fn goes_next(links: &Links, inner: Option<Kind>, parent: Option<Key>) -> Option<Key>
    ensures { result ≡ edits.goes_next inner links.now parent }
{
    match parent {
        Some(parent) => {
            if goes_too(links, inner, parent) {
                Some(parent)
            } else {
                None
            }
        }
        None => None,
    }
}

/// Whether a node without children may not be left so, after a child of this kind went.
fn goes_too(links: &Links, inner: Option<Kind>, parent: Key) -> bool
    ensures { result ≡ edits.goes_too inner links.now parent }
{
    links.size(parent) == 0
        && links.parent(parent).is_some()
        && may_not_be_left(links.kind(parent), inner)
}

/// Whether a node of the one kind may not be left without children, after a child of the other went.
fn may_not_be_left(outer: Option<Kind>, inner: Option<Kind>) -> bool
    ensures { result ≡ edits.may_not_be_left outer inner }
{
    match (outer, inner) {
        (Some(outer), Some(inner)) => {
            !outer.may_be_empty() || (is_item(outer) && is_list(inner))
        }
        _ => false,
    }
}

#[tactic(auto, unfolding(lx_node::specs::Kinds::is_item))]
fn is_item(kind: Kind) -> bool
    ensures { result ≡ kinds.is_item kind }
{
    matches!(kind, Kind::Item)
}

#[tactic(auto, unfolding(lx_node::specs::Kinds::is_list))]
fn is_list(kind: Kind) -> bool
    ensures { result ≡ kinds.is_list kind }
{
    matches!(kind, Kind::List(_))
}
