ghost use Rattle.std.specs.Prelude.{◌≡◌, true, is_none, IfSome};
ghost use Rattle.std.specs.List.{list_all, list_any};
ghost use Rattle.lx_node.specs.Kinds as kinds;
ghost use Rattle.lx_node.specs.OfKind as of_kind;
ghost use Rattle.lx_step.specs.Patches as patches;
ghost use Rattle.lx_node.specs.declared.node.View.{View};
ghost use Rattle.lx_rules.specs.Glances.{glance_of};
ghost use Rattle.lx_rules.specs.Idle as idles;
ghost use Rattle.lx_rules.specs.Types as types;

use crate::changes::differs;
use crate::glance::Glance;
use crate::types::{is_kind, same_kind};
use lx_node::{Kind, Txt, View};
use lx_step::{Member, NewNode, Patch, SelfEdit};

#[tactic(auto, unfolding(crate::specs::Idle::is_root))]
fn is_root(kind: Kind) -> bool
    ensures { result ≡ idles.is_root kind }
{
    matches!(kind, Kind::Root)
}

/// Whether there is a parent that may hold such a child.
fn is_held(outer: Option<Kind>, inner: Kind) -> bool
    ensures { result ≡ idles.is_held outer inner }
{
    match outer {
        Some(outer) => outer.may_hold(inner),
        None => false,
    }
}

/// Whether all of these may be children of the kind.
fn may_hold_all(outer: Kind, children: &[Kind]) -> bool
    ensures { result ≡ list_all (kinds.may_hold outer) children.now }
{
    children.iter().all(|child| outer.may_hold(*child))
}

/// Whether there is a parent that may hold all of these.
fn are_held(outer: Option<Kind>, children: &[Kind]) -> bool
    ensures { result ≡ list_all (idles.is_held outer) children.now }
{
    children.iter().all(|child| is_held(outer, *child))
}

/// Whether one of these is of the kind.
fn has_kind(kind: Kind, children: &[Kind]) -> bool
    ensures { result ≡ list_any (types.same_kind kind) children.now }
{
    children.iter().any(|child| same_kind(kind, *child))
}

/// Whether a new node may be below a parent in the place of a node of a kind, which isn't the root.
fn may_stand(parent: Option<Kind>, kind: Kind, new: &NewNode) -> bool
    ensures { (v : View) → v.parent ≡ parent → v.kind ≡ kind → result ≡ idles.may_stand v new.now }
{
    new.fields.is_of_kind(new.kind) && !is_root(kind) && is_held(parent, new.kind)
}

/// Whether there is a character in a text that is added.
fn has_text(text: &Txt) -> bool
    ensures { result ≡ idles.has_text text.now }
{
    !text.is_empty()
}

/// Whether a cell may span so many rows or columns.
#[tactic(auto, unfolding(lx_node::specs::OfKind::is_span))]
fn is_span(span: u16) -> bool
    ensures { result ≡ of_kind.is_span span }
{
    1 <= span && span <= 1000
}

/// Whether the number of a member is within its range. Where it isn't, no node may have it.
#[tactic(auto, unfolding(lx_step::specs::Patches::is_in_range))]
fn is_in_range(member: &Member) -> bool
    ensures { result ≡ patches.is_in_range member.now }
{
    match member {
        Member::Start(start) => *start <= 1_000_000,
        Member::HeaderState(header) => *header <= 3,
        Member::ColSpan(span) | Member::RowSpan(span) => is_span(*span),
        Member::Detail(detail) => *detail <= 3,
        _ => true,
    }
}

/// Whether the numbers of all members are within their ranges.
fn are_in_range(members: &[Member]) -> bool
    ensures { result ≡ list_all patches.is_in_range members.now }
{
    members.iter().all(|member| is_in_range(member))
}

/// Whether the numbers of a patch are within their ranges, it is one of the view's kind and it changes the fields. It
/// takes no memory.
#[tactic(auto, unfolding(lx_step::specs::Patches::patched))]
fn changes(view: &View, patch: &Patch) -> bool
    ensures { result ≡ idles.changes view.now.kind patch.now.members view.now.fields }
{
    are_in_range(patch.members.items())
        && patch.is_of(view.kind)
        && differs(&view.fields, patch.members.items())
}

/// Whether an edit has nothing to do at a node that is seen so at a glance: the kinds don't allow it, or its end is
/// reached. Where that depends on the node's fields or its children, there is no answer. It takes no memory.
#[tactic(auto, unfolding(crate::specs::Idle::idle_at, lx_node::specs::Kinds::is_text))]
pub fn idle_at_glance(glance: &Glance, edit: &SelfEdit) -> Option<bool>
    ensures idle { IfSome result (λ idle. (v : View) → glance_of v ≡ glance.now → idle ≡ idles.idle_at v edit.now) }
    ensures within { is_none result ≡ idles.looks_within edit.now }
{
    let Glance { kind, parent, .. } = *glance;
    let has_work = match edit {
        SelfEdit::Add(text) => matches!(kind, Kind::Text) && has_text(text),
        SelfEdit::Remove => !is_root(kind),
        SelfEdit::Wrap(new) => {
            may_stand(parent, kind, new) && !is_kind(parent, new.kind) && new.kind.may_hold(kind)
        }
        SelfEdit::Before(new) => may_stand(parent, kind, new) && !is_kind(glance.prev, new.kind),
        SelfEdit::After(new) => may_stand(parent, kind, new) && !is_kind(glance.next, new.kind),
        SelfEdit::MergeNext => kind.is_element() && is_kind(glance.next, kind),
        SelfEdit::Set(_) | SelfEdit::Replace(_) | SelfEdit::Unwrap | SelfEdit::Child(_) => {
            return None;
        }
    };
    Some(!has_work)
}

/// Whether an edit that looks at a node's fields or its children has nothing to do at a view: the kinds don't allow it,
/// what it holds isn't of the kind that it is for, a number that it sets is out of its range, or its end is reached. It
/// takes no memory.
#[tactic(auto, unfolding(crate::specs::Idle::idle_at))]
pub fn idle_within(view: &View, edit: &SelfEdit) -> bool
    requires { idles.looks_within edit.now ≡ true }
    ensures { result ≡ idles.idle_at view.now edit.now }
{
    let children = view.children.items();
    let has_work = match edit {
        SelfEdit::Set(patch) => changes(view, patch),
        SelfEdit::Replace(new) => {
            may_stand(view.parent, view.kind, new)
                && !same_kind(view.kind, new.kind)
                && may_hold_all(new.kind, children)
        }
        SelfEdit::Unwrap => {
            view.kind.is_element() && !is_root(view.kind) && are_held(view.parent, children)
        }
        SelfEdit::Child(new) => {
            new.fields.is_of_kind(new.kind)
                && view.kind.may_hold(new.kind)
                && !has_kind(new.kind, children)
        }
        _ => false,
    };
    !has_work
}
