//! Adding a node at a point.

ghost use Rattle.std.specs.Prelude.{◌≡◌, ◌≢◌, ◌+◌, IfOk};
ghost use Rattle.lx_node.specs.OfKind.{IsOfKind};
ghost use Rattle.lx_node.specs.declared.kind.Kind.TheVariants.{Root};
ghost use Rattle.lx_edit.specs.Standing.{Does};
ghost use Rattle.lx_caret.specs.Adding as adding;
ghost use Rattle.lx_caret.specs.Adding.{add_step};

use lx_blocks::is_normal_at;
use lx_draft::Draft;
use lx_edit::{admitted, split_text};
use lx_links::Links;
use lx_node::{Cause, Fault, Fields, Key, Kind, Point, PointKind};
use std::alloc::Global;

/// The kind of what a node goes into at a point: an element itself, or what a text is below.
pub fn kind_around(links: &Links, point: &Point) -> Option<Kind>
    ensures { result ≡ adding.kind_around links.now point.now.key point.now.kind }
{
    match point.kind {
        PointKind::Text => match links.parent(point.key) {
            Some(parent) => links.kind(parent),
            None => None,
        },
        PointKind::Element => links.kind(point.key),
    }
}

/// What may not hold a node of the kind refuses it.
pub fn no_room(inner: Kind, outer: Option<Kind>) -> Option<Cause>
    ensures { result ≡ adding.no_room inner outer }
{
    let outer = outer?;
    if outer.may_hold(inner) {
        None
    } else {
        Some(Cause::WrongKind(outer))
    }
}

/// Whether a point lies strictly inside a text or tab: characters come before it and after it.
pub(crate) fn is_inside(draft: &Draft, point: &Point) -> bool
    ensures { result ≡ adding.is_inside draft.now.forest point.now point.now.kind }
{
    match point.kind {
        PointKind::Text => 0 < point.offset && point.offset < draft.text_length(point.key),
        PointKind::Element => false,
    }
}

/// Splits a normal text that holds the point strictly inside. A text that isn't normal is never cut.
pub fn open(alloc: Global, draft: &mut Draft, point: &Point) -> Result<(), Fault>
    ensures { Does (adding.opened point.now draft.old) draft.new result }
{
    if is_inside(draft, point) && is_normal_at(draft, point.key) {
        split_text(alloc, draft, point.key, &[point.offset])?;
    }
    Ok(())
}

/// Puts a node at a point: before a text at offset 0, else after it; in an element at the offset.
pub fn put_by(draft: &mut Draft, key: Key, point: &Point) -> Result<(), Fault>
    ensures { Does (adding.put_by key point.now point.now.kind draft.old) draft.new result }
{
    match point.kind {
        PointKind::Text => {
            if point.offset == 0 {
                draft.put_before(key, point.key)
            } else {
                draft.put_behind(key, point.key)
            }
        }
        PointKind::Element => draft.put(key, point.key, point.offset),
    }
}

/// Adds a new node at a point, and answers its key, which is the newest. A normal text that holds the point strictly inside is
/// split there; beside one that isn't normal the node goes before it at offset 0, and else after it. It is refused with
/// `WrongKind` and the kind of what may not hold the node, and as the edits of a draft are.
#[tactic(auto, unfolding(crate::specs::Adding::add_step))]
pub(crate) fn add(
    alloc: Global,
    draft: &mut Draft,
    point: &Point,
    kind: Kind,
    fields: Fields,
) -> Result<Key, Fault>
    requires other { kind ≢ Root }
    requires of_kind { IsOfKind kind fields }
    ensures does { Does (add_step point.now kind fields draft.old) draft.new result }
    ensures key { IfOk result (λ key. key + 1 ≡ draft.new.next_key) }
{
    let fault = no_room(kind, kind_around(draft.links(), point));
    admitted(draft, fault)?;
    open(alloc, draft, point)?;
    let key = draft.new_node(kind, fields)?;
    put_by(draft, key, point)?;
    Ok(key)
}
