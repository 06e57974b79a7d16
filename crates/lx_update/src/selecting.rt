//! What a step selects.

ghost use Rattle.std.specs.Prelude.{◌≡◌, ◌<◌, None, Ok, Some, OnOk, IfOk, IfErr};
ghost use Rattle.lx_node.specs.Limits.{last_u32};
ghost use Rattle.lx_forest.specs.Lookups as lookups;
ghost use Rattle.lx_draft.specs.Faults.{TellsStep};
ghost use Rattle.lx_draft.specs.Selecting as selecting;
ghost use Rattle.lx_update.specs.Scripts as scripts;
ghost use Rattle.lx_update.specs.Scripts.{scripted, script_select_step};

use crate::names::Names;
use crate::resolving::resolve;
use crate::splitting::keep;
use lx_draft::{Draft, is_place};
use lx_links::Links;
use lx_node::{Cause, Fault, Fields, Key, Kind, Point, PointKind};
use lx_select::{Keys, Selection};
use lx_step::{PointRef, Reference, SelectionRef};
use std::alloc::Global;

/// The selection that a step names. It is refused where a reference means no node, and for points as the draft's own
/// selecting is; an offset above 4,294,967,295 is within no node.
pub(crate) fn selection_for(
    alloc: Global,
    draft: &Draft,
    names: &Names,
    chosen: &SelectionRef,
) -> Result<Selection, Fault>
    ensures ok { IfOk result (λ made. scripts.selection_for chosen.now (scripted draft.now names.now) ≡ Ok made) }
    ensures err { IfErr result (λ e. TellsStep e (script_select_step chosen.now (scripted draft.now names.now))) }
{
    match chosen {
        SelectionRef::Nothing => Ok(Selection::Nothing),
        SelectionRef::Range {
            anchor,
            focus,
            format,
        } => range_for(alloc, draft, names, anchor, focus, *format),
        SelectionRef::Nodes(nodes) => {
            match all_resolved(alloc, draft, names, nodes.items()) {
                Ok(keys) => Ok(Selection::Nodes(Keys::of(keys))),
                Err(fault) => Err(fault),
            }
        }
        SelectionRef::Cells {
            table,
            anchor,
            focus,
        } => cells_for(alloc, draft, names, table, anchor, focus),
    }
}

fn cells_for(
    alloc: Global,
    draft: &Draft,
    names: &Names,
    table: &Reference,
    anchor: &Reference,
    focus: &Reference,
) -> Result<Selection, Fault>
    ensures ok { IfOk result (λ made. scripts.cells_for table.now anchor.now focus.now (scripted draft.now names.now) ≡ Ok made) }
    ensures err { IfErr result (λ e. TellsStep e (scripts.cells_for table.now anchor.now focus.now (scripted draft.now names.now))) }
{
    let table = resolve(alloc, draft, names, table)?;
    let anchor = resolve(alloc, draft, names, anchor)?;
    let focus = resolve(alloc, draft, names, focus)?;
    Ok(Selection::Cells {
        table,
        anchor,
        focus,
    })
}

/// The nodes of references, as far as all of them mean one.
#[tactic(auto, using(crate::proofs::Gathered::none_gathered, crate::proofs::Gathered::one_gathered))]
fn all_resolved(
    alloc: Global,
    draft: &Draft,
    names: &Names,
    nodes: &[Reference],
) -> Result<Vec<Key>, Fault>
    ensures ok { IfOk result (λ keys. scripts.all_resolved nodes.now (scripted draft.now names.now) ≡ Ok keys.items) }
    ensures err { IfErr result (λ e. TellsStep e (scripts.all_resolved nodes.now (scripted draft.now names.now))) }
{
    let mut keys = Vec::new(alloc);
    for node in nodes {
        let key = resolve(alloc, draft, names, node)?;
        keep(&mut keys, key)?;
    }
    Ok(keys)
}

/// The range between two points, if they can be selected.
#[tactic(auto, unfolding(lx_draft::specs::Steps::select_step))]
fn range_for(
    alloc: Global,
    draft: &Draft,
    names: &Names,
    anchor: &PointRef,
    focus: &PointRef,
    format: Option<u16>,
) -> Result<Selection, Fault>
    ensures ok { IfOk result (λ made. scripts.range_for anchor.now focus.now format (scripted draft.now names.now) ≡ Ok made) }
    ensures err { IfErr result (λ e. TellsStep e (scripts.then_selected (scripts.range_for anchor.now focus.now format (scripted draft.now names.now)) (scripted draft.now names.now))) }
{
    let a = resolve(alloc, draft, names, &anchor.node)?;
    let b = resolve(alloc, draft, names, &focus.node)?;
    let format = format_or(draft.links(), format, a);
    match points_at(draft.links(), a, anchor, b, focus) {
        Ok((anchor, focus)) => Ok(Selection::Range {
            anchor,
            focus,
            format,
        }),
        Err(cause) => Err(Fault::Cause(cause)),
    }
}

/// The format that is given, or that of a text or tab, or else 0.
fn format_or(links: &Links, format: Option<u16>, key: Key) -> u16
    ensures { result ≡ scripts.format_or format links.now key }
{
    match format {
        Some(format) => format,
        None => match links.node(key) {
            Some(node) => match &node.fields {
                Fields::Text(text) => text.format,
                _ => 0,
            },
            None => 0,
        },
    }
}

/// Both points, if they can be selected.
fn points_at(
    links: &Links,
    a: Key,
    anchor: &PointRef,
    b: Key,
    focus: &PointRef,
) -> Result<(Point, Point), Cause>
    ensures anchor { IfOk result (λ points. points.0 ≡ scripts.point_at a anchor.now) }
    ensures focus { IfOk result (λ points. points.1 ≡ scripts.point_at b focus.now) }
    ensures err { IfErr result (λ cause. selecting.range_fault links.now (scripts.point_at a anchor.now) (scripts.point_at b focus.now) ≡ Some cause) }
{
    if let Some(cause) = links.missing(a) {
        return Err(cause);
    }
    if let Some(cause) = links.missing(b) {
        return Err(cause);
    }
    if let Some(cause) = misfit_point(links, a, anchor.kind) {
        return Err(cause);
    }
    if let Some(cause) = misfit_point(links, b, focus.kind) {
        return Err(cause);
    }
    let anchor = point_at(links, a, anchor)?;
    let focus = point_at(links, b, focus)?;
    Ok((anchor, focus))
}

/// A point of the kind counts nothing in the node.
fn misfit_point(links: &Links, key: Key, point: PointKind) -> Option<Cause>
    ensures { result ≡ selecting.unlike (selecting.counts_in point) (lookups.kind_of links.now key) }
{
    let kind = links.kind(key)?;
    if counts_in(point, kind) {
        None
    } else {
        Some(Cause::WrongKind(kind))
    }
}

/// Whether a point of the kind counts something in nodes of the kind: code units in a text or tab, children
/// in an element.
fn counts_in(point: PointKind, kind: Kind) -> bool
    ensures { result ≡ selecting.counts_in point kind }
{
    match point {
        PointKind::Text => kind.has_characters(),
        PointKind::Element => kind.is_element(),
    }
}

/// The point, if it is at a place of the node.
fn point_at(links: &Links, key: Key, point: &PointRef) -> Result<Point, Cause>
    ensures ok { IfOk result (λ made. made ≡ scripts.point_at key point.now) }
    ensures within { OnOk result (selecting.outside_point links.now (scripts.point_at key point.now) ≡ None) }
    ensures err { IfErr result (λ cause. selecting.outside_point links.now (scripts.point_at key point.now) ≡ Some cause) }
{
    match u32::try_from(point.offset) {
        Ok(offset) => placed(
            links,
            Point {
                key,
                offset,
                kind: point.kind,
            },
        ),
        Err(_) => Err(beyond(links, key, point)),
    }
}

/// What refuses a point whose offset no u32 can be. No text has such a place, and no node so many children.
fn beyond(links: &Links, key: Key, point: &PointRef) -> Cause
    requires { last_u32 < point.now.offset }
    ensures { selecting.outside_point links.now (scripts.point_at key point.now) ≡ Some result }
{
    let children = links.size(key);
    prove!(u64::from(children) < point.offset);
    Cause::BadPlace(point.offset)
}

/// The same of a point whose offset is a u32.
fn placed(links: &Links, point: Point) -> Result<Point, Cause>
    ensures ok { IfOk result (λ made. made ≡ point) }
    ensures within { OnOk result (selecting.outside_point links.now point ≡ None) }
    ensures err { IfErr result (λ cause. selecting.outside_point links.now point ≡ Some cause) }
{
    if is_place(links, &point) {
        Ok(point)
    } else {
        Err(Cause::BadPlace(u64::from(point.offset)))
    }
}
