//! The range that a command needs, and the caret.

ghost use Rattle.std.specs.Prelude.{◌≡◌, true, is_some, IfOk};
ghost use Rattle.std.specs.Option.{option_copied};
ghost use Rattle.lx_node.specs.OfKind as of_kind;
ghost use Rattle.lx_node.specs.declared.cause.Cause.TheVariants.{NoSelection};
ghost use Rattle.lx_node.specs.declared.cause.Fault.TheVariants as fault;
ghost use Rattle.lx_forest.specs.Lookups as lookups;
ghost use Rattle.lx_edit.specs.Standing.{Gives};
ghost use Rattle.lx_blocks.specs.Ranges as ranges;

use crate::blocks::{frame, same_node};
use crate::places::comes_first;
use lx_draft::Draft;
use lx_edit::admitted;
use lx_links::Links;
use lx_node::{Cause, Fault, Key, Mode, Point, SelectionKind, TextFields};
use lx_select::Selection;

/// A range of two points. Text that is typed there gets the format, whose bits are those of a text's format.
#[derive(Clone, Copy)]
pub struct Ranged {
    pub anchor: Point,
    pub focus: Point,
    pub format: u16,
}

/// Whether a point lies in the root's tree.
fn lies(draft: &Draft, point: &Point) -> bool
    ensures { result ≡ ranges.lies draft.now.forest point.now }
{
    draft.links().is_attached(point.key) && draft.lies(point)
}

fn is_fit(draft: &Draft, anchor: &Point, focus: &Point) -> bool
    ensures { result ≡ ranges.is_fit draft.now.forest anchor.now focus.now }
{
    let links = draft.links();
    (lies(draft, anchor) && lies(draft, focus))
        && same_node(frame(links, anchor.key), frame(links, focus.key))
}

/// Why a command is refused that needs a range, by what the selection is.
pub fn no_range(kind: SelectionKind) -> Fault
    ensures { result ≡ fault.Cause (NoSelection kind) }
{
    Fault::Cause(Cause::NoSelection(kind))
}

/// The range that a command needs. It is refused with `NoSelection` and what the selection is, where that is no range,
/// where a point of it doesn't lie in the root's tree, and where one lies in another cell than the other.
#[tactic(auto, unfolding(crate::specs::Ranges::range_of))]
pub fn range_of(draft: &Draft) -> Result<Ranged, Fault>
    ensures gives { Gives (ranges.range_of draft.now) (λ range. range) draft.now result }
    ensures anchor { IfOk result (λ range. lookups.is_attached draft.now.forest range.anchor.key ≡ true) }
    ensures focus { IfOk result (λ range. lookups.is_attached draft.now.forest range.focus.key ≡ true) }
{
    admitted(draft, None)?;
    match draft.selection() {
        Selection::Range {
            anchor,
            focus,
            format,
        } => {
            if is_fit(draft, anchor, focus) {
                Ok(Ranged {
                    anchor: *anchor,
                    focus: *focus,
                    format: *format,
                })
            } else {
                Err(no_range(SelectionKind::Range))
            }
        }
        other => Err(no_range(other.kind())),
    }
}

/// The range that a selection is, wherever its points are.
pub fn shown_range(selection: &Selection) -> Option<Ranged>
    ensures { result ≡ ranges.shown_range selection.now }
{
    match selection {
        Selection::Range {
            anchor,
            focus,
            format,
        } => Some(Ranged {
            anchor: *anchor,
            focus: *focus,
            format: *format,
        }),
        _ => None,
    }
}

/// Whether both points are at one place of one node.
pub fn is_collapsed(range: &Ranged) -> bool
    ensures { result ≡ ranges.is_collapsed range.now }
{
    range.anchor.key == range.focus.key && range.anchor.offset == range.focus.offset
}

/// The two points of a range, the one that comes first before the other.
pub fn in_order(links: &Links, range: &Ranged) -> (Point, Point)
    ensures start { result.0 ≡ ranges.start_of links.now range.now }
    ensures end { result.1 ≡ ranges.end_of links.now range.now }
{
    if comes_first(links, &range.anchor, &range.focus) {
        (range.anchor, range.focus)
    } else {
        (range.focus, range.anchor)
    }
}

/// Puts both points of a range at one place. The format stays, and so does every other selection.
pub fn place_caret(draft: &mut Draft, at: &Point)
    ensures { draft.new ≡ ranges.caret_at at.now draft.old }
{
    draft.put_points(*at);
}

#[tactic(auto, unfolding(lx_node::specs::OfKind::is_normal))]
fn is_normal(mode: Mode) -> bool
    ensures { result ≡ of_kind.is_normal mode }
{
    matches!(mode, Mode::Normal)
}

/// The fields of a text of normal mode. A tab is none.
pub fn normal_at(draft: &Draft, key: Key) -> Option<&TextFields>
    ensures { option_copied result ≡ ranges.normal_at draft.now.forest key }
{
    match draft.text_at(key) {
        Ok(text) => {
            if is_normal(text.mode) {
                Some(text)
            } else {
                None
            }
        }
        Err(_) => None,
    }
}

/// Whether it is a text of normal mode.
pub fn is_normal_at(draft: &Draft, key: Key) -> bool
    ensures { result ≡ is_some (ranges.normal_at draft.now.forest key) }
{
    normal_at(draft, key).is_some()
}
