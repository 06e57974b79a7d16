//! The cell by which a command goes.

ghost use Rattle.std.specs.Prelude.{◌≡◌, ◌≢◌, ◌≤◌, Some, Result, OnOk, IfOk, IfErr, IfSome, option_map};
ghost use Rattle.lx_node.specs.declared.cause.Cause.{Cause as CauseOf};
ghost use Rattle.lx_trees.specs.Trees.{nil};
ghost use Rattle.lx_trees.specs.NamedTrees.{total};
ghost use Rattle.lx_draft.specs.Working.{Working};
ghost use Rattle.lx_draft.specs.Faults.{TellsStep};
ghost use Rattle.lx_edit.specs.Standing.{Gives, StillStands};
ghost use Rattle.lx_table.specs.Places as spec;
ghost use Rattle.lx_table.specs.Spots.{most_cells};

use crate::filling::spots_of;
use crate::spans::set_heights;
use crate::spots::{Spot, spot_of};
use lx_blocks::{cell_from, no_range, range_of};
use lx_draft::Draft;
use lx_edit::admitted;
use lx_links::Links;
use lx_node::{Fault, Key, NoMemory, SelectionKind};
use lx_select::Selection;
use std::alloc::Global;

/// A table, where its cells are, and one of these spots.
#[derive(Drop)]
pub(crate) struct Place {
    pub table: Key,
    pub spots: Vec<Spot>,
    pub spot: Spot,
}

/// Cells that are selected: those of a table from one to another.
#[derive(Clone, Copy)]
pub(crate) struct CellRange {
    pub table: Key,
    pub anchor: Key,
    pub focus: Key,
}

/// Whether the keys of cells that are selected are in the root's tree.
fn are_attached(links: &Links, table: Key, anchor: Key, focus: Key) -> bool
    ensures { result ≡ spec.are_attached links.now table anchor focus }
{
    links.is_attached(table) && (links.is_attached(anchor) && links.is_attached(focus))
}

/// The cells that are selected, if some are. They are refused with `NoSelection` where one of their keys isn't in the root's tree.
#[tactic(auto, unfolding(crate::specs::Places::selected_cells))]
pub(crate) fn selected_cells(draft: &Draft) -> Result<Option<CellRange>, Fault>
    ensures gives { Gives (spec.selected_cells draft.now) (λ cells. cells) draft.now result }
    ensures living { OnOk result (draft.now.forest ≢ nil) }
{
    admitted(draft, None)?;
    match draft.selection() {
        Selection::Cells {
            table,
            anchor,
            focus,
        } => {
            if are_attached(draft.links(), *table, *anchor, *focus) {
                Ok(Some(CellRange {
                    table: *table,
                    anchor: *anchor,
                    focus: *focus,
                }))
            } else {
                Err(no_range(SelectionKind::Cells))
            }
        }
        _ => Ok(None),
    }
}

/// The focus of a range or of cells. It is refused with `NoSelection` and what the selection is, where that is neither. So it
/// is where a point or key of it isn't in the root's tree, and where one point is in another cell than the other.
#[tactic(auto, unfolding(crate::specs::Places::focus_of))]
pub(crate) fn focus_of(draft: &Draft) -> Result<Key, Fault>
    ensures gives { Gives (spec.focus_of draft.now) (λ key. key) draft.now result }
    ensures living { OnOk result (draft.now.forest ≢ nil) }
{
    match selected_cells(draft)? {
        Some(cells) => Ok(cells.focus),
        None => {
            let range = range_of(draft)?;
            Ok(range.focus.key)
        }
    }
}

/// The table of a cell's row.
fn table_above(links: &Links, cell: Key) -> Option<Key>
    ensures { result ≡ spec.table_above links.now cell }
{
    links.parent(links.parent(cell)?)
}

/// The place of a cell in a table.
fn place_in(alloc: Global, links: &Links, table: Key, cell: Key) -> Result<Option<Place>, NoMemory>
    requires { total links.now ≤ most_cells }
    ensures place { IfOk result (λ place. option_map spec.place_seen place ≡ spec.place_below links.now cell (Some table)) }
    ensures small { IfOk result (λ place. IfSome place spec.IsSmallPlace) }
{
    let spots = spots_of(alloc, links, table)?;
    match spot_of(&spots, cell) {
        Some(spot) => Ok(Some(Place { table, spots, spot })),
        None => Ok(None),
    }
}

/// The place of a cell, where there is one.
fn place_of_cell(alloc: Global, links: &Links, cell: Option<Key>) -> Result<Option<Place>, NoMemory>
    requires { total links.now ≤ most_cells }
    ensures place { IfOk result (λ place. option_map spec.place_seen place ≡ spec.place_of_cell links.now cell) }
    ensures small { IfOk result (λ place. IfSome place spec.IsSmallPlace) }
{
    let Some(cell) = cell else {
        return Ok(None);
    };
    match table_above(links, cell) {
        Some(table) => place_in(alloc, links, table, cell),
        None => Ok(None),
    }
}

/// The cell by which a command goes: the focus itself, or the nearest above it. Where there is none it is refused with
/// `NoSelection` and what the selection is.
#[tactic(auto, unfolding(crate::specs::Places::place_of))]
pub(crate) fn place_of(alloc: Global, draft: &Draft) -> Result<Place, Fault>
    ensures gives { Gives (spec.place_of draft.now) spec.place_seen draft.now result }
    ensures small { IfOk result spec.IsSmallPlace }
{
    let focus = focus_of(draft)?;
    let links = draft.links();
    match place_of_cell(alloc, links, cell_from(links, focus))? {
        Some(place) => Ok(place),
        None => Err(no_range(draft.selection().kind())),
    }
}

/// The cell by which a command goes, once each cell of its table got the rows that it covers.
pub(crate) fn begin(alloc: Global, draft: &mut Draft) -> Result<Place, Fault>
    ensures ok { IfOk result (λ place. (command : spec.Place → Working → Result Working CauseOf) → spec.at_place command draft.old ≡ command (spec.place_seen place) draft.new) }
    ensures err { IfErr result (λ e. (command : spec.Place → Working → Result Working CauseOf) → TellsStep e (spec.at_place command draft.old)) }
    ensures standing { IfErr result (λ e. StillStands e draft.new) }
    ensures small { IfOk result spec.IsSmallPlace }
{
    let place = place_of(alloc, draft)?;
    set_heights(alloc, draft, &place.spots)?;
    Ok(place)
}
