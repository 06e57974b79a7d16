//! A column deleted.

ghost use Rattle.std.specs.Prelude.{◌≡◌, ◌≤◌, IfOk};
ghost use Rattle.lx_edit.specs.InTurn.{in_turn};
ghost use Rattle.lx_edit.specs.Edits.{remove_step};
ghost use Rattle.lx_edit.specs.Standing.{Does};
ghost use Rattle.lx_trees.specs.NamedTrees.{total};
ghost use Rattle.lx_forest.specs.Lookups as lookups;
ghost use Rattle.lx_table.specs.Grid as grid;
ghost use Rattle.lx_table.specs.Places as places;
ghost use Rattle.lx_table.specs.Shrinking as spec;
ghost use Rattle.lx_table.specs.Spots.{most_cells};

use crate::caret::set_caret_at;
use crate::deleting::{first_spot, replace_table};
use crate::filling::spots_over;
use crate::lying::{Lying, those_lying};
use crate::places::{Place, begin};
use crate::spans::set_spans;
use crate::spots::{Spot, end_column, spot_at, stands_in_column};
use lx_draft::Draft;
use lx_edit::{children_of, remove};
use lx_links::Links;
use lx_node::{Fault, Key, NoMemory};
use std::alloc::Global;

/// Whether a cell is in a column and in no other.
fn is_narrow_at(spot: &Spot, column: u32) -> bool
    ensures { result ≡ spec.is_narrow_at column spot.now }
{
    stands_in_column(spot, column) && spot.width == 1
}

/// The keys of the cells that are in a column and in no other.
fn narrow_cells(alloc: Global, spots: &[Spot], column: u32) -> Result<Vec<Key>, NoMemory>
    ensures { IfOk result (λ found. found.items ≡ spec.narrow_cells column spots.now) }
{
    Ok(
        spots
            .iter()
            .filter(|spot| is_narrow_at(spot, column))
            .map(|spot| spot.cell)
            .collect(alloc)?,
    )
}

/// Takes a column from each cell.
#[tactic(auto, unfolding(lx_edit::specs::InTurn::in_turn))]
fn narrow_each(alloc: Global, draft: &mut Draft, spots: &[Spot]) -> Result<(), Fault>
    ensures { Does (in_turn spec.narrower spots.now draft.old) draft.new result }
{
    for spot in spots {
        let narrower = Spot {
            width: spot.width.saturating_sub(1),
            ..*spot
        };
        set_spans(alloc, draft, &narrower)?;
    }
    Ok(())
}

/// Puts the caret into the cell that covers a place, or else the one that covers the place before it, or else the first cell.
fn set_caret_beside(draft: &mut Draft, left: &[Spot], row: u32, column: u32) -> Result<(), Fault>
    ensures { Does (spec.caret_beside left.now row column draft.old) draft.new result }
{
    let before = spot_at(left, row, column.saturating_sub(1));
    let near = before.or(first_spot(left));
    let spot = spot_at(left, row, column).or(near);
    set_caret_at(draft, &spot)
}

/// The spots of a table without these cells.
#[tactic(auto, using(crate::proofs::Few::few_rows))]
fn spots_without(
    alloc: Global,
    links: &Links,
    gone: &[Key],
    table: Key,
) -> Result<Vec<Spot>, NoMemory>
    requires { total links.now ≤ most_cells }
    ensures { IfOk result (λ left. left.items ≡ grid.spots_over links.now gone.now (lookups.children_of links.now table)) }
{
    let keys = children_of(alloc, links, table)?;
    spots_over(alloc, links, gone, &keys)
}

/// Removes cells, one after another.
#[tactic(auto, unfolding(lx_edit::specs::InTurn::in_turn))]
fn remove_each(draft: &mut Draft, cells: &[Key]) -> Result<(), Fault>
    ensures { Does (in_turn remove_step cells.now draft.old) draft.new result }
{
    for cell in cells {
        remove(draft, *cell)?;
    }
    Ok(())
}

/// Deletes the column of a cell: its cells lose it, and those that are in no other are removed. The only column goes with the
/// table.
#[tactic(auto, unfolding(crate::specs::Shrinking::column_taken))]
fn delete_column_of(alloc: Global, draft: &mut Draft, place: &Place) -> Result<(), Fault>
    requires { places.IsSmallPlace place.now }
    ensures { Does (spec.column_deleted (places.place_seen place.now) draft.old) draft.new result }
{
    if end_column(&place.spots) == 1 {
        return replace_table(alloc, draft, place.table);
    }
    let spot = &place.spot;
    let wide = those_lying(alloc, &place.spots, Lying::BesideColumn(spot.column))?;
    narrow_each(alloc, draft, &wide)?;
    let gone = narrow_cells(alloc, &place.spots, spot.column)?;
    let left = spots_without(alloc, draft.links(), &gone, place.table)?;
    set_caret_beside(draft, &left, spot.row, spot.column)?;
    remove_each(draft, &gone)
}

/// Deletes the first column of the caret's cell. A cell that is in other columns too loses it, and the others there are
/// removed. The caret goes to the cell that covers the place of the caret's cell then. Without one it goes to the cell in front of
/// that place, and else into the first cell. Where the table has one column, a new paragraph replaces it, with the caret in it.
///
/// It is refused for the same causes as `insert_row` but `BadPlace`.
#[tactic(auto, unfolding(crate::specs::Shrinking::delete_column_step))]
pub fn delete_column(alloc: Global, draft: &mut Draft) -> Result<(), Fault>
    ensures { Does (spec.delete_column_step draft.old) draft.new result }
{
    let place = begin(alloc, draft)?;
    delete_column_of(alloc, draft, &place)
}
