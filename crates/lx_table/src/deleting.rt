//! A row deleted.

ghost use Rattle.std.specs.Prelude.{◌≡◌, ◌≤◌, [], All, IfOk};
ghost use Rattle.std.specs.List.{list_all};
ghost use Rattle.lx_edit.specs.InTurn.{in_turn};
ghost use Rattle.lx_edit.specs.Standing.{Does};
ghost use Rattle.lx_trees.specs.NamedTrees.{total};
ghost use Rattle.lx_forest.specs.Lookups as lookups;
ghost use Rattle.lx_links.specs.Stands.{Sound};
ghost use Rattle.lx_table.specs.Grid as grid;
ghost use Rattle.lx_table.specs.Places as places;
ghost use Rattle.lx_table.specs.Shrinking as spec;
ghost use Rattle.lx_table.specs.Spots.{most_cells, IsSmall};

use crate::caret::{set_caret, set_caret_at};
use crate::filling::spots_over;
use crate::lying::{Lying, those_lying};
use crate::places::{Place, begin};
use crate::reading::own_index;
use crate::spans::set_spans;
use crate::spots::{Spot, spot_at};
use lx_draft::Draft;
use lx_edit::{children_of, element_point, remove, replace};
use lx_links::Links;
use lx_node::{Fault, Fields, Key, Kind, NoMemory};
use std::alloc::Global;

/// Puts a new paragraph in the place of a table, and the caret into it.
#[tactic(auto, unfolding(crate::specs::Shrinking::table_replaced), using(lx_blocks::proofs::Labelled::paragraph_suits))]
pub(crate) fn replace_table(alloc: Global, draft: &mut Draft, table: Key) -> Result<(), Fault>
    ensures { Does (spec.table_replaced table draft.old) draft.new result }
{
    let paragraph = draft.new_node(Kind::Paragraph, Fields::plain_element(alloc))?;
    replace(alloc, draft, table, paragraph, false)?;
    set_caret(draft, &element_point(paragraph, 0))
}

fn is_in_row_alone(spot: &Spot, row: u32) -> bool
    ensures { result ≡ spec.is_in_row_alone row spot.now }
{
    spot.row == row && spot.height == 1
}

/// Whether each cell is in a row and in no other.
fn are_in_row_alone(spots: &[Spot], row: u32) -> bool
    ensures { result ≡ list_all (spec.is_in_row_alone row) spots.now }
{
    spots.iter().all(|spot| is_in_row_alone(spot, row))
}

/// Takes a row from a cell.
fn lower(alloc: Global, draft: &mut Draft, spot: &Spot) -> Result<(), Fault>
    ensures { Does (spec.lower spot.now draft.old) draft.new result }
{
    let lower = Spot {
        height: spot.height.saturating_sub(1),
        ..*spot
    };
    set_spans(alloc, draft, &lower)
}

/// Takes a row from each cell.
#[tactic(auto, unfolding(lx_edit::specs::InTurn::in_turn))]
fn lower_each(alloc: Global, draft: &mut Draft, spots: &[Spot]) -> Result<(), Fault>
    ensures { Does (in_turn spec.lower spots.now draft.old) draft.new result }
{
    for spot in spots {
        lower(alloc, draft, spot)?;
    }
    Ok(())
}

/// Moves a cell into the next row, before the first own cell there of a greater column.
#[tactic(auto, unfolding(crate::specs::Shrinking::moved_down))]
fn move_down(
    alloc: Global,
    draft: &mut Draft,
    spots: &[Spot],
    next: Key,
    spot: &Spot,
) -> Result<(), Fault>
    requires { IsSmall spot.now }
    ensures { Does (spec.moved_down spots.now next spot.now draft.old) draft.new result }
{
    lower(alloc, draft, spot)?;
    draft.take(spot.cell)?;
    let index = own_index(draft.links(), spots, next, spot.row + 1, spot.column + 1);
    draft.put(spot.cell, next, index)
}

/// Moves cells into the next row.
#[tactic(auto, unfolding(lx_edit::specs::InTurn::in_turn))]
fn move_each_down(
    alloc: Global,
    draft: &mut Draft,
    spots: &[Spot],
    next: Key,
    moved: &[Spot],
) -> Result<(), Fault>
    requires { All IsSmall moved.now }
    ensures { Does (in_turn (spec.moved_down spots.now next) moved.now draft.old) draft.new result }
{
    for spot in moved {
        move_down(alloc, draft, spots, next, spot)?;
    }
    Ok(())
}

/// Moves the cells that start in a row and go on below into the next one, where there is one.
fn move_all_down(
    alloc: Global,
    draft: &mut Draft,
    spots: &[Spot],
    row: u32,
    next: Option<Key>,
) -> Result<(), Fault>
    requires { All IsSmall spots.now }
    ensures { Does (spec.all_moved_down spots.now row next draft.old) draft.new result }
{
    match next {
        Some(next) => {
            let moved = those_lying(alloc, spots, Lying::DownFromRow(row))?;
            move_each_down(alloc, draft, spots, next, &moved)
        }
        None => Ok(()),
    }
}

/// A list without what is at an index.
#[tactic(auto, using(crate::proofs::Without::all_left))]
fn take_out(keys: &mut Vec<Key>, index: u32)
    ensures { keys.new.items ≡ spec.without_at index keys.old.items }
{
    let at = index as usize;
    if at < keys.len() {
        let _gone = keys.remove(at);
    }
}

/// The rows of a table without the one at an index.
fn rows_without(alloc: Global, links: &Links, table: Key, index: u32) -> Result<Vec<Key>, NoMemory>
    ensures keys { IfOk result (λ keys. keys.items ≡ spec.without_at index (lookups.children_of links.now table)) }
    ensures sound { Sound links.now }
{
    let mut keys = children_of(alloc, links, table)?;
    take_out(&mut keys, index);
    Ok(keys)
}

/// The spots of a table that has these rows alone, which are rows of a table.
#[tactic(auto, using(crate::proofs::Without::few_rows_without))]
fn spots_without_row(
    alloc: Global,
    links: &Links,
    table: Key,
    row: u32,
    keys: &[Key],
) -> Result<Vec<Spot>, NoMemory>
    requires sound { Sound links.now }
    requires few { total links.now ≤ most_cells }
    requires keys { keys.now ≡ spec.without_at row (lookups.children_of links.now table) }
    ensures { IfOk result (λ spots. spots.items ≡ grid.spots_over links.now [] keys.now) }
{
    spots_over(alloc, links, &[], keys)
}

/// The first of a list.
pub(crate) fn first_spot(spots: &[Spot]) -> Option<Spot>
    ensures { result ≡ spec.first_spot spots.now }
{
    spots.first().copied()
}

/// Puts the caret into the cell that covers a place, or else into the first cell.
fn set_caret_near(draft: &mut Draft, left: &[Spot], row: u32, column: u32) -> Result<(), Fault>
    ensures { Does (spec.caret_near left.now row column draft.old) draft.new result }
{
    let spot = spot_at(left, row, column).or(first_spot(left));
    set_caret_at(draft, &spot)
}

/// Puts the caret where a cell's place is in a table without a row.
fn set_caret_without_row(
    alloc: Global,
    draft: &mut Draft,
    table: Key,
    row: u32,
    column: u32,
) -> Result<(), Fault>
    ensures { Does (spec.caret_without_row (spec.without_at row (lookups.children_of draft.old.forest table)) row column draft.old) draft.new result }
{
    let keys = rows_without(alloc, draft.links(), table, row)?;
    let left = spots_without_row(alloc, draft.links(), table, row, &keys)?;
    let last = keys.len().saturating_sub(1);
    let near = (row as usize).min(last) as u32;
    set_caret_near(draft, &left, near, column)
}

/// Removes the row at an index, where there is one.
fn remove_row(draft: &mut Draft, row: Option<Key>) -> Result<(), Fault>
    ensures { Does (spec.row_removed row draft.old) draft.new result }
{
    match row {
        Some(key) => remove(draft, key),
        None => Ok(()),
    }
}

/// Deletes the row of a cell. Cells that come from above or go on below lose it, and stay. Where no other cell is in the table,
/// that goes.
#[tactic(auto, unfolding(crate::specs::Shrinking::row_taken))]
fn delete_row_of(alloc: Global, draft: &mut Draft, place: &Place) -> Result<(), Fault>
    requires { places.IsSmallPlace place.now }
    ensures { Does (spec.row_deleted (places.place_seen place.now) draft.old) draft.new result }
{
    let row = place.spot.row;
    if are_in_row_alone(&place.spots, row) {
        return replace_table(alloc, draft, place.table);
    }
    let above = those_lying(alloc, &place.spots, Lying::AcrossRow(row))?;
    lower_each(alloc, draft, &above)?;
    let next = draft.links().child_at(place.table, row + 1);
    move_all_down(alloc, draft, &place.spots, row, next)?;
    set_caret_without_row(alloc, draft, place.table, row, place.spot.column)?;
    let key = draft.links().child_at(place.table, row);
    remove_row(draft, key)
}

/// Deletes the first row of the caret's cell. A cell that comes from above loses the row. One that goes on below loses it too,
/// and goes into the next row, before the first own cell there of a greater column. The caret goes to the cell that covers the
/// place of the caret's cell then, in the last row where none has that index, and else into the first cell. Where each cell of
/// the table is in this row alone, a new paragraph replaces the table, with the caret in it.
///
/// It is refused for the same causes as `insert_row` but `BadPlace`.
#[tactic(auto, unfolding(crate::specs::Shrinking::delete_row_step))]
pub fn delete_row(alloc: Global, draft: &mut Draft) -> Result<(), Fault>
    ensures { Does (spec.delete_row_step draft.old) draft.new result }
{
    let place = begin(alloc, draft)?;
    delete_row_of(alloc, draft, &place)
}
