//! A table inserted.

ghost use Rattle.std.specs.Prelude.{◌≡◌, ◌≤◌, if◌then◌else◌};
ghost use Rattle.lx_edit.specs.InTurn.{in_turn};
ghost use Rattle.lx_edit.specs.Standing.{Does};
ghost use Rattle.lx_edit.specs.Texts.{keys_from};
ghost use Rattle.lx_forest.specs.Lookups as lookups;
ghost use Rattle.lx_table.specs.Making as spec;

use crate::caret::set_caret_in;
use crate::cells::make_cell;
use crate::places::focus_of;
use lx_blocks::outer_block;
use lx_draft::Draft;
use lx_edit::admitted;
use lx_links::Links;
use lx_node::{Cause, Fault, Fields, Key, Kind};
use std::alloc::Global;

/// A bit of a header, if it is set.
fn bit_if(is_set: bool, bit: u8) -> u8
    ensures bit { result ≡ (if is_set then bit else 0) }
    ensures within { result ≤ bit }
{
    if is_set { bit } else { 0 }
}

/// The header of a cell of a new table: of a row in the first row, and of a column in the first column.
fn header_in(headers: bool, row: u32, column: u32) -> u8
    ensures header { result ≡ spec.headers_at headers row column }
    ensures within { result ≤ 3 }
{
    if headers {
        bit_if(row == 0, 1) + bit_if(column == 0, 2)
    } else {
        0
    }
}

/// How many rows and columns a new table has, and whether its first ones have headers.
#[derive(Clone, Copy)]
struct Layout {
    rows: u32,
    columns: u32,
    headers: bool,
}

/// Makes a cell of a new row at a column.
fn make_cell_at(
    alloc: Global,
    draft: &mut Draft,
    headers: bool,
    row: u32,
    key: Key,
    column: u32,
) -> Result<(), Fault>
    ensures { Does (spec.cell_made_at headers row key column draft.old) draft.new result }
{
    let header = header_in(headers, row, column);
    make_cell(alloc, draft, header, key, column)
}

/// Fills a row of a new table with its cells.
#[tactic(auto, unfolding(lx_edit::specs::InTurn::in_turn), using(crate::proofs::Counting::counted))]
fn make_row_cells(
    alloc: Global,
    draft: &mut Draft,
    layout: Layout,
    row: u32,
    key: Key,
) -> Result<(), Fault>
    ensures { Does (in_turn (spec.cell_made_at layout.headers row key) (keys_from 0 layout.columns) draft.old) draft.new result }
{
    let columns = layout.columns;
    for column in 0..columns {
        make_cell_at(alloc, draft, layout.headers, row, key, column)?;
    }
    Ok(())
}

/// Makes a row with its cells, and puts it after the rows of a new table.
#[tactic(auto, unfolding(crate::specs::Making::row_made), using(crate::proofs::Suits::row_suits))]
fn make_row(
    alloc: Global,
    draft: &mut Draft,
    layout: Layout,
    table: Key,
    row: u32,
) -> Result<(), Fault>
    ensures { Does (spec.row_made layout.headers layout.columns table row draft.old) draft.new result }
{
    let key = draft.new_node(Kind::Row, Fields::plain_element(alloc))?;
    make_row_cells(alloc, draft, layout, row, key)?;
    draft.put(key, table, row)
}

/// Makes the rows of a new table.
#[tactic(auto, unfolding(lx_edit::specs::InTurn::in_turn), using(crate::proofs::Counting::counted))]
fn make_rows(alloc: Global, draft: &mut Draft, layout: Layout, table: Key) -> Result<(), Fault>
    ensures { Does (in_turn (spec.row_made layout.headers layout.columns table) (keys_from 0 layout.rows) draft.old) draft.new result }
{
    let rows = layout.rows;
    for row in 0..rows {
        make_row(alloc, draft, layout, table, row)?;
    }
    Ok(())
}

/// The first cell of a table.
fn first_cell(links: &Links, table: Key) -> Option<Key>
    ensures { result ≡ spec.first_cell links.now table }
{
    links.first(links.first(table)?)
}

/// Puts the caret into a cell, where there is one.
fn set_caret_in_cell(draft: &mut Draft, cell: Option<Key>) -> Result<(), Fault>
    ensures { Does (spec.caret_in_cell cell draft.old) draft.new result }
{
    match cell {
        Some(cell) => set_caret_in(draft, cell),
        None => Ok(()),
    }
}

/// Makes a table, puts it after a node, and the caret into its first cell.
#[tactic(auto, unfolding(crate::specs::Making::table_made), using(crate::proofs::Suits::table_suits))]
fn make_table(alloc: Global, draft: &mut Draft, layout: Layout, place: Key) -> Result<(), Fault>
    ensures { Does (spec.table_made layout.rows layout.columns layout.headers place draft.old) draft.new result }
{
    let table = draft.new_node(Kind::Table, Fields::plain_element(alloc))?;
    make_rows(alloc, draft, layout, table)?;
    draft.put_behind(table, place)?;
    let cell = first_cell(draft.links(), table);
    set_caret_in_cell(draft, cell)
}

/// Nothing that holds the focus is in the root or in a cell.
fn no_place(links: &Links, focus: Key) -> Option<Cause>
    ensures { result ≡ spec.place_fault (lookups.kind_of links.now focus) }
{
    Some(Cause::WrongKind(links.kind(focus)?))
}

/// Inserts a table of so many rows and columns. It comes after the node of the focus or the nearest above that, whichever
/// is in the root or in a cell. Each of its cells has an empty paragraph. With headers, the cells of the first row have
/// headers of rows, and those of the first column headers of columns. The caret goes to the start of the first cell.
///
/// It is refused
/// * with `NoSelection` and what the selection is, where that is no range and no cells;
/// * so too where a point or a key of it doesn't lie in the root's tree, and where one point lies in another cell than the
///   other;
/// * with `WrongKind` and the kind of the focus's node, where nothing that holds the focus is in the root or in a cell;
/// * as the edits are of which it is made, where 100,000 counts were taken, and where what was written would come above
///   16,777,216 scalar values.
#[tactic(auto, unfolding(crate::specs::Making::insert_table_step))]
pub fn insert_table(
    alloc: Global,
    draft: &mut Draft,
    rows: u16,
    columns: u16,
    headers: bool,
) -> Result<(), Fault>
    ensures { Does (spec.insert_table_step rows columns headers draft.old) draft.new result }
{
    let focus = focus_of(draft)?;
    match outer_block(draft.links(), focus) {
        Some(place) => {
            let layout = Layout {
                rows: rows as u32,
                columns: columns as u32,
                headers,
            };
            make_table(alloc, draft, layout, place)
        }
        None => {
            let fault = no_place(draft.links(), focus);
            admitted(draft, fault)?;
            Ok(())
        }
    }
}
