//! The grid of a table, found row by row.

ghost use Rattle.std.specs.Prelude.{◌≡◌, ◌+◌, ◌<◌, ◌≤◌, ◌++◌, ◌∷◌, [], All, IfOk, OnOk, IfErr, length, filter};
ghost use Rattle.std.specs.List.{insert};
ghost use Rattle.std.specs.Option.{option_or};
ghost use Rattle.lx_trees.specs.NamedTrees.{total};
ghost use Rattle.lx_node.specs.Kinds as kinds;
ghost use Rattle.lx_trees.specs.Siblings.{is_among};
ghost use Rattle.lx_forest.specs.Lookups as lookups;
ghost use Rattle.lx_links.specs.Faults.{unknown};
ghost use Rattle.lx_draft.specs.Faults.{TellsFault};
ghost use Rattle.lx_draft.specs.Selecting.{unlike};
ghost use Rattle.lx_table.specs.Filling as filling;
ghost use Rattle.lx_table.specs.Filling.{IsFilling, IsPlaced};
ghost use Rattle.lx_table.specs.Grid as spec;
ghost use Rattle.lx_table.specs.Spots.{most_cells, IsSmall};

use crate::grids::Grid;
use crate::spans::spans_of;
use crate::spots::{Spot, end_column, right, stands_in_row};
use lx_edit::children_of;
use lx_links::Links;
use lx_node::{Cause, Fault, Key, Kind, NoMemory};
use std::alloc::Global;

/// Where so many columns have room between cells that are in a row: from which column on, and after how many of the cells.
#[derive(Clone, Copy)]
struct Room {
    column: u32,
    passed: usize,
}

/// The first room between cells that are in a row, by their columns.
fn room_between(standing: &[Spot], width: u32) -> Room
    requires small { All IsSmall standing.now }
    requires width { width ≤ 1000 }
    ensures column { result.column ≡ filling.column_on standing.now width 0 }
    ensures passed { result.passed ≡ filling.passed_on standing.now width 0 }
{
    let mut column = 0;
    let mut passed = 0;
    for spot in standing {
        if column + width <= spot.column {
            return Room { column, passed };
        }
        column = right(spot).max(column);
        passed += 1;
    }
    Room { column, passed }
}

/// The cells that are in a row too, of those that are in the one above.
fn keep_standing(standing: &mut Vec<Spot>, row: u32)
    ensures { standing.new.items ≡ filling.still_standing row standing.old.items }
{
    standing.retain(|spot| stands_in_row(spot, row));
}

/// What a grid is found from: the nodes, the cells among them that are gone, and how many rows there are.
#[derive(Clone, Copy)]
struct Given<'a> {
    links: &'a Links,
    gone: &'a [Key],
    rows: u32,
}

/// The spots of the cells so far, and of these the ones that are in the row at hand, by their columns.
#[derive(Drop)]
struct Found {
    spots: Vec<Spot>,
    standing: Vec<Spot>,
}

/// Where a cell of a row is: at the first column where it has room between those that are there.
fn place_cell(standing: &[Spot], given: &Given<'_>, row: u32, cell: Key) -> Spot
    requires small { All IsSmall standing.now }
    requires row { row < given.now.rows }
    ensures { IsPlaced given.now.links.now given.now.rows row cell standing.now result }
{
    let spans = spans_of(given.links, cell);
    let width = spans.columns as u32;
    let height = (spans.rows as u32).min(given.rows - row);
    let column = room_between(standing, width).column;
    Spot {
        cell,
        row,
        column,
        height,
        width,
    }
}

/// Puts a cell between those that are in a row, by their columns.
#[tactic(auto, using(crate::proofs::Standing::passed_within))]
fn put_standing(standing: &mut Vec<Spot>, spot: &Spot) -> Result<(), NoMemory>
    requires small { All IsSmall standing.old.items }
    requires width { spot.now.width ≤ 1000 }
    ensures { OnOk result (standing.new.items ≡ insert standing.old.items (filling.passed_on standing.old.items spot.now.width 0) spot.now) }
{
    let passed = room_between(standing, spot.width).passed;
    standing.insert(passed, *spot)?;
    Ok(())
}

/// Adds the spot of a cell of a row.
fn add_cell(found: &mut Found, given: &Given<'_>, row: u32, cell: Key) -> Result<(), NoMemory>
    requires filling { IsFilling row found.old.spots.items found.old.standing.items }
    requires row { row < given.now.rows }
    requires rows { given.now.rows ≤ most_cells }
    requires few { length found.old.spots.items < most_cells }
    ensures spots { OnOk result (found.new.spots.items ≡ found.old.spots.items ++ spec.spot_behind given.now.links.now given.now.rows row found.old.spots.items cell ∷ []) }
    ensures filling { OnOk result (IsFilling row found.new.spots.items found.new.standing.items) }
{
    let spot = place_cell(&found.standing, given, row, cell);
    put_standing(&mut found.standing, &spot)?;
    found.spots.push(spot)?;
    Ok(())
}

/// Whether a key is one of these.
fn is_one_of(keys: &[Key], key: Key) -> bool
    ensures { result ≡ is_among key keys.now }
{
    keys.contains(&key)
}

/// Adds the spot of a cell of a row, unless it is gone.
fn add_unless_gone(
    found: &mut Found,
    given: &Given<'_>,
    row: u32,
    cell: Key,
) -> Result<(), NoMemory>
    requires filling { IsFilling row found.old.spots.items found.old.standing.items }
    requires row { row < given.now.rows }
    requires rows { given.now.rows ≤ most_cells }
    requires few { length found.old.spots.items < most_cells }
    ensures spots { OnOk result (found.new.spots.items ≡ spec.row_filled given.now.links.now given.now.rows row (filter (filling.is_left given.now.gone.now) (cell ∷ [])) found.old.spots.items) }
    ensures filling { OnOk result (IsFilling row found.new.spots.items found.new.standing.items) }
    ensures more { OnOk result (length found.new.spots.items ≤ length found.old.spots.items + 1) }
{
    if is_one_of(given.gone, cell) {
        Ok(())
    } else {
        add_cell(found, given, row, cell)
    }
}

/// Fills a row with its cells, but for those that are gone.
fn fill_row(found: &mut Found, given: &Given<'_>, row: u32, key: Key) -> Result<(), NoMemory>
    requires filling { IsFilling row found.old.spots.items found.old.standing.items }
    requires row { row < given.now.rows }
    requires rows { given.now.rows ≤ most_cells }
    requires few { length found.old.spots.items + lookups.size_of given.now.links.now key ≤ most_cells }
    ensures spots { OnOk result (found.new.spots.items ≡ spec.row_filled given.now.links.now given.now.rows row (spec.cells_left given.now.links.now given.now.gone.now key) found.old.spots.items) }
    ensures filling { OnOk result (IsFilling row found.new.spots.items found.new.standing.items) }
    ensures more { OnOk result (length found.new.spots.items ≤ length found.old.spots.items + lookups.size_of given.now.links.now key) }
{
    for cell in given.links.children(key) {
        add_unless_gone(found, given, row, cell)?;
    }
    Ok(())
}

/// The spots of a table that has these rows alone, without the cells that are gone.
pub(crate) fn spots_over(
    alloc: Global,
    links: &Links,
    gone: &[Key],
    keys: &[Key],
) -> Result<Vec<Spot>, NoMemory>
    requires rows { length keys.now ≤ most_cells }
    requires few { filling.cells_among links.now keys.now ≤ most_cells }
    ensures spots { IfOk result (λ spots. spots.items ≡ spec.spots_over links.now gone.now keys.now) }
    ensures small { IfOk result (λ spots. All IsSmall spots.items) }
{
    let given = Given {
        links,
        gone,
        rows: keys.len() as u32,
    };
    let mut found = Found {
        spots: Vec::new(alloc),
        standing: Vec::new(alloc),
    };
    let mut row = 0;
    for key in keys {
        keep_standing(&mut found.standing, row);
        fill_row(&mut found, &given, row, *key)?;
        row += 1;
    }
    Ok(found.spots)
}

/// The spots of a table.
#[tactic(auto, using(crate::proofs::Few::few_rows))]
pub(crate) fn spots_of(alloc: Global, links: &Links, table: Key) -> Result<Vec<Spot>, NoMemory>
    requires { total links.now ≤ most_cells }
    ensures spots { IfOk result (λ spots. spots.items ≡ spec.spots_of links.now table) }
    ensures small { IfOk result (λ spots. All IsSmall spots.items) }
{
    let keys = children_of(alloc, links, table)?;
    spots_over(alloc, links, &[], &keys)
}

/// It is no table.
#[tactic(auto, unfolding(lx_node::specs::Kinds::is_table))]
fn no_table(links: &Links, key: Key) -> Option<Cause>
    ensures { result ≡ unlike kinds.is_table (lookups.kind_of links.now key) }
{
    let kind = links.kind(key)?;
    match kind {
        Kind::Table => None,
        other => Some(Cause::WrongKind(other)),
    }
}

/// The grid of a table: each cell, in preorder, is at the first column at which its places in its own row are free. It
/// is in as many columns as it spans, and in as many rows, at most down to the last.
///
/// It is refused with `UnknownNode` where there is no such node, and with `WrongKind` and its kind where it isn't a table.
pub fn grid(alloc: Global, links: &Links, table: Key) -> Result<Grid, Fault>
    requires { total links.now ≤ most_cells }
    ensures ok { IfOk result (λ grid. grid ≡ spec.grid_of links.now table) }
    ensures err { IfErr result (λ e. TellsFault e (option_or (unknown links.now table) (unlike kinds.is_table (lookups.kind_of links.now table)))) }
{
    if let Some(cause) = links.missing(table).or_else(|| no_table(links, table)) {
        return Err(Fault::Cause(cause));
    }
    let spots = spots_of(alloc, links, table)?;
    let rows = links.size(table);
    let columns = end_column(&spots);
    Ok(Grid {
        spots,
        rows,
        columns,
    })
}
