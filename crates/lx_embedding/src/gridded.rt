//! A table with a cell that reaches down, and the places that its cells take.

ghost use Rattle.std.specs.Prelude.{◌≤◌};
ghost use Rattle.lx_trees.specs.NamedTrees.{total};
ghost use Rattle.lx_table.specs.Spots.{most_cells};

use crate::editing::room;
use anyhow::Result;
use lx_editor::Editor;
use lx_links::Links;
use lx_node::{Fault, Key};
use lx_step::Tags;
use lx_table::{Grid, Spot, grid};
use std::alloc::Global;

/// Two rows: the first of two cells, whose first is in both rows, and the second of one.
const DOCUMENT: &str =
    r#"{"root":{"children":[{"children":[{"children":[{"rowSpan":2,"type":"tablecell"},{"type":"tablecell"}],"type":"tablerow"},{"children":[{"type":"tablecell"}],"type":"tablerow"}],"type":"table"}],"type":"root"}}"#;

/// The grid of the table, which is the first node of a document.
fn first_grid(alloc: Global, links: &Links) -> Result<Grid, Fault>
    requires { total links.now ≤ most_cells }
{
    grid(alloc, links, Key(1))
}

/// One cell with its place and its size.
fn tell_spot(alloc: Global, spot: &Spot) -> Result<String> {
    Ok(format!(in alloc;
        "{} at ({}, {}) is {} by {}",
        spot.cell.number(),
        spot.row,
        spot.column,
        spot.height,
        spot.width
    )?)
}

/// The cells with their places, and how many rows and columns there are.
fn tell_grid(alloc: Global, grid: &Grid) -> Result<String> {
    let mut told = format!(in alloc; "{} rows, {} columns", grid.rows(), grid.columns())?;
    for spot in grid.spots() {
        told.push_str(", ")?;
        told.push_str(tell_spot(alloc, spot)?.as_str())?;
    }
    Ok(told)
}

/// What the grid of the loaded table is.
pub(crate) fn places(alloc: Global) -> Result<String> {
    let mut editor = Editor::new(alloc, false, 1000)?;
    room(&editor)?;
    let document = serde_json::from_str(alloc, DOCUMENT)?;
    let _outcome = editor.load(alloc, &document, Tags::none(), 0)?;
    let grid = first_grid(alloc, &editor.state().links)?;
    tell_grid(alloc, &grid)
}
