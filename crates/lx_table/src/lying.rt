//! How cells lie to a row or a column.

ghost use Rattle.std.specs.Prelude.{◌≡◌, filter, IfOk};
ghost use Rattle.lx_table.specs.Growing as growing;
ghost use Rattle.lx_table.specs.Shrinking as spec;

use crate::spots::{Spot, stands_in_column, stands_in_row};
use lx_node::NoMemory;
use std::alloc::Global;

/// How a cell may lie to a row or a column.
#[derive(Clone, Copy)]
pub(crate) enum Lying {
    /// It starts above this row, and is in it too.
    AcrossRow(u32),
    /// It starts in this row, and goes on below.
    DownFromRow(u32),
    /// It is in this column, and in others too.
    BesideColumn(u32),
}

fn crosses_row(spot: &Spot, row: u32) -> bool
    ensures { result ≡ growing.crosses_row row spot.now }
{
    spot.row < row && stands_in_row(spot, row)
}

fn goes_below(spot: &Spot, row: u32) -> bool
    ensures { result ≡ spec.goes_below row spot.now }
{
    spot.row == row && 1 < spot.height
}

fn is_wide_at(spot: &Spot, column: u32) -> bool
    ensures { result ≡ spec.is_wide_at column spot.now }
{
    stands_in_column(spot, column) && spot.width != 1
}

fn lies(spot: &Spot, lying: Lying) -> bool
    ensures { result ≡ spec.lies lying spot.now }
{
    match lying {
        Lying::AcrossRow(row) => crosses_row(spot, row),
        Lying::DownFromRow(row) => goes_below(spot, row),
        Lying::BesideColumn(column) => is_wide_at(spot, column),
    }
}

/// The cells that lie so.
pub(crate) fn those_lying(
    alloc: Global,
    spots: &[Spot],
    lying: Lying,
) -> Result<Vec<Spot>, NoMemory>
    ensures { IfOk result (λ found. found.items ≡ filter (spec.lies lying) spots.now) }
{
    Ok(
        spots
            .iter()
            .filter(|spot| lies(spot, lying))
            .copied()
            .collect(alloc)?,
    )
}
