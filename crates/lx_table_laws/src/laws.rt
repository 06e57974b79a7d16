//! What holds of a table's grid as rows come and go, and of the rectangle of cells that become one.

ghost use Rattle.lx_table_laws.specs.Laws.{RowsComeAndGo, RectanglesAreLeast, MergesGoByLeast};

/// A row that is inserted at the caret's cell can be deleted again: with the caret in one of its own cells, `delete_row` leaves
/// the grid of the table as it was, unless it is refused. This function does nothing, and its contract is this law.
pub fn rows_come_and_go()
    ensures { RowsComeAndGo }
{}

/// The rectangle of two cells is the least that holds both and whose edge no cell crosses. There is one such rectangle,
/// and the cells that start in it are those that it holds. This function does nothing, and its contract is these laws.
pub fn rectangles_are_least()
    ensures { RectanglesAreLeast }
{}

/// `merge_cells` merges the cells of that rectangle of the two selected ones, however it is found. This function does
/// nothing, and its contract is this law.
pub fn merges_go_by_least()
    ensures { MergesGoByLeast }
{}
