//! Tables: where their cells are, and commands that change rows, columns and cells at the selection. A cell may span several
//! rows and columns, and rows may be ragged. Each command is made of the edits of a draft and of those in `lx_edit`, and is
//! refused only for a cause that its step names. A draft on which one was refused is only fit to be dropped.
//!
//! * `grid` says where each cell of a table is.
//! * `insert_table` goes by the focus of a range, or of cells that are selected.
//! * `insert_row`, `insert_column`, `delete_row`, `delete_column` and `unmerge` go by the cell of that focus.
//! * `merge_cells` goes by the cells that are selected.
//! * `select_cells` selects cells of a table and changes nothing else. A draft on which it was refused is as it was.
//!
//! Each but `grid`, `insert_table` and `select_cells` first gives each cell of the table the rows that it covers, by
//! one set for each cell in preorder, also where that changes nothing.
#![tactic(auto)]

mod caret;
mod cells;
mod columns;
mod deleting;
mod filling;
mod grids;
mod inserting;
mod laws;
mod lying;
mod merging;
mod narrowing;
mod places;
mod reading;
mod rectangles;
mod rows;
mod selecting;
mod spans;
mod spots;
mod unmerging;

pub use columns::insert_column;
pub use deleting::delete_row;
pub use filling::grid;
pub use grids::Grid;
pub use inserting::insert_table;
pub use laws::{grids_are_told, heights_keep_grids, tables_are_covered};
pub use merging::merge_cells;
pub use narrowing::delete_column;
pub use rows::insert_row;
pub use selecting::select_cells;
pub use spots::Spot;
pub use unmerging::unmerge;
