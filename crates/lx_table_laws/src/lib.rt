//! What commands of tables mean for a table's grid, in the words of those who write with an editor. The steps of `lx_table` say
//! how each command is made of edits; these are laws about such steps. There is no code here.
#![tactic(auto)]

mod laws;

pub use laws::{merges_go_by_least, rectangles_are_least, rows_come_and_go};
