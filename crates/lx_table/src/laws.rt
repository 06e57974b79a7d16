//! What holds of grids, and of every command of tables, for the crates above.

ghost use Rattle.lx_table.specs.Laws.{GridsAreTold, HeightsKeepGrids, TablesAreCovered};

/// The grid that is found is a grid of the table: each cell, in preorder, in its own row, with its own spans, at the first
/// column where its places there are free. A table has one grid alone, and no two cells of it share a place. This function
/// does nothing, and its contract is these laws.
pub fn grids_are_told()
    ensures { GridsAreTold }
{}

/// Each cell of a table gets the rows that it covers, as every command but `insert_table` begins, and the grid of the
/// table stays as it was. This function does nothing, and its contract is this law.
pub fn heights_keep_grids()
    ensures { HeightsKeepGrids }
{}

/// Marks show whatever a command changes, as they do of the edits that commands are made of. This function does nothing,
/// and its contract is these laws.
pub fn tables_are_covered()
    ensures { TablesAreCovered }
{}
