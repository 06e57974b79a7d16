//! Documents: a JSON value is read as a draft of the tree that it describes, and a tree is written as the value that
//! describes it. `import` names the first thing in the value that isn't as it has to be, with its place as a JSON
//! pointer; `export` writes what `import` reads back as the same tree, up to keys.
#![tactic(auto)]

mod exporting;
mod growing;
mod importing;
mod marking;
mod nodes;
mod pieces;
mod places;
mod reading;

pub use exporting::export;
pub use importing::import;
pub use nodes::read_nodes;
