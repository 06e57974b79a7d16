//! What commands of lists mean, in the words of those who write with an editor. The steps of `lx_list` say how each command is
//! made of edits; these are laws about those steps. There is no code here.
#![tactic(auto)]

mod levels;
mod making;
mod returning;
mod staying;

pub use levels::levels_come_and_go;
pub use making::lists_come_and_go;
pub use returning::blocks_come_back;
pub use staying::selections_stay;
