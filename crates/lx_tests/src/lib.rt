//! Tests of the libraries: what no clause says and no line shows. Clauses don't say that a call succeeds where memory is
//! ample, how often an item is copied, in which of the allowed orders moves come, nor that what was forked or copied shares
//! nothing that is written. The table of kinds is laid beside the documented one.
//!
//! They are here since a crate with tests is proved twice. What steps make of a state is shown by the program `lx_examples`,
//! and replies to lines by the program `lx_rows`, whose input and output are stored.
#![tactic(auto)]

#[cfg(test)]
mod copies;
#[cfg(test)]
mod drafts;
#[cfg(test)]
mod hosts;
#[cfg(test)]
mod kinds;
#[cfg(test)]
mod links;
#[cfg(test)]
mod moves;
#[cfg(test)]
mod stores;
#[cfg(test)]
mod told;
