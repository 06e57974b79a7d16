//! Tests of sources and sinks, and of whole runs over them with reads and writes that are short or fail.
#![tactic(auto)]

#[cfg(test)]
mod devices;
#[cfg(test)]
mod runs;
