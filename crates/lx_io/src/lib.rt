//! Where bytes come from and go to: sources and sinks, in memory and over std's readers and writers.
//!
//! A source may show the bytes that it has left, and a sink the bytes that it took. Each has a count of
//! faults, which never falls, so that a fault that is answered can be held against it.
#![tactic(auto)]

mod count;
mod fault;
mod memory_sink;
mod memory_source;
mod sink;
mod source;
mod std_sink;
mod std_source;
mod sure_source;

pub use fault::Failed;
pub use memory_sink::MemorySink;
pub use memory_source::MemorySource;
pub use sink::Sink;
pub use source::Source;
pub use std_sink::StdSink;
pub use std_source::StdSource;
pub use sure_source::SureSource;
