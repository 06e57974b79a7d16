ghost use Rattle.std.specs.Prelude.{◌≢◌, ℕ, List, map, string_bytes};
ghost use Rattle.lx_cli.specs.Generating.{RunsAsAsked};
ghost use Rattle.lx_cli.specs.Run.{sink_seen};
ghost use Rattle.lx_cli.specs.Sure.{sure_seen};

use crate::program::run;
use crate::status::Status;
use lx_io::{Sink, SureSource};
use std::alloc::Global;

/// Runs the program over bytes that no read fails to give: it is `run`, and never ends with a read fault.
pub fn run_surely<K: Sink>(
    alloc: Global,
    words: &[String],
    source: &mut SureSource,
    sink: &mut K,
) -> Status
    ensures sure { result ≢ Status.ReadFault }
    ensures run { (read written : List ℕ) × RunsAsAsked result (record {
      words = map string_bytes words.now;
      read = read;
      written = written;
      source_before = sure_seen source.old;
      source_after = sure_seen source.new;
      sink_before = sink_seen K.taken K.faults K.writes sink.old;
      sink_after = sink_seen K.taken K.faults K.writes sink.new;
    }) }
{
    run(alloc, words, source, sink)
}
