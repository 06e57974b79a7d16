ghost use Rattle.std.specs.Prelude.{IfOk};
ghost use Rattle.lx_c.specs.Sessions.{HasRun};

use lx_cli::{Status, run};
use lx_io::{MemorySink, MemorySource};
use lx_node::NoMemory;
use std::alloc::Global;

/// Runs the program without arguments over a copy of the input, with room for so many bytes of replies: how it ended, and the sink
/// that has them.
#[tactic(auto, using(crate::proofs::Sessions::has_run))]
pub(crate) fn run_session(
    alloc: Global,
    input: &[u8],
    room: usize,
) -> Result<(Status, MemorySink), NoMemory>
    ensures { IfOk result (λ ended. HasRun ended.0 input.now ended.1.taken) }
{
    let mut source = MemorySource::new(input.to_vec(alloc)?, usize::MAX, Vec::new(alloc));
    let mut sink = MemorySink::new(alloc, room, usize::MAX, Vec::new(alloc))?;
    let status = run(alloc, &[], &mut source, &mut sink);
    Ok((status, sink))
}
