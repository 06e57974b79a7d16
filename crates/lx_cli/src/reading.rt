ghost use Rattle.std.specs.Prelude.{◌+◌, ◌<◌, ◌≤◌, length, vec_len, IfOk, IfErr};
ghost use Rattle.lx_node.specs.Limits.{last_u32};
ghost use Rattle.lx_serving.specs.Served.{spent};
ghost use Rattle.lx_cli.specs.Run.{input_limit, source_seen, sink_seen};
ghost use Rattle.lx_cli.specs.Steps.{IsUnended, GoesOnBy, HasStopped, moment};

use crate::session::{Session, Unanswered};
use crate::status::Status;
use lx_io::{Failed, Sink, Source};
use std::alloc::{AllocError, Global};

/// How many bytes the input may have.
const INPUT_LIMIT: usize = 16_777_216;

/// How many bytes are read at a time, at most.
const BUFFER_LENGTH: usize = 65_536;

/// Why no more is read.
#[derive(Clone, Copy)]
pub(crate) enum Stop {
    /// The input ended.
    End,
    /// A read failed.
    ReadFault,
    /// A write failed. A front of the replies was written.
    WriteFault,
    /// Memory ran out. A front of the replies was written.
    Memory,
    /// One byte more than the limit was read.
    TooLong,
}

impl Stop {
    ghost use Rattle.std.specs.Prelude.{◌≡◌};
    ghost use Rattle.lx_cli.specs.Steps.{stop_status};

    /// How the run ends.
    pub(crate) fn status(self) -> Status
        ensures { result ≡ stop_status self }
    {
        match self {
            Stop::End => Status::Done,
            Stop::ReadFault => Status::ReadFault,
            Stop::WriteFault => Status::WriteFault,
            Stop::Memory => Status::Memory,
            Stop::TooLong => Status::InputTooLong,
        }
    }
}

/// What the input is read into.
pub(crate) fn new_buffer(alloc: Global) -> Result<Vec<u8>, AllocError>
    ensures { IfOk result (λ buffer. 0 < vec_len buffer) }
{
    vec![in alloc; 0u8; BUFFER_LENGTH]
}

/// Reads a piece, of at most one byte more than may come, and takes it. That byte is cut off before.
fn read_piece<S: Source, K: Sink>(
    session: &mut Session,
    buffer: &mut [u8],
    may_come: usize,
    source: &mut S,
    sink: &mut K,
) -> Result<usize, Stop>
    requires buffer { 0 < length buffer.old }
    requires limit { may_come ≤ input_limit }
    requires unended { IsUnended session.old.pending.items }
    requires room { spent session.old.served + length session.old.pending.items + may_come < last_u32 }
    ensures read { IfOk result (λ count. GoesOnBy count may_come
        (moment session.old (source_seen S.left S.faults S.reads source.old) (sink_seen K.taken K.faults K.writes sink.old))
        (moment session.new (source_seen S.left S.faults S.reads source.new) (sink_seen K.taken K.faults K.writes sink.new))) }
    ensures stopped { IfErr result (λ stop. HasStopped stop may_come
        (moment session.old (source_seen S.left S.faults S.reads source.old) (sink_seen K.taken K.faults K.writes sink.old))
        (moment session.new (source_seen S.left S.faults S.reads source.new) (sink_seen K.taken K.faults K.writes sink.new))) }
{
    let room = buffer.len().min(may_come + 1);
    let into = &mut buffer[..room];
    let count = match source.read(into) {
        Ok(0) => return Err(Stop::End),
        Ok(count) => count,
        Err(Failed) => return Err(Stop::ReadFault),
    };
    let within = count.min(may_come);
    match session.take_piece(&into[..within], sink) {
        Ok(()) => {
            if within < count {
                return Err(Stop::TooLong);
            }
            Ok(count)
        }
        Err(Unanswered::WriteFault) => Err(Stop::WriteFault),
        Err(Unanswered::Memory) => Err(Stop::Memory),
    }
}

/// Reads the input and answers the lines that it ends, until one of the reasons to stop.
pub(crate) fn read_lines<S: Source, K: Sink>(
    session: &mut Session,
    buffer: &mut [u8],
    source: &mut S,
    sink: &mut K,
) -> Stop
    requires buffer { 0 < length buffer.old }
    requires unended { IsUnended session.old.pending.items }
    requires room { spent session.old.served + length session.old.pending.items + input_limit < last_u32 }
    ensures { HasStopped result input_limit
        (moment session.old (source_seen S.left S.faults S.reads source.old) (sink_seen K.taken K.faults K.writes sink.old))
        (moment session.new (source_seen S.left S.faults S.reads source.new) (sink_seen K.taken K.faults K.writes sink.new)) }
{
    let mut may_come = INPUT_LIMIT;
    loop {
        match read_piece(session, buffer, may_come, source, sink) {
            Ok(count) => may_come -= count,
            Err(stop) => return stop,
        }
    }
}
