ghost use Rattle.lx_cli.specs.Run.{sink_seen};
ghost use Rattle.lx_cli.specs.Steps.{PieceEnds};

use lx_io::{Failed, Sink};

/// Writes all of a piece. A sink takes as much of it at a time as it likes.
pub(crate) fn write_all<K: Sink>(sink: &mut K, piece: &[u8]) -> Result<(), Failed>
    ensures { PieceEnds result piece.now
        (sink_seen K.taken K.faults K.writes sink.old)
        (sink_seen K.taken K.faults K.writes sink.new) }
{
    let mut start = 0;
    while start < piece.len() {
        match sink.write(&piece[start..]) {
            Ok(count) => start += count,
            Err(failed) => return Err(failed),
        }
    }
    Ok(())
}
