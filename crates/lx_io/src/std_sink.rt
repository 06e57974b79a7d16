ghost use Rattle.std.specs.Prelude.{◌≡◌, ◌<◌, ◌≤◌, length, IfOk};
ghost use Rattle.std.specs.Io.KnownBytes.{WriteAppends};
ghost use Rattle.lx_io.specs.Devices.{HasCause};
ghost use Rattle.lx_io.specs.Std.{new_std};

use crate::count::one_more;
use crate::fault::Failed;
use crate::sink::Sink;
use std::io::Write;
use std::marker::Model;

/// A sink over one of std's writers. It counts the writer's errors, and the writes that took nothing of a
/// piece that isn't empty. It never flushes: std's standard output doesn't keep bytes back.
#[derive(Drop)]
pub struct StdSink<W: Write + Drop> {
    inner: W,
    faults: u64,
}

impl<W: Write + Drop> Model for StdSink<W> {
    ghost use Rattle.lx_io.specs.Std.{StdState};

    ghost Value = { StdState };

    ghost view = { λ s. record { known = W.contents s.inner; faults = s.faults } };
}

impl<W: Write + Drop> StdSink<W> {
    /// A sink over this writer, which has not failed.
    pub fn new(inner: W) -> StdSink<W>
        ensures { result ≡ new_std (W.contents inner) }
    {
        StdSink { inner, faults: 0 }
    }
}

impl<W: Write + Drop> Sink for StdSink<W> {
    ghost use Rattle.std.specs.Prelude.{None};

    ghost taken = { λ _. None };

    ghost faults = { λ s. s.faults };

    ghost writes = { λ _. None };

    /// Writes once. Where the writer shows its bytes, those that are answered went after them, and no
    /// others.
    fn write(&mut self, piece: &[u8]) -> Result<usize, Failed>
        ensures known { WriteAppends self.old.known self.new.known result piece.now }

        // What each sink promises. The rest of that says nothing of one that shows no bytes and no writes.
        ensures within { IfOk result (λ n. n ≤ length piece.now) }
        ensures some { IfOk result (λ n. 0 < length piece.now → 0 < n) }
        ensures cause { HasCause self.old.faults self.new.faults result }
    {
        match self.inner.write(piece) {
            Ok(count) if 0 < count || piece.is_empty() => Ok(count),
            _ => {
                self.faults = one_more(self.faults);
                Err(Failed)
            }
        }
    }
}

#[cfg(test)]
mod tests {
    use super::StdSink;
    use crate::{Failed, Sink};

    fn write_any(sink: &mut impl Sink, piece: &[u8]) -> Result<usize, Failed> {
        sink.write(piece)
    }

    #[test]
    fn counts_a_write_that_took_nothing(rt: HostRuntime) {
        let mut bytes = *b"..";
        let mut sink = StdSink::new(bytes.as_mut_slice());
        assert!(rt; matches!(sink.write(b"abc"), Ok(2)));
        assert!(rt; matches!(write_any(&mut sink, b""), Ok(0)));
        assert_eq!(rt; sink.faults, 0);
        assert!(rt; matches!(sink.write(b"c"), Err(Failed)));
        assert_eq!(rt; sink.faults, 1);
        let StdSink {
            inner: _,
            faults: _,
        } = sink;
        assert_eq!(rt; bytes, *b"ab");
    }
}
