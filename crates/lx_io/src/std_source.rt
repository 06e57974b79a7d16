ghost use Rattle.std.specs.Prelude.{◌≡◌, ◌≤◌, length, IfOk};
ghost use Rattle.std.specs.Io.KnownBytes.{ReadConsumes};
ghost use Rattle.lx_io.specs.Devices.{HasCause};
ghost use Rattle.lx_io.specs.Std.{new_std};

use crate::count::one_more;
use crate::fault::Failed;
use crate::source::Source;
use std::io::Read;
use std::marker::Model;

/// A source over one of std's readers. It counts the reader's errors.
#[derive(Drop)]
pub struct StdSource<R: Read + Drop> {
    inner: R,
    faults: u64,
}

impl<R: Read + Drop> Model for StdSource<R> {
    ghost use Rattle.lx_io.specs.Std.{StdState};

    ghost Value = { StdState };

    ghost view = { λ s. record { known = R.remaining s.inner; faults = s.faults } };
}

impl<R: Read + Drop> StdSource<R> {
    /// A source over this reader, which has not failed.
    pub fn new(inner: R) -> StdSource<R>
        ensures { result ≡ new_std (R.remaining inner) }
    {
        StdSource { inner, faults: 0 }
    }
}

impl<R: Read + Drop> Source for StdSource<R> {
    ghost use Rattle.std.specs.Prelude.{None};

    ghost left = { λ _. None };

    ghost faults = { λ s. s.faults };

    ghost reads = { λ _. None };

    /// Reads once. Where the reader shows its bytes, those that are given are the front of them.
    fn read(&mut self, into: &mut [u8]) -> Result<usize, Failed>
        ensures known { ReadConsumes self.old.known self.new.known result into.new }

        // What each source promises. The rest of that says nothing of one that shows no bytes and no reads.
        ensures within { IfOk result (λ n. n ≤ length into.old) }
        ensures cause { HasCause self.old.faults self.new.faults result }
    {
        match self.inner.read(into) {
            Ok(count) => Ok(count),
            Err(_) => {
                self.faults = one_more(self.faults);
                Err(Failed)
            }
        }
    }
}

#[cfg(test)]
mod tests {
    use super::StdSource;
    use crate::{Failed, Source};
    use std::io;
    use std::io::{ErrorKind, Read};

    /// A reader of one byte at a time, whose first read fails.
    #[derive(Drop)]
    struct FailsFirst {
        reads: u64,
    }

    impl Read for FailsFirst {
        fn read(&mut self, buf: &mut [u8]) -> io::Result<usize> {
            self.reads = self.reads.saturating_add(1);
            if self.reads < 2 || buf.is_empty() {
                return Err(ErrorKind::Other.into());
            }
            buf[0] = b'a';
            Ok(1)
        }
    }

    fn read_any(source: &mut impl Source, into: &mut [u8]) -> Result<usize, Failed> {
        source.read(into)
    }

    #[test]
    fn counts_the_error_and_reads_on(rt: HostRuntime) {
        let mut source = StdSource::new(FailsFirst { reads: 0 });
        let mut buffer = *b"..";
        assert!(rt; matches!(source.read(&mut buffer), Err(Failed)));
        assert_eq!(rt; source.faults, 1);
        assert!(rt; matches!(source.read(&mut buffer), Ok(1)));
        assert_eq!(rt; source.faults, 1);
        assert_eq!(rt; buffer, *b"a.");
    }

    #[test]
    fn reads_a_slice_to_its_end(rt: HostRuntime) {
        let mut source = StdSource::new(b"abc".as_slice());
        let mut buffer = *b"..";
        assert!(rt; matches!(source.read(&mut buffer), Ok(2)));
        assert!(rt; matches!(source.read(&mut buffer), Ok(1)));
        assert_eq!(rt; buffer, *b"cb");
        assert!(rt; matches!(read_any(&mut source, &mut buffer), Ok(0)));
    }
}
