ghost use Rattle.std.specs.Prelude.{◌≡◌, ◌<◌, ◌≤◌, ◌++◌, length, take, drop, is_err, IfOk, OnErr};
ghost use Rattle.lx_io.specs.Devices.{Consumes, IsAtEnd, HasCause, IsCounted};
ghost use Rattle.lx_io.specs.Memory.{new_source, fails_read, read_length, after_read, after_failed_read};

use crate::count::one_more;
use crate::fault::Failed;
use crate::source::Source;
use std::marker::Model;

/// A source of bytes in memory, which fails at the reads that it is told to fail at.
#[derive(Drop)]
pub struct MemorySource {
    bytes: Vec<u8>,
    /// How many of the bytes were read.
    start: usize,
    at_most: usize,
    failing: Vec<u64>,
    calls: u64,
    faults: u64,
}

impl Model for MemorySource {
    ghost use Rattle.std.specs.Prelude.{◌≤◌, length, drop};
    ghost use Rattle.lx_io.specs.Memory.{SourceState};

    ghost Value = { SourceState };

    ghost view = { λ s. record { left = drop s.start s.bytes.items; at_most = s.at_most; failing = s.failing.items; calls = s.calls; faults = s.faults } };

    ghost invariant = { λ s. s.start ≤ length s.bytes.items };
}

impl MemorySource {
    /// A source of these bytes. A read gives at most `at_most` bytes (0 counts as 1), and fails where its
    /// number, from 1, is in `failing`. From read 2^64 - 1 on each has that number.
    pub fn new(bytes: Vec<u8>, at_most: usize, failing: Vec<u64>) -> MemorySource
        ensures { result ≡ new_source bytes.items at_most failing.items }
    {
        MemorySource {
            bytes,
            start: 0,
            at_most,
            failing,
            calls: 0,
            faults: 0,
        }
    }
}

impl Source for MemorySource {
    ghost use Rattle.std.specs.Prelude.{Some};

    ghost left = { λ s. Some s.left };

    ghost faults = { λ s. s.faults };

    ghost reads = { λ s. Some s.calls };

    /// Reads in time linear in the bytes that it gives and the length of the list of failing reads. A read
    /// that fails leaves the buffer as it was.
    fn read(&mut self, into: &mut [u8]) -> Result<usize, Failed>
        ensures fails { is_err result ≡ fails_read self.old }
        ensures count { IfOk result (λ n. n ≡ read_length self.old (length into.old)) }
        ensures after { IfOk result (λ n. self.new ≡ after_read self.old n) }
        ensures buffer { IfOk result (λ n. into.new ≡ take n self.old.left ++ drop n into.old) }
        ensures after_failed { OnErr result (self.new ≡ after_failed_read self.old) }
        ensures buffer_failed { OnErr result (into.new ≡ into.old) }

        // What each source promises.
        ensures within { IfOk result (λ n. n ≤ length into.old) }
        ensures front { IfOk result (λ n. Consumes (Some self.old.left) (Some self.new.left) (take n into.new)) }
        ensures end { IfOk result (λ n. n ≡ 0 → 0 < length into.old → IsAtEnd (Some self.new.left)) }
        ensures failed { OnErr result (Some self.new.left ≡ Some self.old.left) }
        ensures cause { HasCause self.old.faults self.new.faults result }
        ensures counted { IsCounted (Some self.old.calls) (Some self.new.calls) 1 }
    {
        self.calls = one_more(self.calls);
        if self.failing.contains(&self.calls) {
            self.faults = one_more(self.faults);
            return Err(Failed);
        }
        let left = &self.bytes[self.start..];
        let count = self.at_most.max(1).min(into.len()).min(left.len());
        into[..count].copy_from_slice(&left[..count]);
        self.start += count;
        Ok(count)
    }
}
