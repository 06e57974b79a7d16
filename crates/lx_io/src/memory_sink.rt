ghost use Rattle.std.specs.Prelude.{◌≡◌, ◌<◌, ◌≤◌, length, take, is_err, IfOk, OnErr};
ghost use Rattle.lx_io.specs.Devices.{Appends, HasCause, IsCounted};
ghost use Rattle.lx_io.specs.Memory.{new_sink, fails_write, write_length, after_write, after_failed_write};

use crate::count::one_more;
use crate::fault::Failed;
use crate::sink::Sink;
use lx_node::NoMemory;
use std::alloc::Global;
use std::marker::Model;

/// A sink that keeps its bytes in memory, which fails at the writes that it is told to fail at, and where
/// it has no room left.
#[derive(Drop)]
pub struct MemorySink {
    taken: Vec<u8>,
    /// How many bytes it takes in all. There is memory for them from the start.
    room: usize,
    at_most: usize,
    failing: Vec<u64>,
    calls: u64,
    faults: u64,
}

impl Model for MemorySink {
    ghost use Rattle.std.specs.Prelude.{◌≤◌, vec_len};
    ghost use Rattle.std.specs.Vec.{vec_capacity};
    ghost use Rattle.lx_io.specs.Memory.{SinkState};

    ghost Value = { SinkState };

    ghost view = { λ s. record { taken = s.taken.items; room = s.room; at_most = s.at_most; failing = s.failing.items; calls = s.calls; faults = s.faults } };

    ghost invariant = { λ s. (vec_len s.taken ≤ s.room) × (s.room ≤ vec_capacity s.taken) };
}

impl MemorySink {
    /// A sink with memory for `room` bytes, which never takes more of it. A write takes at most `at_most`
    /// bytes (0 counts as 1), and fails where its number, from 1, is in `failing`. From write 2^64 - 1 on
    /// each has that number.
    pub fn new(
        alloc: Global,
        room: usize,
        at_most: usize,
        failing: Vec<u64>,
    ) -> Result<MemorySink, NoMemory>
        ensures { IfOk result (λ made. made ≡ new_sink room at_most failing.items) }
    {
        Ok(MemorySink {
            taken: Vec::with_capacity(alloc, room)?,
            room,
            at_most,
            failing,
            calls: 0,
            faults: 0,
        })
    }

    /// The bytes that it took so far.
    pub fn taken(&self) -> &[u8]
        ensures { result.now ≡ self.now.taken }
    {
        self.taken.as_slice()
    }

    /// Whether the next write fails, with this piece.
    fn fails_at(&self, piece: &[u8]) -> bool
        ensures { result ≡ fails_write self.now (length piece.now) }
    {
        let is_full = self.room - self.taken.len() == 0;
        self.failing.contains(&one_more(self.calls)) || (is_full && 0 < piece.len())
    }
}

impl Sink for MemorySink {
    ghost use Rattle.std.specs.Prelude.{Some};

    ghost taken = { λ s. Some s.taken };

    ghost faults = { λ s. s.faults };

    ghost writes = { λ s. Some s.calls };

    /// Writes in time linear in the bytes that it takes and the length of the list of failing writes. It
    /// takes no memory. A piece that isn't empty fails where no room is left.
    fn write(&mut self, piece: &[u8]) -> Result<usize, Failed>
        ensures fails { is_err result ≡ fails_write self.old (length piece.now) }
        ensures count { IfOk result (λ n. n ≡ write_length self.old (length piece.now)) }
        ensures after { IfOk result (λ n. self.new ≡ after_write self.old (take n piece.now)) }
        ensures after_failed { OnErr result (self.new ≡ after_failed_write self.old) }

        // What each sink promises.
        ensures within { IfOk result (λ n. n ≤ length piece.now) }
        ensures some { IfOk result (λ n. 0 < length piece.now → 0 < n) }
        ensures front { IfOk result (λ n. Appends (Some self.old.taken) (Some self.new.taken) (take n piece.now)) }
        ensures failed { OnErr result (Some self.new.taken ≡ Some self.old.taken) }
        ensures cause { HasCause self.old.faults self.new.faults result }
        ensures counted { IsCounted (Some self.old.calls) (Some self.new.calls) 1 }
    {
        let fails = self.fails_at(piece);
        self.calls = one_more(self.calls);
        if fails {
            self.faults = one_more(self.faults);
            return Err(Failed);
        }
        let left = self.room - self.taken.len();
        let count = self.at_most.max(1).min(piece.len()).min(left);
        self.taken.extend_from_slice(&piece[..count]).unwrap();
        Ok(count)
    }
}
