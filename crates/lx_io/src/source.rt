ghost use Rattle.std.specs.Prelude.{◌≡◌, ◌<◌, ◌≤◌, ℕ, List, Option, length, take, IfOk, OnErr};
ghost use Rattle.lx_io.specs.Devices.{Consumes, IsAtEnd, HasCause, IsCounted};

use crate::fault::Failed;

/// Where bytes come from.
pub trait Source {
    /// The bytes that it has left, where it shows them.
    ghost left: { Self → Option (List ℕ) };

    /// How often it has failed. The count stands still at 2^64 - 1.
    ghost faults: { Self → ℕ };

    /// How often it was read, where it shows that.
    ghost reads: { Self → Option ℕ };

    /// Reads bytes into the front of a buffer, and answers how many. None into a buffer that isn't empty is
    /// the end of the input.
    fn read(&mut self, into: &mut [u8]) -> Result<usize, Failed>
        ensures within { IfOk result (λ n. n ≤ length into.old) }
        ensures front { IfOk result (λ n. Consumes (left self.old) (left self.new) (take n into.new)) }
        ensures end { IfOk result (λ n. n ≡ 0 → 0 < length into.old → IsAtEnd (left self.new)) }
        ensures failed { OnErr result (left self.new ≡ left self.old) }
        ensures cause { HasCause (faults self.old) (faults self.new) result }
        ensures counted { IsCounted (reads self.old) (reads self.new) 1 };
}
