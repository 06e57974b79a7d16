ghost use Rattle.std.specs.Prelude.{◌≡◌, ◌<◌, ◌≤◌, ℕ, List, Option, length, take, IfOk, OnErr};
ghost use Rattle.lx_io.specs.Devices.{Appends, HasCause, IsCounted};

use crate::fault::Failed;

/// Where bytes go to.
pub trait Sink {
    /// The bytes that it took so far, where it shows them.
    ghost taken: { Self → Option (List ℕ) };

    /// How often it has failed. The count stands still at 2^64 - 1.
    ghost faults: { Self → ℕ };

    /// How often it was written to, where it shows that.
    ghost writes: { Self → Option ℕ };

    /// Takes a front of the piece, and answers how many bytes that is: at least one of a piece that isn't
    /// empty.
    fn write(&mut self, piece: &[u8]) -> Result<usize, Failed>
        ensures within { IfOk result (λ n. n ≤ length piece.now) }
        ensures some { IfOk result (λ n. 0 < length piece.now → 0 < n) }
        ensures front { IfOk result (λ n. Appends (taken self.old) (taken self.new) (take n piece.now)) }
        ensures failed { OnErr result (taken self.new ≡ taken self.old) }
        ensures cause { HasCause (faults self.old) (faults self.new) result }
        ensures counted { IsCounted (writes self.old) (writes self.new) 1 };
}
