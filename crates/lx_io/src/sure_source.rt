ghost use Rattle.std.specs.Prelude.{◌≡◌, ◌<◌, ◌≤◌, ◌++◌, false, length, min, take, drop, is_err, IfOk, OnErr};
ghost use Rattle.lx_io.specs.Devices.{Consumes, IsAtEnd, HasCause, IsCounted};

use crate::fault::Failed;
use crate::source::Source;
use std::marker::Model;

/// A source of bytes in memory that never fails, so its count of faults is 0 for ever. Contracts see the
/// bytes that it has left.
#[derive(Drop)]
pub struct SureSource {
    bytes: Vec<u8>,
    /// How many of the bytes were read.
    start: usize,
}

impl Model for SureSource {
    ghost use Rattle.std.specs.Prelude.{◌≤◌, ℕ, List, length, drop};
    ghost use Rattle.std.specs.Coded.{coded_ℕ, coded_list};

    ghost Value = { List ℕ };

    ghost coded = { coded_list coded_ℕ };

    ghost view = { λ s. drop s.start s.bytes.items };

    ghost invariant = { λ s. s.start ≤ length s.bytes.items };
}

impl SureSource {
    /// A source of these bytes.
    pub fn new(bytes: Vec<u8>) -> SureSource
        ensures { result ≡ bytes.items }
    {
        SureSource { bytes, start: 0 }
    }
}

impl Source for SureSource {
    ghost use Rattle.std.specs.Prelude.{Some, None};

    ghost left = { λ left. Some left };

    ghost faults = { λ left. 0 };

    ghost reads = { λ left. None };

    /// Reads as many bytes as are left and find room, in time linear in their number.
    fn read(&mut self, into: &mut [u8]) -> Result<usize, Failed>
        ensures sure { is_err result ≡ false }
        ensures count { IfOk result (λ n. n ≡ min (length into.old) (length self.old)) }
        ensures after { IfOk result (λ n. self.new ≡ drop n self.old) }
        ensures buffer { IfOk result (λ n. into.new ≡ take n self.old ++ drop n into.old) }

        // What each source promises.
        ensures within { IfOk result (λ n. n ≤ length into.old) }
        ensures front { IfOk result (λ n. Consumes (Some self.old) (Some self.new) (take n into.new)) }
        ensures end { IfOk result (λ n. n ≡ 0 → 0 < length into.old → IsAtEnd (Some self.new)) }
        ensures failed { OnErr result (Some self.new ≡ Some self.old) }
        ensures cause { HasCause 0 0 result }
        ensures counted { IsCounted None None 1 }
    {
        let left = &self.bytes[self.start..];
        let count = into.len().min(left.len());
        into[..count].copy_from_slice(&left[..count]);
        self.start += count;
        Ok(count)
    }
}
