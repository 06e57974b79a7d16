ghost use Rattle.std.specs.Prelude.{◌≡◌};
ghost use Rattle.lx_io.specs.Memory.{raised};

/// One more. It stands still at 2^64 - 1.
pub(crate) fn one_more(count: u64) -> u64
    ensures { result ≡ raised count }
{
    count.saturating_add(1)
}
