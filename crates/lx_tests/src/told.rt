//! What a test was told, beside what it wanted.

ghost use Rattle.std.specs.Prelude.{◌≡◌, ◌≢◌, OnOk, OnErr};

use std::test::Fail;

/// Nothing where the text that was told is the one that is wanted, and else a failure that shows both.
pub(crate) fn expect(told: &str, wanted: &str) -> Result<(), Fail>
    ensures same { OnOk result (told.now ≡ wanted.now) }
    ensures other { OnErr result (told.now ≢ wanted.now) }
{
    if told == wanted {
        Ok(())
    } else {
        Err(Fail::new(format_args!("told:   {told:?}\nwanted: {wanted:?}")))
    }
}
