//! Numbers of JSON.

ghost use Rattle.std.specs.Prelude.{◌≡◌, ◌<◌, ◌==◌, true, false, length, slice_index, IsTrue, option_map};
ghost use Rattle.fast_float.specs.Text.{minus};
ghost use Rattle.serde_json.specs.Read.{number_of as number_told, number_from, float_of};
ghost use Rattle.serde_json.specs.View.{number_view};

use fast_float::Numeral;
use serde_json::Number;

fn begins_with_minus(bytes: &[u8]) -> bool
    ensures value { result ≡ (slice_index bytes.now 0 == minus) }
    ensures some { IsTrue result → 0 < length bytes.now }
{
    !bytes.is_empty() && bytes[0] == b'-'
}

/// The number that a number's text says: an integer of 64 bits where it is written as one, and the nearest float
/// otherwise, unless that is infinite.
#[tactic(auto, unfolding(serde_json::specs::Read::number_of))]
pub(crate) fn number_of(text: &str) -> Option<Number>
    ensures { option_map number_view result ≡ number_told text.now }
{
    let bytes = text.as_bytes();
    if begins_with_minus(bytes) {
        with_minus(&Numeral::scan(&bytes[1..]))
    } else {
        with_no_sign(&Numeral::scan(bytes))
    }
}

fn with_no_sign(numeral: &Numeral<'_>) -> Option<Number>
    ensures { option_map number_view result ≡ number_from false numeral.now }
{
    match numeral.to_u64() {
        Some(integer) => Some(Number::from(integer)),
        None => float(false, numeral),
    }
}

/// Zero has no minus as an integer, so `-0` is a float.
fn with_minus(numeral: &Numeral<'_>) -> Option<Number>
    ensures { option_map number_view result ≡ number_from true numeral.now }
{
    match numeral.to_i64(true) {
        Some(0) | None => float(true, numeral),
        Some(integer) => Some(Number::from(integer)),
    }
}

fn float(is_below_zero: bool, numeral: &Numeral<'_>) -> Option<Number>
    ensures { option_map number_view result ≡ float_of is_below_zero numeral.now }
{
    Number::from_f64(numeral.to_float::<f64>(is_below_zero))
}
