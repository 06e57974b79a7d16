//! Where a piece of a kept text is in its bytes, so that it can be replaced where it is.

ghost use Rattle.std.specs.Prelude.{◌≡◌, None, Some, IfOk, IfErr, length, chars, encode_utf8_all};
ghost use Rattle.lx_node.specs.Cuts.{Cuts};
ghost use Rattle.lx_text.specs.Texts.{front_of, rest_of, slice_of, slice_fault};

use crate::offsets::pieces_of;
use lx_node::{Cause, Txt};

/// Where the piece between two offsets is in a kept text: how many bytes are before it, and how many are in it. The
/// offsets count as those of `slice`, and it is refused for the cause for which `slice` is. At the end of the text, where
/// typing and joins put what is new, and in a text of ASCII, nothing is looked for. It takes no memory.
pub fn piece_at(text: &Txt, from: u32, to: u32) -> Result<(usize, usize), Cause>
    ensures cut { IfOk result (λ place. Cuts place.0 place.1 (front_of from text.now) (slice_of from to text.now) (rest_of to text.now) text.now) }
    ensures allowed { IfOk result (λ _. slice_fault text.now from to ≡ None) }
    ensures refused { IfErr result (λ cause. slice_fault text.now from to ≡ Some cause) }
{
    if from == to && u64::from(from) == text.units() {
        return Ok((byte_length(text.as_str()), 0));
    }
    match pieces_of(text, from, to) {
        Ok((before, piece, _)) => Ok((byte_length(before), byte_length(piece))),
        Err(offset) => Err(Cause::BadPlace(u64::from(offset))),
    }
}

/// How many bytes a text has.
fn byte_length(text: &str) -> usize
    ensures { result ≡ length (encode_utf8_all (chars text.now)) }
{
    text.len()
}
