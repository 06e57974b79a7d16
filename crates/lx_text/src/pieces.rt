ghost use Rattle.std.specs.Prelude.{◌≡◌, ◌++◌, None, IfOk, IfErr, chars, min};
ghost use Rattle.lx_node.specs.declared.cause.Cause.TheVariants.{BadPlace};
ghost use Rattle.lx_node.specs.declared.cause.Fault.TheVariants as fault;
ghost use Rattle.lx_node.specs.Strings.{capped};
ghost use Rattle.lx_text.specs.Texts.{text_length, length_told, slice_of, slice_fault, spliced_text, TellsFirst};

use crate::offsets::{pieces, within};
use lx_node::{Cause, Fault, NoMemory, Txt};
use std::alloc::Global;

/// How many code units a text has. From 4,294,967,295 on it stands still.
pub(crate) fn units(text: &str) -> u32
    ensures { result ≡ min (text_length (chars text.now)) 4294967295 }
{
    u32::try_from(lx_node::units(text)).unwrap_or(u32::MAX)
}

/// How long a text is in UTF-16 code units, which is the offset of its end. For a text that is longer than an offset
/// can say, it is the last place that one can.
pub fn length(text: &str) -> u32
    ensures { result ≡ length_told (chars text.now) }
{
    told(text, lx_node::units(text))
}

/// How long a kept text is, as `length` counts, in constant time.
pub fn length_of(text: &Txt) -> u32
    ensures { result ≡ length_told text.now }
{
    told(text.as_str(), text.units())
}

/// The length of a text that has so many code units.
fn told(text: &str, units: u64) -> u32
    requires { units ≡ capped (text_length (chars text.now)) }
    ensures { result ≡ length_told (chars text.now) }
{
    match u32::try_from(units) {
        Ok(length) => length,
        Err(_) => within(text, u32::MAX),
    }
}

/// The piece of a text between two offsets, which count UTF-16 code units from 0 to the length of the text. It is refused
/// with `BadPlace` and the offset that is wrong: the first one that is past the end or inside a pair, or else `from`
/// where it is after `to`. `Memory` says that none was left for the piece.
#[tactic(auto, unfolding(crate::specs::Texts::slice_of))]
pub fn slice(alloc: Global, text: &str, from: u32, to: u32) -> Result<Txt, Fault>
    ensures cut { IfOk result (λ piece. piece ≡ slice_of from to (chars text.now)) }
    ensures allowed { IfOk result (λ _. slice_fault (chars text.now) from to ≡ None) }
    ensures refused { IfErr result (TellsFirst (slice_fault (chars text.now) from to)) }
{
    match pieces(text, from, to) {
        Ok((_, piece, _)) => Ok(Txt::new(alloc, piece)?),
        Err(offset) => Err(bad_place(offset)),
    }
}

/// The text with `new` in the place of the piece between two offsets. They count as those of `slice`, and it is refused as
/// `slice` is. `Memory` says that none was left for the new text.
#[tactic(auto, unfolding(crate::specs::Texts::spliced_text))]
pub fn splice(alloc: Global, text: &str, from: u32, to: u32, new: &str) -> Result<Txt, Fault>
    ensures changed { IfOk result (λ whole. whole ≡ spliced_text from to (chars new.now) (chars text.now)) }
    ensures allowed { IfOk result (λ _. slice_fault (chars text.now) from to ≡ None) }
    ensures refused { IfErr result (TellsFirst (slice_fault (chars text.now) from to)) }
{
    match pieces(text, from, to) {
        Ok((before, _, behind)) => Ok(joined(alloc, before, new, behind)?),
        Err(offset) => Err(bad_place(offset)),
    }
}

/// Three texts as one.
fn joined(alloc: Global, before: &str, new: &str, behind: &str) -> Result<Txt, NoMemory>
    ensures { IfOk result (λ whole. whole ≡ chars before.now ++ chars new.now ++ chars behind.now) }
{
    let mut whole = String::from_str(alloc, before)?;
    whole.push_str(new)?;
    whole.push_str(behind)?;
    Ok(Txt::of(whole))
}

pub(crate) fn bad_place(offset: u32) -> Fault
    ensures { result ≡ fault.Cause (BadPlace offset) }
{
    Fault::Cause(Cause::BadPlace(u64::from(offset)))
}
