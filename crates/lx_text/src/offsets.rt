ghost use Rattle.std.specs.Prelude.{◌≡◌, ◌+◌, ◌-◌, ◌<◌, ◌≤◌, true, None, Some, IfSome, IfOk, IfErr, is_some, length, chars};
ghost use Rattle.lx_node.specs.declared.cause.Cause.TheVariants.{BadPlace};
ghost use Rattle.lx_node.specs.Units.{units};
ghost use Rattle.lx_text.specs.Texts as texts;
ghost use Rattle.lx_text.specs.Texts.{is_offset, slice_fault};
ghost use Rattle.lx_text.specs.Passing.{IsStopped};

use crate::blocks::passed_blocks;
use lx_node::Txt;

/// The text up to a place after which so many bytes come, and the text from there on, with how much further the offset
/// is.
fn stopped(text: &str, offset: u32, left: u32, rest: usize) -> (&str, &str, u32)
    requires { IsStopped text.now offset left rest }
    ensures front { chars result.0.now ≡ texts.front_of offset (chars text.now) }
    ensures rest { chars result.1.now ≡ texts.rest_of offset (chars text.now) }
    ensures within { texts.within (chars text.now) offset + result.2 ≡ offset }
{
    let (front, back) = text.split_at(text.len() - rest);
    let _offset = offset;
    (front, back, left)
}

/// The text up to the last place at an offset or before it, the text from there on, and how far the offset is past
/// that place: 0 where it is one itself. It goes by blocks, and then by the characters of the one that the offset is in.
fn parted_within(text: &str, offset: u32) -> (&str, &str, u32)
    ensures front { chars result.0.now ≡ texts.front_of offset (chars text.now) }
    ensures rest { chars result.1.now ≡ texts.rest_of offset (chars text.now) }
    ensures within { texts.within (chars text.now) offset + result.2 ≡ offset }
{
    let (behind, mut left) = passed_blocks(text, offset);
    let mut rest = behind.len();
    let mut characters = behind.chars();
    while let Some(character) = characters.next() {
        let units = character.len_utf16() as u32;
        if left < units {
            return stopped(text, offset, left, rest);
        }
        left -= units;
        rest = characters.as_str().len();
    }
    stopped(text, offset, left, rest)
}

/// The last place of a text at an offset or before it: the length where the offset is past it, the pair's start where
/// it is inside a pair, and else the offset itself. It takes no memory.
pub fn within(text: &str, at: u32) -> u32
    ensures { result ≡ texts.within (chars text.now) at }
{
    let (_, _, behind) = parted_within(text, at);
    at - behind
}

/// Whether the offset is one of a place in a kept text: it isn't past the end, nor inside a pair. A text without pairs
/// isn't gone through.
pub fn has_offset(text: &Txt, offset: u32) -> bool
    ensures { result ≡ is_offset offset text.now }
{
    let units = text.units();
    if u64::from(offset) >= units {
        return u64::from(offset) == units;
    }
    if text.characters() == units && units < u64::MAX {
        return true;
    }
    within(text.as_str(), offset) == offset
}

/// The text up to an offset, and the text from it on. None where it is no offset of the text.
#[tactic(auto, using(crate::proofs::Told::found_at))]
pub(crate) fn parted(text: &str, offset: u32) -> Option<(&str, &str)>
    ensures found { is_some result ≡ is_offset offset (chars text.now) }
    ensures front { IfSome result (λ parts. chars parts.0.now ≡ texts.front_of offset (chars text.now)) }
    ensures rest { IfSome result (λ parts. chars parts.1.now ≡ texts.rest_of offset (chars text.now)) }
{
    let (front, rest, behind) = parted_within(text, offset);
    if behind == 0 {
        Some((front, rest))
    } else {
        None
    }
}

/// The text from an offset on. None where it is no offset of the text.
pub fn rest_from(text: &str, offset: u32) -> Option<&str>
    ensures found { is_some result ≡ is_offset offset (chars text.now) }
    ensures rest { IfSome result (λ rest. chars rest.now ≡ texts.rest_of offset (chars text.now)) }
{
    match parted(text, offset) {
        Some((_, rest)) => Some(rest),
        None => None,
    }
}

/// The text up to the first offset, from there to the second one, and from there on. Where there is no such piece,
/// the offset that is wrong.
pub(crate) fn pieces(text: &str, from: u32, to: u32) -> Result<(&str, &str, &str), u32>
    ensures fine { IfOk result (λ _. slice_fault (chars text.now) from to ≡ None) }
    ensures before { IfOk result (λ parts. chars parts.0.now ≡ texts.front_of from (chars text.now)) }
    ensures within { IfOk result (λ parts. chars parts.1.now ≡ texts.slice_of from to (chars text.now)) }
    ensures behind { IfOk result (λ parts. chars parts.2.now ≡ texts.rest_of to (chars text.now)) }
    ensures wrong { IfErr result (λ offset. slice_fault (chars text.now) from to ≡ Some (BadPlace offset)) }
{
    let Some((before, rest)) = parted(text, from) else {
        return Err(from);
    };
    if to < from {
        return Err(turned_round(text, from, to));
    }
    let Some((within, behind)) = parted(rest, to - from) else {
        return Err(to);
    };
    Ok((before, within, behind))
}

/// The text up to an offset, and the text from it on, where each character is one byte: the offset is its byte, and
/// nothing is gone through.
fn parted_plain(text: &str, offset: u32) -> (&str, &str)
    requires plain { units (chars text.now) ≡ length text.now }
    requires inside { offset ≤ length text.now }
    ensures place { is_offset offset (chars text.now) ≡ true }
    ensures front { chars result.0.now ≡ texts.front_of offset (chars text.now) }
    ensures rest { chars result.1.now ≡ texts.rest_of offset (chars text.now) }
    ensures plain { units (chars result.1.now) ≡ length result.1.now }
    ensures bytes { length result.1.now ≡ length text.now - offset }
{
    text.split_at(offset as usize)
}

/// The three pieces, where each character is one byte.
fn pieces_plain(text: &str, from: u32, to: u32) -> (&str, &str, &str)
    requires plain { units (chars text.now) ≡ length text.now }
    requires order { from ≤ to }
    requires inside { to ≤ length text.now }
    ensures fine { slice_fault (chars text.now) from to ≡ None }
    ensures before { chars result.0.now ≡ texts.front_of from (chars text.now) }
    ensures within { chars result.1.now ≡ texts.slice_of from to (chars text.now) }
    ensures behind { chars result.2.now ≡ texts.rest_of to (chars text.now) }
{
    let (before, rest) = parted_plain(text, from);
    let (within, behind) = parted_plain(rest, to - from);
    (before, within, behind)
}

/// The three pieces of a kept text. One that has as many code units as bytes is ASCII, and isn't gone through.
pub(crate) fn pieces_of(text: &Txt, from: u32, to: u32) -> Result<(&str, &str, &str), u32>
    ensures fine { IfOk result (λ _. slice_fault text.now from to ≡ None) }
    ensures before { IfOk result (λ parts. chars parts.0.now ≡ texts.front_of from text.now) }
    ensures within { IfOk result (λ parts. chars parts.1.now ≡ texts.slice_of from to text.now) }
    ensures behind { IfOk result (λ parts. chars parts.2.now ≡ texts.rest_of to text.now) }
    ensures wrong { IfErr result (λ offset. slice_fault text.now from to ≡ Some (BadPlace offset)) }
{
    let string = text.as_str();
    let bytes = string.len() as u64;
    if text.units() == bytes && from <= to && u64::from(to) <= bytes {
        return Ok(pieces_plain(string, from, to));
    }
    pieces(string, from, to)
}

/// The offset that is wrong, where the second one is before the first: the second, if it is none of the text.
#[tactic(auto, using(crate::proofs::Faults::fault_turned, crate::proofs::Faults::fault_second))]
fn turned_round(text: &str, from: u32, to: u32) -> u32
    requires first { is_offset from (chars text.now) ≡ true }
    requires order { to < from }
    ensures { slice_fault (chars text.now) from to ≡ Some (BadPlace result) }
{
    if parted(text, to).is_some() { from } else { to }
}
