//! The class of a text: a word for each bit of its format, in the order of the bits, with one space
//! between.

ghost use Rattle.std.specs.Prelude.{◌≡◌, ◌<◌, ◌++◌, IfOk, OnOk, [], if◌then◌else◌, IsTrue, nat_lt, codes, chars, string_bytes};
ghost use Rattle.lx_render.specs.Render as shown;
ghost use Rattle.lx_render.specs.Ascii.{is_ascii};

use crate::format::{
    BOLD, CODE, HIGHLIGHT, ITALIC, STRIKETHROUGH, SUBSCRIPT, SUPERSCRIPT, UNDERLINE, has_bit,
};
use lx_node::{NoMemory, Txt};
use std::alloc::Global;

/// Adds a word, if the format has the bit.
#[tactic(auto, using(crate::proofs::Words::chars_of_ascii))]
fn add_class(
    alloc: Global,
    words: &mut Vec<Txt>,
    bit: u16,
    format: u16,
    word: &str,
) -> Result<(), NoMemory>
    requires some_bit { 0 < bit }
    requires ascii { IsTrue (is_ascii word.now) }
    ensures { OnOk result (words.new.items ≡ words.old.items ++ shown.class_if bit format word.now) }
{
    if has_bit(bit, format) {
        words.push(Txt::new(alloc, word)?)?;
    }
    Ok(())
}

/// The words of a format.
fn classes_of(alloc: Global, format: u16) -> Result<Vec<Txt>, NoMemory>
    ensures { IfOk result (λ words. words.items ≡ shown.classes_of format) }
{
    let mut words = Vec::new(alloc);
    add_class(alloc, &mut words, BOLD, format, "bold")?;
    add_class(alloc, &mut words, ITALIC, format, "italic")?;
    add_class(alloc, &mut words, STRIKETHROUGH, format, "strikethrough")?;
    add_class(alloc, &mut words, UNDERLINE, format, "underline")?;
    add_class(alloc, &mut words, CODE, format, "code")?;
    add_class(alloc, &mut words, SUBSCRIPT, format, "subscript")?;
    add_class(alloc, &mut words, SUPERSCRIPT, format, "superscript")?;
    add_class(alloc, &mut words, HIGHLIGHT, format, "highlight")?;
    Ok(words)
}

fn push(text: &mut String, more: &str) -> Result<(), NoMemory>
    ensures { OnOk result (chars (string_bytes text.new) ≡ chars (string_bytes text.old) ++ chars more.now) }
{
    text.push_str(more)?;
    Ok(())
}

/// Adds what is before the word at this place: a space, unless it is the first.
fn push_space(text: &mut String, place: usize) -> Result<(), NoMemory>
    ensures { OnOk result (chars (string_bytes text.new) ≡ chars (string_bytes text.old)
        ++ (if nat_lt 0 place then codes " " else [])) }
{
    if place > 0 { push(text, " ") } else { Ok(()) }
}

/// These words with one space between.
fn spaced(alloc: Global, words: &[Txt]) -> Result<Txt, NoMemory>
    ensures { IfOk result (λ text. text ≡ shown.spaced words.now) }
{
    let mut text = String::new(alloc);
    for (place, word) in words.iter().enumerate() {
        push_space(&mut text, place)?;
        push(&mut text, word.as_str())?;
    }
    Txt::new(alloc, text.as_str())
}

/// The class of a text of this format. It is empty where the format has no bit.
pub(crate) fn class_of(alloc: Global, format: u16) -> Result<Txt, NoMemory>
    ensures { IfOk result (λ text. text ≡ shown.spaced (shown.classes_of format)) }
{
    let words = classes_of(alloc, format)?;
    spaced(alloc, words.as_slice())
}
