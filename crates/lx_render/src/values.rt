//! The values of attributes. One that isn't to be shown is `None`.

ghost use Rattle.std.specs.Prelude.{◌≡◌, IfOk, IsTrue, decimal, nat_lt};
ghost use Rattle.lx_render.specs.Render as shown;
ghost use Rattle.lx_render.specs.Ascii.{is_ascii};

use lx_node::{Align, Direction, Kind, ListType, NoMemory, Txt};
use std::alloc::Global;

/// This word.
#[tactic(auto, using(crate::proofs::Words::chars_of_ascii))]
pub(crate) fn word(alloc: Global, text: &str) -> Result<Option<Txt>, NoMemory>
    requires { IsTrue (is_ascii text.now) }
    ensures { IfOk result (λ value. value ≡ Some text.now) }
{
    Ok(Some(Txt::new(alloc, text)?))
}

/// A number in decimal digits.
#[tactic(auto, using(crate::proofs::Words::chars_of_decimal))]
pub(crate) fn decimal(alloc: Global, number: u32) -> Result<Option<Txt>, NoMemory>
    ensures { IfOk result (λ value. value ≡ Some (decimal number)) }
{
    let digits = format!(in alloc; "{number}")?;
    Ok(Some(Txt::new(alloc, digits.as_str())?))
}

/// A copy of this text.
pub(crate) fn copied(alloc: Global, text: &Txt) -> Result<Option<Txt>, NoMemory>
    ensures { IfOk result (λ value. value ≡ Some text.now) }
{
    Ok(Some(text.copy(alloc)?))
}

/// A copy of this text, where there is one.
pub(crate) fn copied_if_any(alloc: Global, text: &Option<Txt>) -> Result<Option<Txt>, NoMemory>
    ensures { IfOk result (λ value. value ≡ text.now) }
{
    match text {
        None => Ok(None),
        Some(text) => copied(alloc, text),
    }
}

/// This text, unless it is empty.
pub(crate) fn not_empty(text: Txt) -> Option<Txt>
    ensures { result ≡ shown.not_empty text }
{
    if text.is_empty() { None } else { Some(text) }
}

/// The word of a direction that is set.
pub(crate) fn direction_word(alloc: Global, direction: Direction) -> Result<Option<Txt>, NoMemory>
    ensures { IfOk result (λ value. value ≡ shown.direction_word direction) }
{
    match direction {
        Direction::Unset => Ok(None),
        Direction::Ltr => word(alloc, "ltr"),
        Direction::Rtl => word(alloc, "rtl"),
    }
}

/// The word of an alignment that is set.
pub(crate) fn align_word(alloc: Global, align: Align) -> Result<Option<Txt>, NoMemory>
    ensures { IfOk result (λ value. value ≡ shown.align_word align) }
{
    match align {
        Align::Unset => Ok(None),
        Align::Left => word(alloc, "left"),
        Align::Center => word(alloc, "center"),
        Align::Right => word(alloc, "right"),
        Align::Justify => word(alloc, "justify"),
        Align::Start => word(alloc, "start"),
        Align::End => word(alloc, "end"),
    }
}

/// An indent, if it is above 0.
pub(crate) fn indent_word(alloc: Global, indent: u16) -> Result<Option<Txt>, NoMemory>
    ensures { IfOk result (λ value. value ≡ shown.when (nat_lt 0 indent) (decimal indent)) }
{
    if indent > 0 {
        decimal(alloc, u32::from(indent))
    } else {
        Ok(None)
    }
}

/// How many rows or columns a cell spans, if that is above 1.
pub(crate) fn span_word(alloc: Global, span: u16) -> Result<Option<Txt>, NoMemory>
    ensures { IfOk result (λ value. value ≡ shown.span_word span) }
{
    if span > 1 {
        decimal(alloc, u32::from(span))
    } else {
        Ok(None)
    }
}

/// Whether an item is checked, where it can be.
pub(crate) fn checked_word(alloc: Global, checked: Option<bool>) -> Result<Option<Txt>, NoMemory>
    ensures { IfOk result (λ value. value ≡ shown.checked_word checked) }
{
    match checked {
        None => Ok(None),
        Some(true) => word(alloc, "true"),
        Some(false) => word(alloc, "false"),
    }
}

/// The role of an item that can be checked.
pub(crate) fn role_word(alloc: Global, checked: Option<bool>) -> Result<Option<Txt>, NoMemory>
    ensures { IfOk result (λ value. value ≡ shown.role_word checked) }
{
    match checked {
        None => Ok(None),
        Some(_) => word(alloc, "checkbox"),
    }
}

/// The start of a numbered list, if it isn't 1.
pub(crate) fn start_word(alloc: Global, kind: Kind, start: u32) -> Result<Option<Txt>, NoMemory>
    ensures { IfOk result (λ value. value ≡ shown.start_word kind start) }
{
    match kind {
        Kind::List(ListType::Number) => {
            if start == 1 {
                Ok(None)
            } else {
                decimal(alloc, start)
            }
        }
        _ => Ok(None),
    }
}
