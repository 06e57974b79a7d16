//! The members of nodes' fields, and what JSON values give them.

ghost use Rattle.std.specs.Prelude.{◌≡◌, IfOk};
ghost use Rattle.serde_json.specs.View.{view};
ghost use Rattle.serde_json.specs.Find.{as_bool};
ghost use Rattle.lx_fields.specs.Values as values;
ghost use Rattle.lx_fields.specs.Members as members;

use crate::values::{long_within, short_within, small_within, text_of};
use crate::words;
use crate::words::{Name, align_of, mode_of};
use lx_node::{Direction, NoMemory, Txt};
use lx_step::Member;
use serde_json::Value;
use std::alloc::Global;

fn direction_of(value: &Value) -> Option<Direction>
    ensures { result ≡ members.direction_of (view value.now) }
{
    if value.is_null() {
        return Some(Direction::Unset);
    }
    words::direction_of(value)
}

/// A string, or none for null.
fn text_or_null(alloc: Global, value: &Value) -> Result<Option<Option<Txt>>, NoMemory>
    ensures { IfOk result (λ made. made ≡ values.or_null_of values.string_of (view value.now)) }
{
    if value.is_null() {
        return Ok(Some(None));
    }
    match text_of(alloc, value)? {
        Some(text) => Ok(Some(Some(text))),
        None => Ok(None),
    }
}

/// A truth value, or none for null.
fn truth_or_null(value: &Value) -> Option<Option<bool>>
    ensures { result ≡ values.or_null_of as_bool (view value.now) }
{
    if value.is_null() {
        return Some(None);
    }
    match value.as_bool() {
        Some(truth) => Some(Some(truth)),
        None => None,
    }
}

/// A format: an alignment, or a number.
#[tactic(auto, unfolding(crate::specs::Members::settable))]
fn format_of(value: &Value) -> Option<Member>
    ensures { result ≡ members.settable Name.Format (view value.now) }
{
    if let Some(align) = align_of(value) {
        return Some(Member::Align(align));
    }
    match short_within(0, u16::MAX, value) {
        Some(format) => Some(Member::Format(format)),
        None => None,
    }
}

/// What a member gives that scripts set, where the value is one that it takes.
#[tactic(auto, unfolding(crate::specs::Members::settable))]
pub fn settable(alloc: Global, name: Name, value: &Value) -> Result<Option<Member>, NoMemory>
    ensures { IfOk result (λ made. made ≡ members.settable name (view value.now)) }
{
    match name {
        Name::Direction => Ok(direction_of(value).map(|direction| Member::Direction(direction))),
        Name::Format => Ok(format_of(value)),
        Name::Indent => Ok(short_within(0, u16::MAX, value).map(|indent| Member::Indent(indent))),
        Name::TextFormat => {
            Ok(short_within(0, u16::MAX, value).map(|format| Member::TextFormat(format)))
        }
        Name::TextStyle => Ok(text_of(alloc, value)?.map(|style| Member::TextStyle(style))),
        Name::Tag | Name::ListType | Name::Value => Ok(None),
        Name::Start => Ok(long_within(1_000_000, value).map(|start| Member::Start(start))),
        Name::Checked => Ok(truth_or_null(value).map(|checked| Member::Checked(checked))),
        Name::Rel => Ok(text_or_null(alloc, value)?.map(|rel| Member::Rel(rel))),
        Name::Target => Ok(text_or_null(alloc, value)?.map(|target| Member::Target(target))),
        Name::Title => Ok(text_or_null(alloc, value)?.map(|title| Member::Title(title))),
        Name::Url => Ok(text_of(alloc, value)?.map(|url| Member::Url(url))),
        Name::HeaderState => Ok(small_within(3, value).map(|header| Member::HeaderState(header))),
        Name::ColSpan => Ok(short_within(1, 1000, value).map(|span| Member::ColSpan(span))),
        Name::RowSpan => Ok(short_within(1, 1000, value).map(|span| Member::RowSpan(span))),
        Name::Background => {
            Ok(text_or_null(alloc, value)?.map(|background| Member::Background(background)))
        }
        Name::Text => Ok(text_of(alloc, value)?.map(|text| Member::Text(text))),
        Name::Style => Ok(text_of(alloc, value)?.map(|style| Member::Style(style))),
        Name::Detail => Ok(small_within(3, value).map(|detail| Member::Detail(detail))),
        Name::Mode => Ok(mode_of(value).map(|mode| Member::Mode(mode))),
        Name::Src => Ok(text_of(alloc, value)?.map(|source| Member::Src(source))),
    }
}
