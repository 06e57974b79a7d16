ghost use Rattle.std.specs.Prelude.{◌≡◌, ◌↔◌, IsTrue};
ghost use Rattle.std.specs.Bool.{beq};
ghost use Rattle.std.specs.Option.{option_eq};
ghost use Rattle.lx_node.specs.Same as same;

use crate::fields::{Align, Direction, ElementFields, Extra, Fields, Mode, TextFields};
use crate::text::Txt;

#[tactic(auto, unfolding(crate::specs::Same::same_mode))]
fn is_same_mode(a: Mode, b: Mode) -> bool
    ensures { result ≡ same.same_mode a b }
{
    a == b
}

#[tactic(auto, unfolding(crate::specs::Same::same_direction))]
fn is_same_direction(a: Direction, b: Direction) -> bool
    ensures { result ≡ same.same_direction a b }
{
    a == b
}

#[tactic(auto, unfolding(crate::specs::Same::same_align))]
fn is_same_align(a: Align, b: Align) -> bool
    ensures { result ≡ same.same_align a b }
{
    a == b
}

/// Whether both texts are absent, or both are there and equal.
fn is_same_optional(a: &Option<Txt>, b: &Option<Txt>) -> bool
    ensures { result ≡ option_eq same.same_text a.now b.now }
{
    match (a, b) {
        (None, None) => true,
        (Some(a), Some(b)) => a.is_equal(b),
        _ => false,
    }
}

fn is_same_checked(a: Option<bool>, b: Option<bool>) -> bool
    ensures { result ≡ option_eq beq a b }
{
    a == b
}

impl TextFields {
    /// Whether they are equal fields.
    #[tactic(auto, unfolding(crate::specs::Same::same_text_fields))]
    fn is_equal(&self, other: &TextFields) -> bool
        ensures { result ≡ same.same_text_fields self.now other.now }
    {
        self.text.is_equal(&other.text)
            && self.format == other.format
            && self.detail == other.detail
            && is_same_mode(self.mode, other.mode)
            && self.style.is_equal(&other.style)
    }
}

impl Extra {
    /// Whether they are equal.
    #[tactic(auto, unfolding(crate::specs::Same::same_extra))]
    fn is_equal(&self, other: &Extra) -> bool
        ensures { result ≡ same.same_extra self.now other.now }
    {
        match (self, other) {
            (Extra::Plain, Extra::Plain) => true,
            (Extra::List { start }, Extra::List { start: other_start }) => *start == *other_start,
            (
                Extra::Item { value, checked },
                Extra::Item {
                    value: other_value,
                    checked: other_checked,
                },
            ) => *value == *other_value && is_same_checked(*checked, *other_checked),
            (
                Extra::Link {
                    rel,
                    target,
                    title,
                    url,
                },
                Extra::Link {
                    rel: other_rel,
                    target: other_target,
                    title: other_title,
                    url: other_url,
                },
            ) => {
                is_same_optional(rel, other_rel)
                    && is_same_optional(target, other_target)
                    && is_same_optional(title, other_title)
                    && url.is_equal(other_url)
            }
            (
                Extra::Cell {
                    header,
                    row_span,
                    col_span,
                    background,
                },
                Extra::Cell {
                    header: other_header,
                    row_span: other_row_span,
                    col_span: other_col_span,
                    background: other_background,
                },
            ) => {
                *header == *other_header
                    && *row_span == *other_row_span
                    && *col_span == *other_col_span
                    && is_same_optional(background, other_background)
            }
            _ => false,
        }
    }
}

impl ElementFields {
    /// Whether they are equal fields.
    #[tactic(auto, unfolding(crate::specs::Same::same_element))]
    fn is_equal(&self, other: &ElementFields) -> bool
        ensures { result ≡ same.same_element self.now other.now }
    {
        is_same_direction(self.direction, other.direction)
            && is_same_align(self.format, other.format)
            && self.indent == other.indent
            && self.text_format == other.text_format
            && self.text_style.is_equal(&other.text_style)
            && self.extra.is_equal(&other.extra)
    }
}

impl Fields {
    /// Whether they are equal: of one variant, with the same texts, numbers and choices.
    #[tactic(auto, unfolding(crate::specs::Same::same_fields))]
    pub fn is_equal(&self, other: &Fields) -> bool
        ensures same { result ≡ same.same_fields self.now other.now }
        ensures told { IsTrue result ↔ (self.now ≡ other.now) }
    {
        match (self, other) {
            (Fields::Element(fields), Fields::Element(other)) => fields.is_equal(other),
            (Fields::Text(fields), Fields::Text(other)) => fields.is_equal(other),
            (Fields::Embed(source), Fields::Embed(other)) => source.is_equal(other),
            (Fields::Bare, Fields::Bare) => true,
            _ => false,
        }
    }
}
