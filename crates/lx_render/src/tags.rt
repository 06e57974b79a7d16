//! The element that shows a node.

ghost use Rattle.std.specs.Prelude.{◌≡◌};
ghost use Rattle.lx_render.specs.Render as shown;

use crate::format::{BOLD, CODE, HIGHLIGHT, ITALIC, SUBSCRIPT, SUPERSCRIPT, has_bit};
use lx_host::{Inner, Outer, Tag};
use lx_node::{Extra, Fields, Kind, ListType};

/// The inner element of a text of this format.
fn inner_of(format: u16) -> Inner
    ensures { result ≡ shown.inner_of format }
{
    if has_bit(BOLD, format) {
        Inner::Strong
    } else if has_bit(ITALIC, format) {
        Inner::Em
    } else {
        Inner::Span
    }
}

/// The outer element of a text of this format, where it has one.
fn outer_of(format: u16) -> Option<Outer>
    ensures { result ≡ shown.outer_of format }
{
    if has_bit(CODE, format) {
        Some(Outer::Code)
    } else if has_bit(HIGHLIGHT, format) {
        Some(Outer::Mark)
    } else if has_bit(SUBSCRIPT, format) {
        Some(Outer::Sub)
    } else if has_bit(SUPERSCRIPT, format) {
        Some(Outer::Sup)
    } else {
        None
    }
}

/// The element of a heading of this level, from 1 to 6.
fn heading_tag(level: u8) -> Tag
    ensures { result ≡ shown.heading_tag level }
{
    match level {
        1 => Tag::H1,
        2 => Tag::H2,
        3 => Tag::H3,
        4 => Tag::H4,
        5 => Tag::H5,
        _ => Tag::H6,
    }
}

fn list_tag(numbering: ListType) -> Tag
    ensures { result ≡ shown.list_tag numbering }
{
    match numbering {
        ListType::Number => Tag::Ol,
        ListType::Bullet | ListType::Check => Tag::Ul,
    }
}

/// The format of a text or tab, and 0 for any other node.
fn format_of(fields: &Fields) -> u16
    ensures { result ≡ shown.format_of fields.now }
{
    match fields {
        Fields::Text(text) => text.format,
        _ => 0,
    }
}

fn header_of_extra(extra: &Extra) -> u8
    ensures { result ≡ shown.header_of_extra extra.now }
{
    match extra {
        Extra::Cell { header, .. } => *header,
        _ => 0,
    }
}

/// The header of a cell, and 0 for any other node.
fn header_of(fields: &Fields) -> u8
    ensures { result ≡ shown.header_of fields.now }
{
    match fields {
        Fields::Element(element) => header_of_extra(&element.extra),
        _ => 0,
    }
}

/// The element of a node of this kind with these fields.
pub fn tag_of(kind: Kind, fields: &Fields) -> Tag
    ensures { result ≡ shown.tag_of kind fields.now }
{
    match kind {
        Kind::Root => Tag::Div,
        Kind::Paragraph => Tag::P,
        Kind::Heading(level) => heading_tag(level),
        Kind::Quote => Tag::Blockquote,
        Kind::List(numbering) => list_tag(numbering),
        Kind::Item => Tag::Li,
        Kind::Link => Tag::A,
        Kind::Table => Tag::Table,
        Kind::Row => Tag::Tr,
        Kind::Cell => {
            if header_of(fields) == 0 {
                Tag::Td
            } else {
                Tag::Th
            }
        }
        Kind::Text | Kind::Tab => {
            let format = format_of(fields);
            Tag::Inline(outer_of(format), inner_of(format))
        }
        Kind::Break => Tag::Br,
        Kind::Rule => Tag::Hr,
        Kind::Embed => Tag::Inline(None, Inner::Span),
    }
}
