//! The attributes that show a node, in byte order of their names. Each is put where that order has it, so
//! nothing is sorted.

ghost use Rattle.std.specs.Prelude.{◌≡◌, ◌++◌, IfOk, OnOk, decimal};
ghost use Rattle.lx_render.specs.Render as shown;

use crate::classes::class_of;
use crate::values::{
    align_word, checked_word, copied, copied_if_any, decimal, direction_word, indent_word,
    not_empty, role_word, span_word, start_word, word,
};
use lx_host::{Attrs, Name};
use lx_node::{ElementFields, Extra, Fields, Kind, NoMemory, TextFields, Txt};
use std::alloc::Global;

/// Adds an attribute, if there is a value for it.
fn give(list: &mut Vec<(Name, Txt)>, name: Name, value: Option<Txt>) -> Result<(), NoMemory>
    ensures { OnOk result (list.new.items ≡ list.old.items ++ shown.given name value) }
{
    match value {
        None => Ok(()),
        Some(value) => {
            list.push((name, value))?;
            Ok(())
        }
    }
}

/// Adds what is before the alignment.
fn give_first(alloc: Global, list: &mut Vec<(Name, Txt)>, extra: &Extra) -> Result<(), NoMemory>
    ensures { OnOk result (list.new.items ≡ list.old.items ++ shown.first_attributes extra.now) }
{
    match extra {
        Extra::Item { checked, .. } => {
            let checked = checked_word(alloc, *checked)?;
            give(list, Name::AriaChecked, checked)
        }
        Extra::Cell { col_span, .. } => {
            let span = span_word(alloc, *col_span)?;
            give(list, Name::ColSpan, span)
        }
        Extra::Plain | Extra::List { .. } | Extra::Link { .. } => Ok(()),
    }
}

/// Adds what is between the alignment and the indent.
fn give_middle(alloc: Global, list: &mut Vec<(Name, Txt)>, extra: &Extra) -> Result<(), NoMemory>
    ensures { OnOk result (list.new.items ≡ list.old.items ++ shown.middle_attributes extra.now) }
{
    match extra {
        Extra::Cell { background, .. } => {
            let background = copied_if_any(alloc, background)?;
            give(list, Name::DataBg, background)
        }
        Extra::Plain | Extra::List { .. } | Extra::Item { .. } | Extra::Link { .. } => Ok(()),
    }
}

/// Adds what a link has.
fn give_link(
    alloc: Global,
    list: &mut Vec<(Name, Txt)>,
    rel: &Option<Txt>,
    target: &Option<Txt>,
    title: &Option<Txt>,
    url: &Txt,
) -> Result<(), NoMemory>
    ensures { OnOk result (list.new.items ≡ list.old.items
        ++ (shown.given Name.Href (Some url.now) ++ shown.given Name.Rel rel.now
        ++ shown.given Name.Target target.now ++ shown.given Name.Title title.now)) }
{
    let url = copied(alloc, url)?;
    give(list, Name::Href, url)?;
    let rel = copied_if_any(alloc, rel)?;
    give(list, Name::Rel, rel)?;
    let target = copied_if_any(alloc, target)?;
    give(list, Name::Target, target)?;
    let title = copied_if_any(alloc, title)?;
    give(list, Name::Title, title)
}

/// Adds the number of an item, after its role.
fn give_item(
    alloc: Global,
    list: &mut Vec<(Name, Txt)>,
    value: u32,
    checked: Option<bool>,
) -> Result<(), NoMemory>
    ensures { OnOk result (list.new.items ≡ list.old.items
        ++ (shown.given Name.Role (shown.role_word checked) ++ shown.given Name.Value (Some (decimal value)))) }
{
    let role = role_word(alloc, checked)?;
    give(list, Name::Role, role)?;
    let value = decimal(alloc, value)?;
    give(list, Name::Value, value)
}

/// Adds what is after the direction.
fn give_last(
    alloc: Global,
    list: &mut Vec<(Name, Txt)>,
    kind: Kind,
    extra: &Extra,
) -> Result<(), NoMemory>
    ensures { OnOk result (list.new.items ≡ list.old.items ++ shown.last_attributes kind extra.now) }
{
    match extra {
        Extra::Plain => Ok(()),
        Extra::List { start } => {
            let start = start_word(alloc, kind, *start)?;
            give(list, Name::Start, start)
        }
        Extra::Item { value, checked } => give_item(alloc, list, *value, *checked),
        Extra::Link {
            rel,
            target,
            title,
            url,
        } => give_link(alloc, list, rel, target, title, url),
        Extra::Cell { row_span, .. } => {
            let span = span_word(alloc, *row_span)?;
            give(list, Name::RowSpan, span)
        }
    }
}

/// The attributes of an element.
fn element_attributes(
    alloc: Global,
    kind: Kind,
    element: &ElementFields,
) -> Result<Vec<(Name, Txt)>, NoMemory>
    ensures { IfOk result (λ list. list.items ≡ shown.element_attributes kind element.now) }
{
    let mut list = Vec::new(alloc);
    give_first(alloc, &mut list, &element.extra)?;
    let align = align_word(alloc, element.format)?;
    give(&mut list, Name::DataAlign, align)?;
    give_middle(alloc, &mut list, &element.extra)?;
    let indent = indent_word(alloc, element.indent)?;
    give(&mut list, Name::DataIndent, indent)?;
    let direction = direction_word(alloc, element.direction)?;
    give(&mut list, Name::Dir, direction)?;
    give_last(alloc, &mut list, kind, &element.extra)?;
    Ok(list)
}

/// The attributes of a text.
fn text_attributes(alloc: Global, text: &TextFields) -> Result<Vec<(Name, Txt)>, NoMemory>
    ensures { IfOk result (λ list. list.items ≡ shown.text_attributes text.now) }
{
    let mut list = Vec::new(alloc);
    let class = class_of(alloc, text.format)?;
    give(&mut list, Name::Class, not_empty(class))?;
    let truth = word(alloc, "true")?;
    give(&mut list, Name::DataLexicalText, truth)?;
    let style = text.style.copy(alloc)?;
    give(&mut list, Name::Style, not_empty(style))?;
    Ok(list)
}

/// The attribute of what isn't made of text.
fn decorated(alloc: Global) -> Result<Vec<(Name, Txt)>, NoMemory>
    ensures { IfOk result (λ list. list.items ≡ shown.decorated) }
{
    let mut list = Vec::new(alloc);
    let truth = word(alloc, "true")?;
    give(&mut list, Name::DataLexicalDecorator, truth)?;
    Ok(list)
}

fn embed_attributes(alloc: Global, source: &Txt) -> Result<Vec<(Name, Txt)>, NoMemory>
    ensures { IfOk result (λ list. list.items ≡ shown.decorated ++ shown.given Name.DataSrc (Some source.now)) }
{
    let mut list = decorated(alloc)?;
    let source = copied(alloc, source)?;
    give(&mut list, Name::DataSrc, source)?;
    Ok(list)
}

fn list_of(alloc: Global, kind: Kind, fields: &Fields) -> Result<Vec<(Name, Txt)>, NoMemory>
    ensures { IfOk result (λ list. list.items ≡ shown.attributes_of kind fields.now) }
{
    match fields {
        Fields::Element(element) => element_attributes(alloc, kind, element),
        Fields::Text(text) => text_attributes(alloc, text),
        Fields::Embed(source) => embed_attributes(alloc, source),
        Fields::Bare => match kind {
            Kind::Rule => decorated(alloc),
            _ => Ok(Vec::new(alloc)),
        },
    }
}

/// The attributes of a node of this kind with these fields.
pub(crate) fn attributes_of(alloc: Global, kind: Kind, fields: &Fields) -> Result<Attrs, NoMemory>
    ensures { IfOk result (λ attributes. attributes ≡ shown.attributes_of kind fields.now) }
{
    let list = list_of(alloc, kind, fields)?;
    Ok(Attrs::of(list))
}
