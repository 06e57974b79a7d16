//! The object that is written for a node, as documents have it.

ghost use Rattle.std.specs.Prelude.{◌≡◌, ◌==◌, Option, option_map, Ok, IfOk, OnOk};
ghost use Rattle.serde_json.specs.Data.{put as with_member};
ghost use Rattle.serde_json.specs.View.{view, items_view, members_view};
ghost use Rattle.lx_node.specs.OfKind.{IsOfKind};
ghost use Rattle.lx_fields.specs.Documents.{document_fields};
ghost use Rattle.lx_fields.specs.Exporting as exporting;
ghost use Rattle.lx_fields.specs.Exporting.{written_onto, is_empty, layout_members, typed_members, extra_members, element_members, text_members, field_members, kind_members, node_members};
ghost use Rattle.lx_fields.specs.Parts.{natural, text_data, or_null};
ghost use Rattle.lx_fields.specs.Storable.{IsText, IsTextIfAny, IsShort, IsExtraStorable, IsLinkStorable, IsElementStorable, IsTextStorable, IsStorable};
ghost use Rattle.lx_node.specs.declared.fields.Extra.TheVariants as extra;

use crate::words::{align_word, direction_word, level_word, list_word, mode_word};
use lx_node::{Direction, ElementFields, Extra, Fields, Kind, ListType, NoMemory, TextFields, Txt};
use serde_json::{Map, Value, put};
use std::alloc::{AllocError, Global};

/// The version of the objects that are written.
const VERSION: u8 = 1;

// ---- words

fn list_tag(list_type: ListType) -> &'static str
    ensures { result.now ≡ exporting.list_tag list_type }
{
    match list_type {
        ListType::Number => "ol",
        ListType::Bullet | ListType::Check => "ul",
    }
}

fn direction_value(alloc: Global, direction: Direction) -> Result<Value, AllocError>
    ensures { IfOk result (λ v. view v ≡ exporting.direction_data direction) }
{
    match direction {
        Direction::Unset => Ok(Value::Null),
        set => Value::try_from_str(alloc, direction_word(set)),
    }
}

// ---- texts

/// A text, which it also says to be of scalar values.
fn string_value(alloc: Global, text: &Txt) -> Result<Value, AllocError>
    ensures written { IfOk result (λ v. view v ≡ text_data text.now) }
    ensures scalar { IsText text.now }
{
    Value::try_from_str(alloc, text.as_str())
}

fn string_or_null(alloc: Global, text: &Option<Txt>) -> Result<Value, AllocError>
    ensures written { IfOk result (λ v. view v ≡ or_null text_data text.now) }
    ensures scalar { IsTextIfAny text.now }
{
    match text {
        Some(text) => string_value(alloc, text),
        None => Ok(Value::Null),
    }
}

// ---- members

/// Puts a member of this name, where there is one.
fn put_any(
    members: &mut Map<String, Value>,
    alloc: Global,
    name: &str,
    value: Option<Value>,
) -> Result<(), AllocError>
    ensures { OnOk result (members_view members.new.entries ≡ exporting.put_any name.now (option_map view value) (members_view members.old.entries)) }
{
    match value {
        Some(value) => put(members, alloc, name, value),
        None => Ok(()),
    }
}

/// A number, which it also says to have 16 bits.
fn put_short(
    members: &mut Map<String, Value>,
    alloc: Global,
    name: &str,
    number: u16,
) -> Result<(), AllocError>
    ensures written { OnOk result (members_view members.new.entries ≡ with_member name.now (natural number) (members_view members.old.entries)) }
    ensures short { IsShort number }
{
    put(members, alloc, name, Value::from(number))
}

/// Direction, format and indentation, which each element has.
fn put_layout(
    members: &mut Map<String, Value>,
    alloc: Global,
    element: &ElementFields,
) -> Result<(), AllocError>
    ensures written { OnOk result (members_view members.new.entries ≡ written_onto (members_view members.old.entries) (layout_members element.now)) }
    ensures indent { OnOk result (IsShort element.now.indent) }
{
    let direction = direction_value(alloc, element.direction)?;
    put(members, alloc, "direction", direction)?;
    let format = Value::try_from_str(alloc, align_word(element.format))?;
    put(members, alloc, "format", format)?;
    put_short(members, alloc, "indent", element.indent)
}

/// A member that a paragraph always includes, and another element only where it isn't the default.
fn kept(kind: Kind, is_default: bool, value: Value) -> Option<Value>
    ensures { option_map view result ≡ exporting.kept kind is_default (view value) }
{
    match kind {
        Kind::Paragraph => Some(value),
        _ => {
            if is_default {
                return None;
            }
            Some(value)
        }
    }
}

/// The format of texts that are put into an element.
fn typed_format(kind: Kind, format: u16) -> Option<Value>
    ensures written { option_map view result ≡ exporting.kept kind (format == 0) (natural format) }
    ensures short { IsShort format }
{
    let is_default = format == 0;
    kept(kind, is_default, Value::from(format))
}

/// The style of texts that are put into an element.
#[tactic(auto, using(crate::proofs::Written::is_empty_told))]
fn typed_style(alloc: Global, kind: Kind, style: &Txt) -> Result<Option<Value>, AllocError>
    ensures written { IfOk result (λ made. option_map view made ≡ exporting.kept kind (is_empty style.now) (text_data style.now)) }
    ensures scalar { IsText style.now }
{
    let text = string_value(alloc, style)?;
    let is_default = style.is_empty();
    Ok(kept(kind, is_default, text))
}

/// Format and style of texts that are put into an element.
fn put_typed(
    members: &mut Map<String, Value>,
    alloc: Global,
    kind: Kind,
    element: &ElementFields,
) -> Result<(), AllocError>
    ensures written { OnOk result (members_view members.new.entries ≡ written_onto (members_view members.old.entries) (typed_members kind element.now)) }
    ensures short { OnOk result (IsShort element.now.text_format) }
    ensures scalar { OnOk result (IsText element.now.text_style) }
{
    let format = typed_format(kind, element.text_format);
    put_any(members, alloc, "textFormat", format)?;
    let style = typed_style(alloc, kind, &element.text_style)?;
    put_any(members, alloc, "textStyle", style)
}

/// An item's number, and whether it is checked where it says anything of that.
fn put_item(
    members: &mut Map<String, Value>,
    alloc: Global,
    value: u32,
    checked: Option<bool>,
) -> Result<(), AllocError>
    ensures { OnOk result (members_view members.new.entries ≡ written_onto (members_view members.old.entries) (extra_members (extra.Item value checked))) }
{
    put(members, alloc, "value", Value::from(value))?;
    match checked {
        None => Ok(()),
        Some(checked) => put(members, alloc, "checked", Value::from(checked)),
    }
}

/// Where a link leads, and what else it says.
fn put_link(
    members: &mut Map<String, Value>,
    alloc: Global,
    rel: &Option<Txt>,
    target: &Option<Txt>,
    title: &Option<Txt>,
    url: &Txt,
) -> Result<(), AllocError>
    ensures written { OnOk result (members_view members.new.entries ≡ written_onto (members_view members.old.entries) (extra_members (extra.Link rel.now target.now title.now url.now))) }
    ensures scalar { OnOk result (IsLinkStorable rel.now target.now title.now url.now) }
{
    let rel = string_or_null(alloc, rel)?;
    put(members, alloc, "rel", rel)?;
    let target = string_or_null(alloc, target)?;
    put(members, alloc, "target", target)?;
    let title = string_or_null(alloc, title)?;
    put(members, alloc, "title", title)?;
    let url = string_value(alloc, url)?;
    put(members, alloc, "url", url)
}

/// A cell's header, its spans and its background.
fn put_cell(
    members: &mut Map<String, Value>,
    alloc: Global,
    header: u8,
    row_span: u16,
    col_span: u16,
    background: &Option<Txt>,
) -> Result<(), AllocError>
    ensures written { OnOk result (members_view members.new.entries ≡ written_onto (members_view members.old.entries) (extra_members (extra.Cell header row_span col_span background.now))) }
    ensures scalar { OnOk result (IsTextIfAny background.now) }
{
    put(members, alloc, "headerState", Value::from(header))?;
    put(members, alloc, "rowSpan", Value::from(row_span))?;
    put(members, alloc, "colSpan", Value::from(col_span))?;
    let background = string_or_null(alloc, background)?;
    put(members, alloc, "backgroundColor", background)
}

/// The members that only some kinds of elements have.
fn put_extra(
    members: &mut Map<String, Value>,
    alloc: Global,
    extra: &Extra,
) -> Result<(), AllocError>
    ensures written { OnOk result (members_view members.new.entries ≡ written_onto (members_view members.old.entries) (extra_members extra.now)) }
    ensures scalar { OnOk result (IsExtraStorable extra.now) }
{
    match extra {
        Extra::Plain => Ok(()),
        Extra::List { start } => put(members, alloc, "start", Value::from(*start)),
        Extra::Item { value, checked } => put_item(members, alloc, *value, *checked),
        Extra::Link {
            rel,
            target,
            title,
            url,
        } => put_link(members, alloc, rel, target, title, url),
        Extra::Cell {
            header,
            row_span,
            col_span,
            background,
        } => put_cell(members, alloc, *header, *row_span, *col_span, background),
    }
}

/// The members of an element.
fn put_element(
    members: &mut Map<String, Value>,
    alloc: Global,
    kind: Kind,
    element: &ElementFields,
) -> Result<(), AllocError>
    ensures written { OnOk result (members_view members.new.entries ≡ written_onto (members_view members.old.entries) (element_members kind element.now)) }
    ensures storable { OnOk result (IsElementStorable element.now) }
{
    put_layout(members, alloc, element)?;
    put_typed(members, alloc, kind, element)?;
    put_extra(members, alloc, &element.extra)
}

/// The members of a text or a tab.
fn put_text(
    members: &mut Map<String, Value>,
    alloc: Global,
    text: &TextFields,
) -> Result<(), AllocError>
    ensures written { OnOk result (members_view members.new.entries ≡ written_onto (members_view members.old.entries) (text_members text.now)) }
    ensures storable { OnOk result (IsTextStorable text.now) }
{
    let characters = string_value(alloc, &text.text)?;
    put(members, alloc, "text", characters)?;
    put_short(members, alloc, "format", text.format)?;
    put(members, alloc, "detail", Value::from(text.detail))?;
    let mode = Value::try_from_str(alloc, mode_word(text.mode))?;
    put(members, alloc, "mode", mode)?;
    let style = string_value(alloc, &text.style)?;
    put(members, alloc, "style", style)
}

/// The members for the fields.
fn put_fields(
    members: &mut Map<String, Value>,
    alloc: Global,
    kind: Kind,
    fields: &Fields,
) -> Result<(), AllocError>
    ensures written { OnOk result (members_view members.new.entries ≡ written_onto (members_view members.old.entries) (field_members kind fields.now)) }
    ensures storable { OnOk result (IsStorable fields.now) }
{
    match fields {
        Fields::Element(element) => put_element(members, alloc, kind, element),
        Fields::Text(text) => put_text(members, alloc, text),
        Fields::Embed(source) => {
            let source = string_value(alloc, source)?;
            put(members, alloc, "src", source)
        }
        Fields::Bare => Ok(()),
    }
}

/// What a heading's tag says, or a list's type and tag.
fn put_kind(members: &mut Map<String, Value>, alloc: Global, kind: Kind) -> Result<(), AllocError>
    ensures { OnOk result (members_view members.new.entries ≡ written_onto (members_view members.old.entries) (kind_members kind)) }
{
    match kind {
        Kind::Heading(level) => {
            let tag = Value::try_from_str(alloc, level_word(level))?;
            put(members, alloc, "tag", tag)
        }
        Kind::List(list_type) => {
            let word = Value::try_from_str(alloc, list_word(list_type))?;
            put(members, alloc, "listType", word)?;
            let tag = Value::try_from_str(alloc, list_tag(list_type))?;
            put(members, alloc, "tag", tag)
        }
        _ => Ok(()),
    }
}

/// An element's children.
fn children_value(fields: &Fields, children: Vec<Value>) -> Option<Value>
    ensures { option_map view result ≡ exporting.children_data fields.now (items_view children.items) }
{
    match fields {
        Fields::Element(_) => Some(Value::Array(children)),
        _ => None,
    }
}

/// A node's type, the version, and an element's children.
fn put_node(
    members: &mut Map<String, Value>,
    alloc: Global,
    kind: Kind,
    fields: &Fields,
    children: Vec<Value>,
) -> Result<(), AllocError>
    ensures { OnOk result (members_view members.new.entries ≡ written_onto (members_view members.old.entries) (node_members kind fields.now (items_view children.items))) }
{
    let name = Value::try_from_str(alloc, kind.type_name())?;
    put(members, alloc, "type", name)?;
    put(members, alloc, "version", Value::from(VERSION))?;
    let children = children_value(fields, children);
    put_any(members, alloc, "children", children)
}

/// The object of a node, which also says that its fields are such as code has them.
#[tactic(auto, unfolding(crate::specs::Exporting::node_data))]
fn node_object(
    alloc: Global,
    kind: Kind,
    fields: &Fields,
    children: Vec<Value>,
) -> Result<Value, AllocError>
    ensures written { IfOk result (λ v. view v ≡ exporting.node_data kind fields.now (items_view children.items)) }
    ensures storable { OnOk result (IsStorable fields.now) }
{
    let mut members = Map::new(alloc);
    put_fields(&mut members, alloc, kind, fields)?;
    put_kind(&mut members, alloc, kind)?;
    put_node(&mut members, alloc, kind, fields, children)?;
    Ok(Value::Object(members))
}

/// The object that is written for a node of the kind with these fields, and for an element with what is written for its
/// children: its type, the version 1, and its fields. `fields_of` reads the same fields from it.
pub fn node_value(
    alloc: Global,
    kind: Kind,
    fields: &Fields,
    children: Vec<Value>,
) -> Result<Value, NoMemory>
    requires of_kind { IsOfKind kind fields.now }
    ensures written { IfOk result (λ v. view v ≡ exporting.node_data kind fields.now (items_view children.items)) }
    ensures fields { IfOk result (λ v. document_fields kind (view v) ≡ Ok fields.now) }
{
    let value = node_object(alloc, kind, fields, children)?;
    Ok(value)
}
