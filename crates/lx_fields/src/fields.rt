//! The fields that an object gives a node: a document's, or those of a new node.

ghost use Rattle.std.specs.Prelude.{◌≡◌, IfOk, IfErr, chars, IsTrue, Some, None, Ok, Err, if◌then◌else◌, option_and_then, OnOk};
ghost use Rattle.lx_node.specs.Kinds.{is_possible};
ghost use Rattle.lx_node.specs.OfKind.{IsOfKind};
ghost use Rattle.lx_step.specs.Patches.{has, with_member};
ghost use Rattle.lx_fields.specs.Members as members;
ghost use Rattle.serde_json.specs.Data.{object};
ghost use Rattle.serde_json.specs.View.{view, members_view};
ghost use Rattle.lx_fields.specs.Documents as documents;

use crate::members::settable;
use crate::values::long_within;
use crate::words::{Name, level_of, list_type_of, name_of};
use lx_node::{ElementFields, Extra, Fields, Kind, ListType, NoMemory, TextFields, Txt};
use lx_step::Member;
use serde_json::{Map, Value};
use std::alloc::Global;

/// Why an object gives no fields.
#[derive(Drop)]
pub enum FieldFault {
    Memory,
    /// The member of this name has a value that it doesn't take.
    Bad(Txt),
}

/// What elements of a kind have beside what all elements have, where nothing is given.
#[tactic(auto, unfolding(crate::specs::Documents::default_extra))]
fn default_extra(alloc: Global, kind: Kind) -> Extra
    ensures { result ≡ documents.default_extra kind }
{
    match kind {
        Kind::List(_) => Extra::List { start: 1 },
        Kind::Item => Extra::Item {
            value: 1,
            checked: None,
        },
        Kind::Link => Extra::Link {
            rel: None,
            target: None,
            title: None,
            url: Txt::empty(alloc),
        },
        Kind::Cell => Extra::Cell {
            header: 0,
            row_span: 1,
            col_span: 1,
            background: None,
        },
        _ => Extra::Plain,
    }
}

/// The fields of a kind where nothing is given.
#[tactic(auto, unfolding(crate::specs::Documents::default_fields), using(crate::proofs::Characters::tab_chars))]
fn default_fields(alloc: Global, kind: Kind) -> Result<Fields, NoMemory>
    ensures { IfOk result (λ made. made ≡ documents.default_fields kind) }
{
    match kind {
        Kind::Text => Ok(Fields::Text(TextFields::with(alloc, Txt::empty(alloc), 0))),
        Kind::Tab => {
            let tab = Txt::new(alloc, "\t")?;
            Ok(Fields::Text(TextFields::with(alloc, tab, 2)))
        }
        Kind::Break | Kind::Rule => Ok(Fields::Bare),
        Kind::Embed => Ok(Fields::Embed(Txt::empty(alloc))),
        _ => {
            let extra = default_extra(alloc, kind);
            Ok(Fields::Element(ElementFields::with(alloc, extra)))
        }
    }
}

/// Whether an object gives a node of the kind such a member.
#[tactic(auto, unfolding(crate::specs::Documents::takes, lx_node::specs::Kinds::is_text, lx_node::specs::Kinds::is_embed, lx_node::specs::Kinds::is_heading, lx_node::specs::Kinds::is_list, lx_node::specs::Kinds::is_item, lx_node::specs::Kinds::is_link, lx_node::specs::Kinds::is_cell))]
fn takes(kind: Kind, name: Name) -> bool
    ensures { result ≡ documents.takes kind name }
{
    match name {
        Name::Direction | Name::Indent | Name::TextFormat | Name::TextStyle => kind.is_element(),
        Name::Format => kind.is_element() || kind.has_characters(),
        Name::Tag => matches!(kind, Kind::Heading(_)),
        Name::ListType | Name::Start => matches!(kind, Kind::List(_)),
        Name::Checked | Name::Value => matches!(kind, Kind::Item),
        Name::Rel | Name::Target | Name::Title | Name::Url => matches!(kind, Kind::Link),
        Name::HeaderState | Name::ColSpan | Name::RowSpan | Name::Background => {
            matches!(kind, Kind::Cell)
        }
        Name::Text | Name::Detail | Name::Mode => matches!(kind, Kind::Text),
        Name::Style => kind.has_characters(),
        Name::Src => matches!(kind, Kind::Embed),
    }
}

/// The member of a name that the kind has.
pub fn name_in(kind: Kind, text: &str) -> Option<Name>
    ensures { result ≡ documents.name_in kind text.now }
{
    match name_of(text) {
        Some(name) => {
            let is_taken = takes(kind, name);
            if is_taken { Some(name) } else { None }
        }
        None => None,
    }
}

/// Writes an item's value.
#[tactic(auto, unfolding(crate::specs::Documents::item_with_value))]
fn write_value(value: u32, fields: &mut Fields)
    ensures { fields.new ≡ documents.item_with_value value fields.old }
{
    if let Fields::Element(element) = fields {
        if let Extra::Item { value: old, .. } = &mut element.extra {
            *old = value;
        }
    }
}

/// Writes a member into the fields of a node of the kind, if it can be set there.
fn write_member(
    alloc: Global,
    kind: Kind,
    member: Member,
    fields: &mut Fields,
) -> Result<bool, NoMemory>
    ensures { IfOk result (λ is_taken. (if has kind member then Some (with_member member fields.old) else None) ≡ (if is_taken then Some fields.new else None)) }
{
    if !member.is_of(kind) {
        return Ok(false);
    }
    member.write(alloc, fields)?;
    Ok(true)
}

/// Writes what a member gives that scripts set.
#[tactic(auto)]
fn give_settable(
    alloc: Global,
    kind: Kind,
    name: Name,
    value: &Value,
    fields: &mut Fields,
) -> Result<bool, NoMemory>
    ensures { IfOk result (λ is_taken. option_and_then (λ member. if has kind member then Some (with_member member fields.old) else None) (members.settable name (view value.now)) ≡ (if is_taken then Some fields.new else None)) }
{
    match settable(alloc, name, value)? {
        Some(member) => write_member(alloc, kind, member, fields),
        None => Ok(false),
    }
}

/// Writes what a member of the kind gives. It answers whether its value is one that it takes.
#[tactic(auto, unfolding(crate::specs::Documents::with_given))]
fn give(
    alloc: Global,
    kind: Kind,
    name: Name,
    value: &Value,
    fields: &mut Fields,
) -> Result<bool, NoMemory>
    ensures { IfOk result (λ is_taken. documents.with_given kind name (view value.now) fields.old ≡ (if is_taken then Some fields.new else None)) }
{
    match name {
        Name::Tag => Ok(level_of(value).is_some()),
        Name::ListType => Ok(list_type_of(value).is_some()),
        Name::Value => match long_within(1_200_000, value) {
            Some(number) => {
                write_value(number, fields);
                Ok(true)
            }
            None => Ok(false),
        },
        _ => give_settable(alloc, kind, name, value, fields),
    }
}

/// Writes what a member of the kind gives, unless it is null. It answers whether its value is one that it takes.
#[tactic(auto, unfolding(crate::specs::Documents::given_by))]
fn give_by(
    alloc: Global,
    kind: Kind,
    name: Name,
    value: &Value,
    fields: &mut Fields,
) -> Result<bool, NoMemory>
    ensures { IfOk result (λ is_taken. documents.given_by kind name (Some (view value.now)) fields.old ≡ (if is_taken then Some fields.new else None)) }
{
    if value.is_null() {
        return Ok(true);
    }
    give(alloc, kind, name, value, fields)
}

/// The fault that the member of this name has a bad value.
fn bad(alloc: Global, text: &str) -> FieldFault
    ensures { documents.TellsBad (Err (chars text.now)) result }
{
    match Txt::new(alloc, text) {
        Ok(text) => FieldFault::Bad(text),
        Err(_) => FieldFault::Memory,
    }
}

/// Writes what those of an object's members give that the kind has. They are in byte order of their names, so that the
/// first bad one of them is the first of all.
fn give_each(
    alloc: Global,
    kind: Kind,
    members: &Map<String, Value>,
    fields: &mut Fields,
) -> Result<(), FieldFault>
    ensures ok { OnOk result (documents.fields_given kind (object (members_view members.now.entries)) fields.old ≡ Ok fields.new) }
    ensures err { IfErr result (documents.TellsBad (documents.fields_given kind (object (members_view members.now.entries)) fields.old)) }
{
    'members: for (text, value) in members.iter() {
        let text = text.as_str();
        if let Some(name) = name_in(kind, text) {
            match give_by(alloc, kind, name, value, fields) {
                Ok(true) => {}
                Ok(false) => return Err(bad(alloc, text)),
                Err(_) => return Err(FieldFault::Memory),
            }
        }
    }
    Ok(())
}

/// Writes what those of a value's members give that the kind has. What is no object has none.
#[tactic(auto, using(crate::proofs::InOrder::is_object_of, crate::proofs::InOrder::none_of_others))]
fn give_all(
    alloc: Global,
    kind: Kind,
    object: &Value,
    fields: &mut Fields,
) -> Result<(), FieldFault>
    ensures ok { OnOk result (documents.fields_given kind (view object.now) fields.old ≡ Ok fields.new) }
    ensures err { IfErr result (documents.TellsBad (documents.fields_given kind (view object.now) fields.old)) }
{
    match object.as_object() {
        Some(members) => give_each(alloc, kind, members, fields),
        None => Ok(()),
    }
}

/// An error for which fields are let go. A call of its own, so that no caller has to look into them.
fn let_go(_fields: Fields, fault: FieldFault) -> FieldFault
    ensures { result ≡ fault }
{
    fault
}

/// The fields that an object gives a node of the kind, as documents have them. A member that the kind
/// doesn't have is ignored, and one that is missing or null has its default. A tab has its own text, detail
/// and mode. It is refused as `Bad` exactly where a member has a value that it doesn't take, for the first
/// such in byte order of their names; a heading's `tag` and a list's `listType` are looked at too, though they
/// are the kind's. What is no object gives the defaults. If a node can be of the kind, they are fields of it.
#[tactic(auto, unfolding(crate::specs::Documents::document_fields), using(crate::proofs::Sound::document_fields_of_kind))]
pub fn fields_of(alloc: Global, kind: Kind, from: &Value) -> Result<Fields, FieldFault>
    ensures ok { IfOk result (λ made. documents.document_fields kind (view from.now) ≡ Ok made) }
    ensures err { IfErr result (documents.TellsBad (documents.document_fields kind (view from.now))) }
    ensures of_kind { IsTrue (is_possible kind) → IfOk result (IsOfKind kind) }
{
    let mut fields = match default_fields(alloc, kind) {
        Ok(fields) => fields,
        Err(_) => return Err(FieldFault::Memory),
    };
    match give_all(alloc, kind, from, &mut fields) {
        Ok(()) => Ok(fields),
        Err(fault) => Err(let_go(fields, fault)),
    }
}
