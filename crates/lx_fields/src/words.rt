//! The words of nodes' types and members, and what they stand for.

ghost use Rattle.std.specs.Prelude.{◌≡◌, ◌≢◌, map};
ghost use Rattle.serde_json.specs.Data.{string};
ghost use Rattle.lx_node.specs.declared.fields.Direction.TheVariants.{Unset};
ghost use Rattle.serde_json.specs.View.{view};
ghost use Rattle.lx_fields.specs.Words as words;
ghost use Rattle.lx_fields.specs.Values as values;
ghost use Rattle.lx_fields.specs.Exporting as exporting;

use crate::values::{is_same, named, word_in};
use lx_node::{Align, Direction, Kind, ListType, Mode};
use serde_json::Value;

/// A member of nodes that documents and scripts name.
#[derive(Clone, Copy)]
pub enum Name {
    Direction,
    Format,
    Indent,
    TextFormat,
    TextStyle,
    Tag,
    ListType,
    Start,
    Checked,
    Value,
    Rel,
    Target,
    Title,
    Url,
    HeaderState,
    ColSpan,
    RowSpan,
    Background,
    Text,
    Style,
    Detail,
    Mode,
    Src,
}

/// The kinds of nodes that scripts make: all but the root's. A heading and a list are those that they are by default.
const MADE_KINDS: [Kind; 14] = [
    Kind::Paragraph,
    Kind::Heading(1),
    Kind::Quote,
    Kind::List(ListType::Bullet),
    Kind::Item,
    Kind::Link,
    Kind::Table,
    Kind::Row,
    Kind::Cell,
    Kind::Text,
    Kind::Tab,
    Kind::Break,
    Kind::Rule,
    Kind::Embed,
];

/// The kind of a type among these.
fn kind_in(kinds: &[Kind], text: &str) -> Option<Kind>
    ensures { result ≡ words.kind_in kinds.now text.now }
{
    'kinds: for kind in kinds {
        if is_same(kind.type_name(), text) {
            return Some(*kind);
        }
    }
    None
}

/// The kind of a type, for all kinds but the root's. A heading and a list are those that they are by default.
pub fn made_kind(text: &str) -> Option<Kind>
    ensures { result ≡ words.kind_in words.made_kinds text.now }
{
    kind_in(&MADE_KINDS, text)
}

/// The tags of headings, and the levels that they stand for.
const LEVELS: [(&str, u8); 6] = [
    ("h1", 1),
    ("h2", 2),
    ("h3", 3),
    ("h4", 4),
    ("h5", 5),
    ("h6", 6),
];

const LIST_TYPES: [(&str, ListType); 3] = [
    ("bullet", ListType::Bullet),
    ("number", ListType::Number),
    ("check", ListType::Check),
];

const DIRECTIONS: [(&str, Direction); 2] = [("ltr", Direction::Ltr), ("rtl", Direction::Rtl)];

const ALIGNS: [(&str, Align); 7] = [
    ("", Align::Unset),
    ("left", Align::Left),
    ("center", Align::Center),
    ("right", Align::Right),
    ("justify", Align::Justify),
    ("start", Align::Start),
    ("end", Align::End),
];

const MODES: [(&str, Mode); 3] = [
    ("normal", Mode::Normal),
    ("token", Mode::Token),
    ("segmented", Mode::Segmented),
];

// ---- reading

/// The level of a heading's tag.
pub fn level_of(value: &Value) -> Option<u8>
    ensures { result ≡ values.named words.levels (view value.now) }
{
    named(&LEVELS, value)
}

/// The type of a list.
pub fn list_type_of(value: &Value) -> Option<ListType>
    ensures { result ≡ values.named words.list_types (view value.now) }
{
    named(&LIST_TYPES, value)
}

pub(crate) fn direction_of(value: &Value) -> Option<Direction>
    ensures { result ≡ values.named words.directions (view value.now) }
{
    named(&DIRECTIONS, value)
}

pub(crate) fn align_of(value: &Value) -> Option<Align>
    ensures { result ≡ values.named words.aligns (view value.now) }
{
    named(&ALIGNS, value)
}

pub(crate) fn mode_of(value: &Value) -> Option<Mode>
    ensures { result ≡ values.named words.modes (view value.now) }
{
    named(&MODES, value)
}

// ---- writing

/// The word that stands for this in a table of words: an empty one where none does.
fn word_for<T: Copy + PartialEq>(rows: &[(&'static str, T)], meaning: T) -> &'static str
    ensures { result.now ≡ exporting.word_for T.PartialEq.eq (map (λ row. (row.0.now, row.1)) rows.now) meaning }
{
    'rows: for (word, found) in rows {
        if *found == meaning {
            return *word;
        }
    }
    ""
}

/// The tag of a heading's level.
pub(crate) fn level_word(level: u8) -> &'static str
    ensures { result.now ≡ exporting.level_word level }
{
    word_for(&LEVELS, level)
}

pub(crate) fn list_word(list_type: ListType) -> &'static str
    ensures { result.now ≡ exporting.list_word list_type }
{
    word_for(&LIST_TYPES, list_type)
}

/// The word of a direction that is set.
pub(crate) fn direction_word(direction: Direction) -> &'static str
    ensures { (direction ≢ Unset) → string result.now ≡ exporting.direction_data direction }
{
    word_for(&DIRECTIONS, direction)
}

#[tactic(auto, unfolding(lx_node::specs::Same::same_align))]
pub(crate) fn align_word(align: Align) -> &'static str
    ensures { result.now ≡ exporting.align_word align }
{
    word_for(&ALIGNS, align)
}

#[tactic(auto, unfolding(lx_node::specs::Same::same_mode))]
pub(crate) fn mode_word(mode: Mode) -> &'static str
    ensures { result.now ≡ exporting.mode_word mode }
{
    word_for(&MODES, mode)
}

/// The members' names in byte order, and what they stand for.
const NAMES: [(&str, Name); 23] = [
    ("backgroundColor", Name::Background),
    ("checked", Name::Checked),
    ("colSpan", Name::ColSpan),
    ("detail", Name::Detail),
    ("direction", Name::Direction),
    ("format", Name::Format),
    ("headerState", Name::HeaderState),
    ("indent", Name::Indent),
    ("listType", Name::ListType),
    ("mode", Name::Mode),
    ("rel", Name::Rel),
    ("rowSpan", Name::RowSpan),
    ("src", Name::Src),
    ("start", Name::Start),
    ("style", Name::Style),
    ("tag", Name::Tag),
    ("target", Name::Target),
    ("text", Name::Text),
    ("textFormat", Name::TextFormat),
    ("textStyle", Name::TextStyle),
    ("title", Name::Title),
    ("url", Name::Url),
    ("value", Name::Value),
];

/// The member of this name.
pub fn name_of(text: &str) -> Option<Name>
    ensures { result ≡ values.word_in words.names text.now }
{
    word_in(&NAMES, text)
}
