//! The words of the grammar, and what they stand for.

ghost use Rattle.std.specs.Prelude.{◌≡◌, option_map};
ghost use Rattle.serde_json.specs.View.{view};
ghost use Rattle.lx_script.specs.Words as words;
ghost use Rattle.lx_fields.specs.Values as values;

use lx_fields::{first_member, kind_of_type, made_kind, named, only_member};
use lx_node::{Kind, PointKind};
use lx_step::Shown;
use serde_json::Value;

/// What a step does, by the word that sets it apart from others.
#[derive(Clone, Copy)]
pub(crate) enum Verb {
    Append,
    New,
    Put,
    Remove,
    Replace,
    Set,
    Mark,
    Split,
    Join,
    Wrap,
    Unwrap,
    Children,
    Select,
    Do,
    Dispatch,
    Later,
}

/// What a condition of a rule asks, by the word that sets it apart from others.
#[derive(Clone, Copy)]
pub(crate) enum ConditionWord {
    Text,
    Contains,
    Shorter,
    Format,
    Parent,
    Previous,
    Next,
    Childless,
}

/// What an edit of a rule does, by the word that sets it apart from others.
#[derive(Clone, Copy)]
pub(crate) enum EditWord {
    Set,
    Add,
    Remove,
    Replace,
    Wrap,
    Unwrap,
    Before,
    After,
    Child,
    MergeNext,
}

/// The kind whose type a string is, for all kinds but the root's.
pub(crate) fn kind_of(value: &Value) -> Option<Kind>
    ensures { result ≡ words.kind_named (view value.now) }
{
    match value.as_str() {
        Some(text) => made_kind(text),
        None => None,
    }
}

/// The kind whose type a string is, for all kinds.
pub(crate) fn type_of(value: &Value) -> Option<Kind>
    ensures { result ≡ words.type_named (view value.now) }
{
    match value.as_str() {
        Some(text) => kind_of_type(text),
        None => None,
    }
}

pub(crate) fn point_kind_of(value: &Value) -> Option<PointKind>
    ensures { result ≡ values.named words.point_kinds (view value.now) }
{
    named(
        &[("text", PointKind::Text), ("element", PointKind::Element)],
        value,
    )
}

pub(crate) fn shown_of(value: &Value) -> Option<Shown>
    ensures { result ≡ values.named words.questions (view value.now) }
{
    named(
        &[
            ("state", Shown::State),
            ("view", Shown::View),
            ("selection", Shown::Selection),
            ("history", Shown::History),
            ("slice", Shown::Slice),
        ],
        value,
    )
}

/// What a step does, by the first of the words that is one of its members.
pub(crate) fn verb_of(value: &Value) -> Option<Verb>
    ensures { result ≡ values.first_member words.verbs (view value.now) }
{
    first_member(
        &[
            ("append", Verb::Append),
            ("new", Verb::New),
            ("put", Verb::Put),
            ("remove", Verb::Remove),
            ("replace", Verb::Replace),
            ("set", Verb::Set),
            ("mark", Verb::Mark),
            ("split", Verb::Split),
            ("join", Verb::Join),
            ("wrap", Verb::Wrap),
            ("unwrap", Verb::Unwrap),
            ("children", Verb::Children),
            ("select", Verb::Select),
            ("do", Verb::Do),
            ("dispatch", Verb::Dispatch),
            ("later", Verb::Later),
        ],
        value,
    )
}

/// What a condition asks, by the name of its only member, and the member's value.
pub(crate) fn condition_in(value: &Value) -> Option<(ConditionWord, &Value)>
    ensures { option_map (λ found. (found.0, view found.1.now)) result ≡ values.only_member words.condition_words (view value.now) }
{
    only_member(
        &[
            ("text", ConditionWord::Text),
            ("contains", ConditionWord::Contains),
            ("shorter", ConditionWord::Shorter),
            ("format", ConditionWord::Format),
            ("parent", ConditionWord::Parent),
            ("previous", ConditionWord::Previous),
            ("next", ConditionWord::Next),
            ("childless", ConditionWord::Childless),
        ],
        value,
    )
}

/// What an edit does, by the name of its only member, and the member's value.
pub(crate) fn edit_in(value: &Value) -> Option<(EditWord, &Value)>
    ensures { option_map (λ found. (found.0, view found.1.now)) result ≡ values.only_member words.edit_words (view value.now) }
{
    only_member(
        &[
            ("set", EditWord::Set),
            ("add", EditWord::Add),
            ("remove", EditWord::Remove),
            ("replace", EditWord::Replace),
            ("wrap", EditWord::Wrap),
            ("unwrap", EditWord::Unwrap),
            ("before", EditWord::Before),
            ("after", EditWord::After),
            ("child", EditWord::Child),
            ("mergenext", EditWord::MergeNext),
        ],
        value,
    )
}
