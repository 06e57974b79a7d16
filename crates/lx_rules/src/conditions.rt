ghost use Rattle.std.specs.Prelude.{◌≡◌, ◌↔◌, IsTrue, chars, option_copied};
ghost use Rattle.std.specs.List.{list_all};
ghost use Rattle.std.specs.Str.Iter.{HasSubslice};
ghost use Rattle.lx_rules.specs.Answers as answers;
ghost use Rattle.lx_rules.specs.Pieces.{has_piece};

use crate::glance::Glance;
use crate::types::is_of_row;
use lx_node::{Kind, TextFields};
use lx_step::{Condition, TypeRow};
use lx_text::length_of;

/// Whether a piece is in a text, with all its characters one after another.
fn contains(text: &str, piece: &str) -> bool
    ensures same { result ≡ has_piece (chars piece.now) (chars text.now) }
    ensures told { IsTrue result ↔ HasSubslice (chars text.now) (chars piece.now) }
{
    text.contains(piece)
}

/// Whether a text is what a condition on texts asks for. One on what is around the node asks nothing of it.
fn is_met_by_text(condition: &Condition, own: &TextFields) -> bool
    ensures { result ≡ answers.text_meets condition.now own.now }
{
    match condition {
        Condition::Text(text) => own.text.is_equal(text),
        Condition::Contains(piece) => contains(own.text.as_str(), piece.as_str()),
        Condition::Shorter(limit) => u64::from(length_of(&own.text)) < *limit,
        Condition::Format(format) => u64::from(own.format) == *format,
        _ => true,
    }
}

/// Whether a neighbour is of the type, or there is none where none is asked for.
fn is_beside(row: Option<TypeRow>, kind: Option<Kind>) -> bool
    ensures { result ≡ answers.is_beside row kind }
{
    match row {
        None => kind.is_none(),
        Some(row) => is_of_row(row.0, kind),
    }
}

/// Whether a condition holds at a node and of its text, where it has one. Those on a text hold of no other node, nor of
/// a tab.
#[tactic(auto, unfolding(lx_node::specs::Kinds::is_text))]
fn is_met(condition: &Condition, glance: &Glance, own: Option<&TextFields>) -> bool
    ensures { result ≡ answers.meets_at glance.now (option_copied own.entry) condition.now }
{
    match condition {
        Condition::Parent(row) => is_of_row(row.0, glance.parent),
        Condition::Previous(row) => is_beside(*row, glance.prev),
        Condition::Next(row) => is_beside(*row, glance.next),
        Condition::Childless => glance.is_childless,
        Condition::Text(_)
        | Condition::Contains(_)
        | Condition::Shorter(_)
        | Condition::Format(_) => match (glance.kind, own) {
            (Kind::Text, Some(own)) => is_met_by_text(condition, own),
            _ => false,
        },
    }
}

/// Whether all conditions hold at a node and of its text, where it has one.
pub(crate) fn are_met(conditions: &[Condition], glance: &Glance, own: Option<&TextFields>) -> bool
    ensures { result ≡ list_all (answers.meets_at glance.now (option_copied own.entry)) conditions.now }
{
    conditions
        .iter()
        .all(|condition| is_met(condition, glance, own))
}
