//! Whether the conditions hold under which a listener runs its steps.

ghost use Rattle.std.specs.Prelude.{◌≡◌, chars};
ghost use Rattle.lx_node.specs.Same.{same_text};
ghost use Rattle.lx_update.specs.Holding as holding;

use crate::resolving::anchor_of;
use lx_blocks::block;
use lx_draft::Draft;
use lx_node::{Kind, Txt};
use lx_select::Selection;
use lx_step::{Payload, When};

/// Whether each condition holds that is given, of the payload that was sent and of the draft.
#[tactic(auto, unfolding(crate::specs::Holding::conditions_hold))]
pub(crate) fn holds(when: &When, sent: &Payload, draft: &Draft) -> bool
    ensures { result ≡ holding.conditions_hold when.now sent.now draft.now }
{
    payload_holds(&when.payload, sent)
        && selection_holds(&when.selection, draft.selection())
        && block_holds(&when.block, draft)
}

/// The payload is this text, if one is given.
fn payload_holds(told: &Option<Txt>, sent: &Payload) -> bool
    ensures { result ≡ holding.if_told (λ text. holding.is_payload_text text sent.now) told.now }
{
    match told {
        Some(text) => is_text(text, sent),
        None => true,
    }
}

fn is_text(text: &Txt, payload: &Payload) -> bool
    ensures { result ≡ holding.is_payload_text text.now payload.now }
{
    match payload {
        Payload::Text(other) => text.is_equal(other),
        _ => false,
    }
}

/// The selection is of this kind, if one is given.
fn selection_holds(told: &Option<Txt>, selection: &Selection) -> bool
    ensures { result ≡ holding.if_told (λ text. same_text text (chars (holding.selection_word selection.now))) told.now }
{
    match told {
        Some(text) => is_word(text, selection_word(selection)),
        None => true,
    }
}

fn is_word(text: &Txt, word: &str) -> bool
    ensures { result ≡ same_text text.now (chars word.now) }
{
    text.is(word)
}

/// The word for the kind of a selection.
fn selection_word(selection: &Selection) -> &'static str
    ensures { result.now ≡ holding.selection_word selection.now }
{
    match selection {
        Selection::Nothing => "none",
        Selection::Range { .. } => "range",
        Selection::Nodes(_) => "nodes",
        Selection::Cells { .. } => "cells",
    }
}

/// The text block in which the anchor lies is of this type, if one is given.
fn block_holds(told: &Option<Txt>, draft: &Draft) -> bool
    ensures { result ≡ holding.if_told (λ text. holding.is_type text (holding.block_kind draft.now)) told.now }
{
    match told {
        Some(text) => is_type(text, block_kind(draft)),
        None => true,
    }
}

fn is_type(text: &Txt, kind: Option<Kind>) -> bool
    ensures { result ≡ holding.is_type text.now kind }
{
    match kind {
        Some(kind) => is_word(text, kind.type_name()),
        None => false,
    }
}

/// The kind of the text block in which the anchor lies.
fn block_kind(draft: &Draft) -> Option<Kind>
    ensures { result ≡ holding.block_kind draft.now }
{
    match anchor_of(draft.selection()) {
        Some(anchor) => match block(draft.links(), anchor) {
            Some(block) => draft.links().kind(block),
            None => None,
        },
        None => None,
    }
}
