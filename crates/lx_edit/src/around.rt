ghost use Rattle.std.specs.Prelude.{◌≡◌, ◌≤◌};
ghost use Rattle.std.specs.Option.{option_copied};
ghost use Rattle.lx_forest.specs.Lookups as lookups;
ghost use Rattle.lx_node.specs.Limits.{most_counts};
ghost use Rattle.lx_edit.specs.Texts as texts;
ghost use Rattle.lx_edit.specs.Texts.{join_around_step};
ghost use Rattle.lx_edit.specs.Standing.{Does};

use crate::conditions::admitted;
use crate::join::join_texts;
use crate::removing::remove;
use crate::texts::text_at;
use lx_draft::Draft;
use lx_node::{Fault, Key, Mode, TextFields};
use std::alloc::Global;

/// What a text finds beside it that it is joined with.
#[derive(Clone, Copy)]
pub enum Found {
    /// Nothing that it is joined with.
    Nothing,
    /// A simple text that is empty.
    Empty(Key),
    /// A simple text of its format and style.
    Alike(Key),
}

/// Joins a simple text with what is around it. A text is simple if its mode is normal and it isn't
/// unmergeable; any other node is left as it is. An empty one is removed. Otherwise, again and again, an empty
/// simple text before it is removed, and one of its format and style is joined with it, where the earlier of
/// the two stays and goes on; and then the same with what comes after. It is refused where there is no such
/// node, and as the edits are that it makes.
#[tactic(auto, unfolding(crate::specs::Texts::join_around_step))]
pub fn join_around(alloc: Global, draft: &mut Draft, key: Key) -> Result<(), Fault>
    ensures { Does (join_around_step key draft.old) draft.new result }
{
    let fault = draft.links().missing(key);
    admitted(draft, fault)?;
    join_there(alloc, draft, key)
}

/// Joins a node that is there with what is around it.
fn join_there(alloc: Global, draft: &mut Draft, key: Key) -> Result<(), Fault>
    ensures { Does (texts.joined_around key draft.old) draft.new result }
{
    match emptiness(draft, key) {
        Some(true) => remove(draft, key),
        Some(false) => join_back(alloc, draft, key),
        None => Ok(()),
    }
}

/// Joins a text with what comes before it, and then with what comes after.
fn join_back(alloc: Global, draft: &mut Draft, key: Key) -> Result<(), Fault>
    ensures { Does (texts.join_back texts.enough key draft.old) draft.new result }
{
    let mut at = key;
    'back: loop {
        let found = found_before(draft, at);
        match found {
            Found::Nothing => return join_on(alloc, draft, at),
            Found::Empty(other) => match remove(draft, other) {
                Ok(()) => {}
                Err(fault) => return Err(fault),
            },
            Found::Alike(other) => match join_texts(alloc, draft, other, at) {
                Ok(()) => at = other,
                Err(fault) => return Err(fault),
            },
        }
    }
}

/// Joins a text with what comes after it.
fn join_on(alloc: Global, draft: &mut Draft, key: Key) -> Result<(), Fault>
    ensures { Does (texts.join_on texts.enough key draft.old) draft.new result }
{
    'on: loop {
        let found = found_behind(draft, key);
        match found {
            Found::Nothing => return Ok(()),
            Found::Empty(other) => match remove(draft, other) {
                Ok(()) => {}
                Err(fault) => return Err(fault),
            },
            Found::Alike(other) => match join_texts(alloc, draft, key, other) {
                Ok(()) => {}
                Err(fault) => return Err(fault),
            },
        }
    }
}

#[tactic(auto, unfolding(lx_node::specs::OfKind::is_normal))]
fn is_simple(text: &TextFields) -> bool
    ensures { result ≡ texts.is_simple text.now }
{
    matches!(text.mode, Mode::Normal) && text.detail < 2
}

/// The fields of a simple text.
fn simple_at(draft: &Draft, key: Key) -> Option<&TextFields>
    ensures { option_copied result ≡ texts.simple_at draft.now.forest key }
{
    match text_at(draft, key) {
        Some(text) => { if is_simple(text) { Some(text) } else { None } }
        None => None,
    }
}

/// Whether a simple text is empty, if it is one.
fn emptiness(draft: &Draft, key: Key) -> Option<bool>
    ensures { result ≡ texts.emptiness (texts.simple_at draft.now.forest key) }
{
    match simple_at(draft, key) {
        Some(text) => Some(text.text.is_empty()),
        None => None,
    }
}

/// What a simple text finds in another node.
fn found_in(draft: &Draft, other: Key, own: &TextFields) -> Found
    ensures { result ≡ texts.found_in other own.now (texts.simple_at draft.now.forest other) }
{
    match simple_at(draft, other) {
        Some(text) => {
            if text.text.is_empty() {
                Found::Empty(other)
            } else if own.format == text.format && own.style.is_equal(&text.style) {
                Found::Alike(other)
            } else {
                Found::Nothing
            }
        }
        None => Found::Nothing,
    }
}

/// What the text of a key finds in another node, if there is one.
fn found_by(draft: &Draft, other: Option<Key>, key: Key) -> Found
    ensures { result ≡ texts.found_by draft.now.forest other (texts.simple_at draft.now.forest key) }
{
    match (other, simple_at(draft, key)) {
        (Some(other), Some(own)) => found_in(draft, other, own),
        _ => Found::Nothing,
    }
}

fn found_before(draft: &Draft, key: Key) -> Found
    ensures found { result ≡ texts.found_before draft.now.forest key }
    ensures counts { draft.now.counted ≤ most_counts }
{
    found_by(draft, draft.links().previous(key), key)
}

fn found_behind(draft: &Draft, key: Key) -> Found
    ensures found { result ≡ texts.found_behind draft.now.forest key }
    ensures counts { draft.now.counted ≤ most_counts }
{
    found_by(draft, draft.links().next(key), key)
}
