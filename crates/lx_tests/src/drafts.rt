//! The rounds in which the marks of a draft are handled.

use crate::told::expect;
use lx_draft::{Draft, Round, State};
use lx_node::{Fault, Fields, Key, Kind};
use std::alloc::Global;
use std::test::Fail;

/// Puts a paragraph, 1, below the root, with the text 2.
#[tactic(auto, using(lx_update::proofs::Composed::element_suits, lx_update::proofs::Composed::text_suits))]
fn fill(alloc: Global, draft: &mut Draft) -> Result<(), Fault> {
    let paragraph = draft.new_node(Kind::Paragraph, Fields::plain_element(alloc))?;
    let text = draft.new_node(Kind::Text, Fields::plain_text(alloc, "words")?)?;
    draft.put(text, paragraph, 0)?;
    draft.put(paragraph, Key::root(), 0)
}

/// A draft of a new state, with that paragraph.
fn filled(alloc: Global) -> Result<Draft, Fault> {
    let state = State::new(alloc)?;
    let mut draft = Draft::start(alloc, &state, 1)?;
    fill(alloc, &mut draft)?;
    Ok(draft)
}

/// The keys of a list.
fn told_keys(alloc: Global, keys: &[Key]) -> Result<String, Fail> {
    let mut text = String::from_str(alloc, "leaves")?;
    for key in keys {
        write!(text, " {}", key.number())?;
    }
    Ok(text)
}

/// The elements of a list, those marked themselves with a `!`.
fn told_flags(alloc: Global, flags: &[(Key, bool)]) -> Result<String, Fail> {
    let mut text = String::from_str(alloc, "elements")?;
    for flag in flags {
        let sign = if flag.1 { "!" } else { "" };
        write!(text, " {}{sign}", flag.0.number())?;
    }
    Ok(text)
}

fn told_round(alloc: Global, round: &Round) -> Result<String, Fail> {
    match round {
        Round::Leaves(keys) => told_keys(alloc, keys.items()),
        Round::Elements(flags) => told_flags(alloc, flags.items()),
        Round::Rest => Ok(String::from_str(alloc, "rest")?),
    }
}

/// Takes a round of a draft, and adds what it was to the text.
fn push_round(alloc: Global, draft: &mut Draft, told: &mut String) -> Result<(), Fail> {
    let round = draft.take_round()?;
    write!(told, "{}, ", told_round(alloc, &round)?.as_str())?;
    Ok(())
}

#[test]
fn rounds_give_leaves_first(rt: HostRuntime) -> Result<(), Fail> {
    let mut draft = filled(rt.alloc())?;
    let mut told = String::new(rt.alloc());
    for _ in 0..3 {
        push_round(rt.alloc(), &mut draft, &mut told)?;
    }
    expect(&told, "leaves 2, elements 1! 0!, rest, ")
}
