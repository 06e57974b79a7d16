//! What is read of texts.

ghost use Rattle.std.specs.Prelude.{◌≡◌, None, IfOk, IfErr};
ghost use Rattle.std.specs.Option.{option_copied};
ghost use Rattle.lx_node.specs.OfKind.{IsOfKind};
ghost use Rattle.lx_node.specs.declared.kind.Kind.TheVariants.{Text};
ghost use Rattle.lx_forest.specs.Lookups as lookups;
ghost use Rattle.lx_draft.specs.Faults.{splice_fault, text_in, TellsFault};
ghost use Rattle.lx_edit.specs.Conditions as conditions;
ghost use Rattle.lx_edit.specs.Texts as texts;
ghost use Rattle.lx_edit.specs.Standing.{StillStands};

use crate::conditions::living;
use lx_draft::{Draft, with_text};
use lx_node::{Fault, Fields, Key, NoMemory, TextFields, Txt};
use std::alloc::Global;

/// The fields of a text, where the node is one.
pub(crate) fn text_at(draft: &Draft, key: Key) -> Option<&TextFields>
    ensures { option_copied result ≡ text_in (lookups.label_of draft.now.forest key) }
{
    match draft.text_at(key) {
        Ok(text) => Some(text),
        Err(_) => None,
    }
}

/// The length of a text, in UTF-16 code units as far as a u32 can say them, and 0 of any other node.
pub fn length_at(draft: &Draft, key: Key) -> u32
    ensures { result ≡ conditions.length_at draft.now.forest key }
{
    match text_at(draft, key) {
        Some(text) => lx_text::length_of(&text.text),
        None => 0,
    }
}

/// A copy of the text of a node, which is empty for one that isn't a text.
#[tactic(auto, using(crate::proofs::Tails::no_characters))]
pub(crate) fn text_of(alloc: Global, draft: &Draft, key: Key) -> Result<Txt, NoMemory>
    ensures { IfOk result (λ text. text ≡ texts.text_or_none (text_in (lookups.label_of draft.now.forest key))) }
{
    match text_at(draft, key) {
        Some(text) => text.text.copy(alloc),
        None => Txt::new(alloc, ""),
    }
}

/// The fields of a text, with what comes after an offset. It is refused as cutting that off is.
pub(crate) fn tail_of(alloc: Global, draft: &Draft, key: Key, offset: u32) -> Result<Fields, Fault>
    ensures allowed { IfOk result (λ _. splice_fault key offset (conditions.length_at draft.now.forest key) draft.now.forest ≡ None) }
    ensures tail { IfOk result (λ fields. fields ≡ texts.tail_of draft.now.forest key offset) }
    ensures of_kind { IfOk result (λ fields. IsOfKind Text fields) }
    ensures standing { IfErr result (λ e. StillStands e draft.now) }
    ensures refused { IfErr result (λ e. TellsFault e (splice_fault key offset (conditions.length_at draft.now.forest key) draft.now.forest)) }
{
    living(draft)?;
    let text = match draft.text_at(key) {
        Ok(text) => text,
        Err(cause) => return Err(Fault::Cause(cause)),
    };
    match lx_text::slice(
        alloc,
        text.text.as_str(),
        offset,
        lx_text::length_of(&text.text),
    ) {
        Ok(tail) => Ok(with_text(alloc, text, tail)?),
        Err(fault) => Err(fault),
    }
}
