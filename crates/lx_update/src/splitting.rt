//! Where a step splits a text.

ghost use Rattle.std.specs.Prelude.{◌≡◌, ◌++◌, ◌∷◌, [], Ok, OnOk, IfOk, IfErr, chars, length};
ghost use Rattle.lx_forest.specs.Lookups as lookups;
ghost use Rattle.lx_draft.specs.Faults.{TellsStep, TellsFault, text_in};
ghost use Rattle.lx_text.specs.Texts.{length_told};
ghost use Rattle.lx_edit.specs.Conditions as conditions;
ghost use Rattle.lx_edit.specs.Texts.{split_step, keys_from};

use lx_draft::Draft;
use lx_edit::{split_fault, split_text};
use lx_node::{Cause, Fault, Key, NoMemory};
use std::alloc::Global;

/// Cuts a text at offsets, and answers the keys of the new texts. It is refused as `split_text` is; an offset
/// above 4,294,967,295 is within no text.
#[tactic(auto, unfolding(lx_edit::specs::Texts::split_step))]
pub(crate) fn split(
    alloc: Global,
    draft: &mut Draft,
    key: Key,
    offsets: &[u64],
) -> Result<Vec<Key>, Fault>
    ensures ok { OnOk result (split_step key offsets.now draft.old ≡ Ok draft.new) }
    ensures keys { IfOk result (λ keys. keys.items ≡ keys_from draft.old.next_key (length offsets.now)) }
    ensures err { IfErr result (λ e. TellsStep e (split_step key offsets.now draft.old)) }
{
    match narrowed(alloc, draft, key, offsets) {
        Ok(small) => split_text(alloc, draft, key, small.as_slice()),
        Err(fault) => Err(fault),
    }
}

/// The offsets, where nothing refuses a split there.
fn narrowed(alloc: Global, draft: &Draft, key: Key, offsets: &[u64]) -> Result<Vec<u32>, Fault>
    ensures same { IfOk result (λ small. small.items ≡ offsets.now) }
    ensures err { IfErr result (λ e. TellsFault e (conditions.split_fault key offsets.now draft.now.forest)) }
{
    match split_fault(draft, key, &[]) {
        Some(cause) => Err(Fault::Cause(cause)),
        None => narrowed_at(alloc, draft, key, offsets),
    }
}

/// The offsets, where each is above the one before it and a place within the text of a node, which is empty for one
/// that isn't a text.
#[tactic(auto, using(lx_edit::proofs::Tails::no_characters, lx_edit::proofs::Offsets::none_told))]
fn narrowed_at(alloc: Global, draft: &Draft, key: Key, offsets: &[u64]) -> Result<Vec<u32>, Fault>
    ensures same { IfOk result (λ small. small.items ≡ offsets.now) }
    ensures err { IfErr result (λ e. TellsFault e (conditions.bad_offset 0 (conditions.text_or_none (text_in (lookups.label_of draft.now.forest key))) offsets.now)) }
{
    let Ok(text) = draft.text_at(key) else {
        return narrowed_within(alloc, "", 0, offsets);
    };
    narrowed_within(
        alloc,
        text.text.as_str(),
        lx_text::length_of(&text.text),
        offsets,
    )
}

/// The offsets, where each is above the one before it and a place within the text, which has this length in UTF-16 code
/// units. The text is gone through once.
#[tactic(auto, using(lx_edit::proofs::Offsets::none_there))]
fn narrowed_within(
    alloc: Global,
    text: &str,
    length: u32,
    offsets: &[u64],
) -> Result<Vec<u32>, Fault>
    requires { length ≡ length_told (chars text.now) }
    ensures same { IfOk result (λ small. small.items ≡ offsets.now) }
    ensures err { IfErr result (λ e. TellsFault e (conditions.bad_offset 0 (chars text.now) offsets.now)) }
{
    let mut small = Vec::new(alloc);
    let mut low = 0;
    let mut rest = text;
    for offset in offsets {
        if *offset <= low as u64 || *offset >= length as u64 {
            return Err(Fault::Cause(Cause::BadPlace(*offset)));
        }
        let next = *offset as u32;
        match lx_text::rest_from(rest, next - low) {
            Some(behind) => rest = behind,
            None => return Err(Fault::Cause(Cause::BadPlace(*offset))),
        }
        low = next;
        keep(&mut small, next)?;
    }
    Ok(small)
}

/// Puts an item at the end of others.
pub(crate) fn keep<T: Copy>(items: &mut Vec<T>, item: T) -> Result<(), NoMemory>
    ensures { OnOk result (items.new.items ≡ items.old.items ++ (item ∷ [])) }
{
    items.push(item)?;
    Ok(())
}
