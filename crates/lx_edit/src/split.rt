ghost use Rattle.std.specs.Prelude.{◌≡◌, ◌+◌, ◌++◌, ◌∷◌, [], OnOk, IfOk, length};
ghost use Rattle.lx_trees.specs.Trees.{nil};
ghost use Rattle.lx_edit.specs.Texts as texts;
ghost use Rattle.lx_edit.specs.Texts.{split_step, keys_from};
ghost use Rattle.lx_edit.specs.Standing.{Does};

use crate::conditions::{admitted, split_fault};
use crate::texts::{length_at, tail_of};
use lx_draft::{Draft, PointRule};
use lx_node::{Fault, Key, Kind, NoMemory};
use std::alloc::Global;

/// Cuts a text at offsets, and answers the keys of the new texts. The text keeps what comes before the first
/// offset. Each new text has the fields of the cut one and what comes up to the next offset, and comes
/// right after the piece before it; points after an offset go along. Offsets count UTF-16 code units from the
/// text's start. It is refused where there is no such node, where it isn't a text, where it is below
/// nothing, and for the first offset that isn't above the one before it, above 0 and below the text's length, or
/// that is inside a surrogate pair; where 100,000 counts were taken, and where the new texts would bring what was
/// written above 16,777,216 scalar values.
#[tactic(auto, unfolding(crate::specs::Texts::split_step))]
pub fn split_text(alloc: Global, draft: &mut Draft, key: Key, at: &[u32]) -> Result<Vec<Key>, Fault>
    ensures does { Does (split_step key at.now draft.old) draft.new result }
    ensures keys { IfOk result (λ keys. keys.items ≡ keys_from draft.old.next_key (length at.now)) }
{
    let fault = split_fault(draft, key, at);
    admitted(draft, fault)?;
    cut_at(alloc, draft, key, at)
}

/// Cuts a text at each of the offsets, from the left.
fn cut_at(alloc: Global, draft: &mut Draft, key: Key, offsets: &[u32]) -> Result<Vec<Key>, Fault>
    ensures does { Does (texts.cut_at key 0 offsets.now draft.old) draft.new result }
    ensures keys { IfOk result (λ keys. keys.items ≡ keys_from draft.old.next_key (length offsets.now)) }
{
    let mut keys = Vec::new(alloc);
    let mut piece = key;
    let mut start = 0;
    for offset in offsets {
        piece = cut_in_two(alloc, draft, piece, offset.saturating_sub(start))?;
        start = *offset;
        keep_key(&mut keys, piece)?;
    }
    Ok(keys)
}

fn keep_key(keys: &mut Vec<Key>, key: Key) -> Result<(), NoMemory>
    ensures { OnOk result (keys.new.items ≡ keys.old.items ++ (key ∷ [])) }
{
    keys.push(key)?;
    Ok(())
}

/// Cuts a text in two at an offset, and answers the key of the new text after it.
#[tactic(auto, unfolding(crate::specs::Texts::cut_in_two), using(crate::proofs::Tails::no_characters))]
fn cut_in_two(alloc: Global, draft: &mut Draft, key: Key, offset: u32) -> Result<Key, Fault>
    ensures does { Does (texts.cut_in_two key offset draft.old) draft.new result }
    ensures key { IfOk result (λ new. new ≡ draft.old.next_key) }
    ensures next_key { OnOk result (draft.new.next_key ≡ draft.old.next_key + 1) }
{
    let end = length_at(draft, key);
    let new = make_tail(alloc, draft, key, offset)?;
    draft.splice(key, offset, end, "")?;
    draft.put_behind(new, key)?;
    Ok(new)
}

/// Makes a new text of what comes after an offset, with the points there, and answers its key.
#[tactic(auto, unfolding(crate::specs::Texts::tail_made))]
fn make_tail(alloc: Global, draft: &mut Draft, key: Key, offset: u32) -> Result<Key, Fault>
    ensures does { Does (texts.tail_made key offset draft.old) draft.new result }
    ensures key { IfOk result (λ new. new ≡ draft.old.next_key) }
    ensures next_key { OnOk result (draft.new.next_key ≡ draft.old.next_key + 1) }
{
    let fields = tail_of(alloc, draft, key, offset)?;
    let new = draft.new_node(Kind::Text, fields)?;
    draft.point_rule(PointRule::Split {
        key,
        at: offset,
        new,
    });
    Ok(new)
}
