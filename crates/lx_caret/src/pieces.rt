//! The covered parts of texts and tabs, and what is covered of each by itself.

ghost use Rattle.std.specs.Prelude.{◌≡◌, ◌<◌, ◌++◌, ◌∷◌, [], ◌&&◌, ℕ, true, nat_lt, if◌then◌else◌, length, slice_get, unwrap_or, map, filter, Some, OnOk, IfOk};
ghost use Rattle.lx_node.specs.Kinds.{has_characters};
ghost use Rattle.lx_forest.specs.Lookups as lookups;
ghost use Rattle.lx_edit.specs.Standing.{Does, Gives};
ghost use Rattle.lx_edit.specs.Texts.{split_step, keys_from};
ghost use Rattle.lx_blocks.specs.Blocks as blocks;
ghost use Rattle.lx_blocks.specs.Ranges as ranges;
ghost use Rattle.lx_caret.specs.declared.pieces.Piece.{Piece};
ghost use Rattle.lx_caret.specs.Formatting as formatting;

use crate::removing::start_part;
use lx_blocks::{covered, has_characters_at, is_normal_at};
use lx_draft::Draft;
use lx_edit::split_text;
use lx_node::{Fault, Key, NoMemory, Point, PointKind};
use std::alloc::Global;

/// The part of a text or tab from one offset to another.
#[derive(Clone, Copy)]
pub(crate) struct Piece {
    pub(crate) key: Key,
    pub(crate) from: u32,
    pub(crate) to: u32,
}

// ---- gathered

/// Keeps a piece in which there is a character.
fn keep(pieces: &mut Vec<Piece>, piece: Piece) -> Result<(), NoMemory>
    ensures { OnOk result (pieces.new.items ≡ pieces.old.items ++ filter (λ p. nat_lt p.from p.to) (piece ∷ [])) }
{
    if piece.to <= piece.from {
        return Ok(());
    }
    pieces.push(piece)?;
    Ok(())
}

/// Keeps the covered part of the text or tab that has the first point.
fn keep_start(
    pieces: &mut Vec<Piece>,
    draft: &Draft,
    start: &Point,
    end: &Point,
) -> Result<(), NoMemory>
    ensures { OnOk result (pieces.new.items ≡ pieces.old.items ++ filter (λ p. nat_lt p.from p.to) (formatting.start_piece draft.now.forest start.now end.now start.now.kind)) }
{
    match start.kind {
        PointKind::Text => keep(
            pieces,
            Piece {
                key: start.key,
                from: start.offset,
                to: start_part(draft, start, end),
            },
        ),
        PointKind::Element => Ok(()),
    }
}

/// Keeps the covered part of the text or tab that has the last point, if it hasn't the first too.
fn keep_end(pieces: &mut Vec<Piece>, start: &Point, end: &Point) -> Result<(), NoMemory>
    ensures { OnOk result (pieces.new.items ≡ pieces.old.items ++ filter (λ p. nat_lt p.from p.to) (formatting.end_piece start.now end.now end.now.kind)) }
{
    match end.kind {
        PointKind::Text => {
            if start.key == end.key {
                return Ok(());
            }
            keep(
                pieces,
                Piece {
                    key: end.key,
                    from: 0,
                    to: end.offset,
                },
            )
        }
        PointKind::Element => Ok(()),
    }
}

/// Keeps a node whole, where it is a text or tab.
fn keep_whole(pieces: &mut Vec<Piece>, draft: &Draft, key: Key) -> Result<(), NoMemory>
    ensures { OnOk result (pieces.new.items ≡ pieces.old.items ++ filter (λ p. nat_lt p.from p.to) (map (formatting.whole draft.now.forest) (filter (blocks.is_at has_characters draft.now.forest) (key ∷ [])))) }
{
    if !has_characters_at(draft.links(), key) {
        return Ok(());
    }
    keep(
        pieces,
        Piece {
            key,
            from: 0,
            to: draft.text_length(key),
        },
    )
}

/// Keeps the texts and tabs among nodes, each whole.
#[tactic(auto, using(crate::proofs::Covering::wholes_on, crate::proofs::Covering::wholes_done))]
fn keep_each(pieces: &mut Vec<Piece>, draft: &Draft, keys: &[Key]) -> Result<(), NoMemory>
    ensures { OnOk result (pieces.new.items ≡ pieces.old.items ++ filter (λ p. nat_lt p.from p.to) (map (formatting.whole draft.now.forest) (filter (blocks.is_at has_characters draft.now.forest) keys.now))) }
{
    for key in keys {
        keep_whole(pieces, draft, *key)?;
    }
    Ok(())
}

/// The parts of texts and tabs that lie between two points of the root's tree, in order, but for those without a
/// character.
#[tactic(auto, using(crate::proofs::Covering::pieces_gathered))]
pub(crate) fn pieces_between(
    alloc: Global,
    draft: &Draft,
    start: &Point,
    end: &Point,
) -> Result<Vec<Piece>, NoMemory>
    requires start { lookups.is_attached draft.now.forest start.now.key ≡ true }
    requires end { lookups.is_attached draft.now.forest end.now.key ≡ true }
    ensures { IfOk result (λ pieces. pieces.items ≡ formatting.pieces draft.now.forest start.now end.now) }
{
    let keys = covered(alloc, draft.links(), start, end)?;
    let mut pieces = Vec::new(alloc);
    keep_start(&mut pieces, draft, start, end)?;
    keep_each(&mut pieces, draft, &keys)?;
    keep_end(&mut pieces, start, end)?;
    Ok(pieces)
}

// ---- by themselves

/// Whether an offset is strictly inside a text of the length.
fn is_inner(offset: u32, length: u32) -> bool
    ensures { result ≡ (nat_lt 0 offset && nat_lt offset length) }
{
    0 < offset && offset < length
}

/// Splits a text where the piece begins and ends inside it.
fn split_off(alloc: Global, draft: &mut Draft, piece: &Piece) -> Result<Vec<Key>, Fault>
    ensures does { Does (split_step piece.now.key (formatting.edges draft.old.forest piece.now) draft.old) draft.new result }
    ensures keys { IfOk result (λ keys. keys.items ≡ keys_from draft.old.next_key (length (formatting.edges draft.old.forest piece.now))) }
{
    let length = draft.text_length(piece.key);
    let begins = is_inner(piece.from, length);
    let ends = is_inner(piece.to, length);
    if begins && ends {
        split_text(alloc, draft, piece.key, &[piece.from, piece.to])
    } else if begins {
        split_text(alloc, draft, piece.key, &[piece.from])
    } else if ends {
        split_text(alloc, draft, piece.key, &[piece.to])
    } else {
        split_text(alloc, draft, piece.key, &[])
    }
}

/// The key of the covered text, after it was split: the first new one, where the piece doesn't begin with its text.
fn covered_key(piece: &Piece, new: &[Key]) -> Key
    ensures { result ≡ (if nat_lt 0 piece.now.from then unwrap_or (slice_get new.now 0) piece.now.key else piece.now.key) }
{
    if 0 < piece.from {
        match new.first() {
            Some(key) => *key,
            None => piece.key,
        }
    } else {
        piece.key
    }
}

/// Splits a normal text where the piece begins and ends inside it, and answers the key of what is covered then.
/// Any other text or tab is covered whole.
#[tactic(auto, unfolding(crate::specs::Formatting::isolate_step), using(crate::proofs::Isolating::key_is))]
fn isolate(alloc: Global, draft: &mut Draft, piece: &Piece) -> Result<Key, Fault>
    requires { 0 < piece.now.from → piece.now.from < ranges.characters_at draft.old.forest piece.now.key }
    ensures does { Does (formatting.isolate_step piece.now draft.old) draft.new result }
    ensures key { IfOk result (λ key. key ≡ formatting.isolated_key piece.now draft.old) }
{
    if !is_normal_at(draft, piece.key) {
        return Ok(piece.key);
    }
    let keys = split_off(alloc, draft, piece)?;
    Ok(covered_key(piece, &keys))
}

fn keep_key(keys: &mut Vec<Key>, key: Key) -> Result<(), NoMemory>
    ensures { OnOk result (keys.new.items ≡ keys.old.items ++ key ∷ []) }
{
    keys.push(key)?;
    Ok(())
}

/// Brings each piece into a text by itself, and answers the keys of these texts. Only the first piece may begin
/// after the start of its text.
#[tactic(auto, unfolding(crate::specs::Formatting::isolated), using(crate::proofs::Isolating::one_ahead, crate::proofs::Isolating::none_ahead))]
pub(crate) fn isolate_each(
    alloc: Global,
    draft: &mut Draft,
    pieces: &[Piece],
) -> Result<Vec<Key>, Fault>
    requires { (i : ℕ) (p : Piece) → slice_get pieces.now i ≡ Some p → 0 < p.from → (i ≡ 0) × (p.from < ranges.characters_at draft.old.forest p.key) }
    ensures { Gives (formatting.isolated pieces.now draft.old) (λ keys. record { draft = draft.new; texts = keys.items }) draft.new result }
{
    let mut keys = Vec::new(alloc);
    for piece in pieces {
        let key = isolate(alloc, draft, piece)?;
        keep_key(&mut keys, key)?;
    }
    Ok(keys)
}
