//! Formatting the covered texts of a range.

ghost use Rattle.std.specs.Prelude.{◌≡◌, ◌<◌, ℕ, slice_get, Some, IfOk};
ghost use Rattle.lx_node.specs.declared.fields.Fields.TheVariants as fields;
ghost use Rattle.lx_edit.specs.InTurn.{in_turn};
ghost use Rattle.lx_edit.specs.Standing.{Does};
ghost use Rattle.lx_blocks.specs.Ranges as ranges;
ghost use Rattle.lx_caret.specs.declared.pieces.Piece.{Piece};
ghost use Rattle.lx_caret.specs.Formatting as formatting;
ghost use Rattle.lx_caret.specs.Formatting.{format_text_step};

use crate::pieces::{Piece, isolate_each, pieces_between};
use lx_blocks::{in_order, range_of};
use lx_draft::Draft;
use lx_node::{Fault, Fields, Key, NoMemory, TextFields};
use std::alloc::Global;

// ---- bits

fn has_bit(bit: u16, format: u16) -> bool
    ensures { result ≡ formatting.has_bit bit format }
{
    format & bit != 0
}

#[tactic(auto, using(std::proofs::lemmas::Nat::and_le_l))]
fn without_bit(bit: u16, format: u16) -> u16
    ensures { result ≡ formatting.without_bit bit format }
{
    format - (format & bit)
}

/// The bit that a format can't have together with this one, or 0: subscript is 32, and superscript is 64.
fn excluded(bit: u16) -> u16
    ensures { result ≡ formatting.excluded bit }
{
    if bit == 32 {
        64
    } else if bit == 64 {
        32
    } else {
        0
    }
}

/// The format with the bit, and without the one that it excludes, or the format without the bit.
fn switched(on: bool, bit: u16, format: u16) -> u16
    ensures { result ≡ formatting.switched on bit format }
{
    if on {
        without_bit(excluded(bit), format) | bit
    } else {
        without_bit(bit, format)
    }
}

// ---- texts

/// The format of a text or tab, and 0 of any other node.
fn format_at(draft: &Draft, key: Key) -> u16
    ensures { result ≡ formatting.format_at draft.now.forest key }
{
    match draft.links().node(key) {
        Some(node) => match &node.fields {
            Fields::Text(text) => text.format,
            _ => 0,
        },
        None => 0,
    }
}

fn with_format(alloc: Global, text: &TextFields, format: u16) -> Result<Fields, NoMemory>
    ensures { IfOk result (λ made. made ≡ fields.Text (record text.now { format = format })) }
{
    let mut made = text.copy(alloc)?;
    made.format = format;
    Ok(Fields::Text(made))
}

/// Sets the bit in the format of a text or tab, or clears it.
#[tactic(auto, unfolding(crate::specs::Formatting::switch_step))]
fn switch(alloc: Global, draft: &mut Draft, key: Key, on: bool, bit: u16) -> Result<(), Fault>
    ensures { Does (formatting.switch_step on bit key draft.old) draft.new result }
{
    let fields = match draft.links().node(key) {
        Some(node) => match &node.fields {
            Fields::Text(text) => with_format(alloc, text, switched(on, bit, text.format))?,
            _ => return Ok(()),
        },
        None => return Ok(()),
    };
    draft.set(key, fields)
}

/// Sets the bit in the format of each text and tab, or clears it in each.
#[tactic(auto, unfolding(lx_edit::specs::InTurn::in_turn))]
fn switch_each(
    alloc: Global,
    draft: &mut Draft,
    keys: &[Key],
    on: bool,
    bit: u16,
) -> Result<(), Fault>
    ensures { Does (in_turn (formatting.switch_step on bit) keys.now draft.old) draft.new result }
{
    for key in keys {
        switch(alloc, draft, *key, on, bit)?;
    }
    Ok(())
}

/// Clears the bit in all where the first has it, and sets it in all where that hasn't. The selection takes the
/// first one's format.
fn switch_all(alloc: Global, draft: &mut Draft, bit: u16, keys: &[Key]) -> Result<(), Fault>
    ensures { Does (formatting.switched_all bit keys.now draft.old) draft.new result }
{
    let Some(first) = keys.first() else {
        return Ok(());
    };
    let on = !has_bit(bit, format_at(draft, *first));
    switch_each(alloc, draft, keys, on, bit)?;
    let format = format_at(draft, *first);
    draft.put_format(format);
    Ok(())
}

// ---- the command

/// Formats pieces, or the selection alone where there are none.
fn format_pieces(
    alloc: Global,
    draft: &mut Draft,
    bit: u16,
    pieces: &[Piece],
    format: u16,
) -> Result<(), Fault>
    requires { (i : ℕ) (p : Piece) → slice_get pieces.now i ≡ Some p → 0 < p.from → (i ≡ 0) × (p.from < ranges.characters_at draft.old.forest p.key) }
    ensures { Does (formatting.formatted bit pieces.now format draft.old) draft.new result }
{
    if pieces.is_empty() {
        draft.put_format(switched(!has_bit(bit, format), bit, format));
        return Ok(());
    }
    let keys = isolate_each(alloc, draft, pieces)?;
    switch_all(alloc, draft, bit, &keys)
}

/// Switches a format bit in what is selected.
#[tactic(auto, unfolding(crate::specs::Formatting::format_text_step), using(crate::proofs::Covering::start_attached, crate::proofs::Covering::end_attached))]
pub(crate) fn format_selected(alloc: Global, draft: &mut Draft, bit: u16) -> Result<(), Fault>
    ensures { Does (format_text_step bit draft.old) draft.new result }
{
    let range = range_of(draft)?;
    let (start, end) = in_order(draft.links(), &range);
    let pieces = pieces_between(alloc, draft, &start, &end)?;
    format_pieces(alloc, draft, bit, &pieces, range.format)
}
