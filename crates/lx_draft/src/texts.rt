ghost use Rattle.std.specs.Prelude.{◌≡◌, ◌<◌, ◌≤◌, ◌+◌, IfOk, IfErr, OnOk, OnErr, None, Some, chars, length, ℕ};
ghost use Rattle.lx_node.specs.Limits.{most_counts, most_written};
ghost use Rattle.lx_trees.specs.Trees.{nil};
ghost use Rattle.lx_node.specs.OfKind.{IsOfKind};
ghost use Rattle.lx_node.specs.declared.kind.Kind.TheVariants.{Text};
ghost use Rattle.lx_node.specs.declared.fields.Fields.TheVariants as fields;
ghost use Rattle.lx_forest.specs.Lookups as lookups;
ghost use Rattle.lx_forest.specs.Lookups.{IsForest};
ghost use Rattle.lx_forest.specs.Edits.{with_fields};
ghost use Rattle.std.specs.Option.{option_copied};
ghost use Rattle.lx_draft.specs.Faults as faults;
ghost use Rattle.lx_draft.specs.Faults.{text_in, splice_fault};
ghost use Rattle.lx_draft.specs.Respelling.{IsPlaced, IsShortBefore};
ghost use Rattle.lx_draft.specs.Steps as steps;
ghost use Rattle.lx_draft.specs.Working.{TextsAreShort};

use crate::draft::Draft;
use lx_node::{Cause, Fields, Key, Kind, Named, NoMemory, Node, TextFields, Txt};
use std::alloc::Global;

/// How many Unicode scalar values a text has.
pub(crate) fn characters(text: &str) -> u64
    ensures { result ≡ length (chars text.now) }
{
    text.chars().count() as u64
}

/// The fields of a text or tab with another text.
pub fn with_text(alloc: Global, fields: &TextFields, text: Txt) -> Result<Fields, NoMemory>
    ensures { IfOk result (λ made. made ≡ steps.text_replaced fields.now text) }
{
    Ok(Fields::Text(TextFields {
        text,
        format: fields.format,
        detail: fields.detail,
        mode: fields.mode,
        style: fields.style.copy(alloc)?,
    }))
}

/// The fields of a text that isn't a tab.
fn text_fields(node: &Node) -> Option<&TextFields>
    ensures { option_copied result ≡ faults.text_fields node.now.kind node.now.fields }
{
    match node.kind {
        Kind::Text => match &node.fields {
            Fields::Text(text) => Some(text),
            _ => None,
        },
        _ => None,
    }
}

/// The piece of a text from one offset to another: so many bytes come before it, and so many are in it.
#[derive(Clone, Copy)]
pub(crate) struct Piece {
    from: u32,
    to: u32,
    front: usize,
    bytes: usize,
}

impl Draft {
    /// The fields of a text that isn't a tab. It is refused where there is no such node, and where it isn't
    /// a text, for the cause for which a splice is.
    pub fn text_at(&self, key: Key) -> Result<&TextFields, Cause>
        ensures found { IfOk result (λ text. text_in (lookups.label_of self.now.forest key) ≡ Some text.now) }
        ensures of_kind { IfOk result (λ text. IsOfKind Text (fields.Text text.now)) }
        ensures none { OnErr result (text_in (lookups.label_of self.now.forest key) ≡ None) }
        ensures refused { IfErr result (λ cause. (from to : ℕ) → splice_fault key from to self.now.forest ≡ Some cause) }
    {
        let Some(node) = self.links.node(key) else {
            return Err(Cause::UnknownNode(Named::Key(key)));
        };
        match text_fields(node) {
            Some(text) => Ok(text),
            None => Err(Cause::WrongKind(node.kind)),
        }
    }

    /// The piece of a text from one offset to another. It is refused where there is no such node, where it isn't a text, and
    /// where there is no such piece.
    pub(crate) fn piece_at(&self, key: Key, from: u32, to: u32) -> Result<Piece, Cause>
        ensures placed { IfOk result (λ piece. IsPlaced key piece self.now.forest) }
        ensures from { IfOk result (λ piece. piece.from ≡ from) }
        ensures to { IfOk result (λ piece. piece.to ≡ to) }
        ensures allowed { IfOk result (λ _. splice_fault key from to self.now.forest ≡ None) }
        ensures refused { IfErr result (λ cause. splice_fault key from to self.now.forest ≡ Some cause) }
    {
        let text = match self.text_at(key) {
            Ok(text) => text,
            Err(cause) => return Err(cause),
        };
        match lx_text::piece_at(&text.text, from, to) {
            Ok((front, bytes)) => Ok(Piece {
                from,
                to,
                front,
                bytes,
            }),
            Err(cause) => Err(cause),
        }
    }

    /// Whether another text in the place of the piece changes the text.
    fn differs_from(&self, key: Key, piece: Piece, new: &str) -> bool
        requires { IsPlaced key piece self.now.forest }
        ensures { result ≡ steps.differ (lookups.fields_of self.now.forest key) (steps.label_with_piece (lookups.label_of self.now.forest key) piece.from piece.to (chars new.now)) }
    {
        let Ok(text) = self.text_at(key) else {
            return false;
        };
        !text.text.has_piece(piece.front, piece.bytes, new)
    }

    /// Puts another text in the place of the piece, where it is. The text's characters are counted already.
    fn replace_piece(&mut self, key: Key, piece: Piece, new: &str) -> Result<(), NoMemory>
        requires order { IsForest self.old.forest }
        requires placed { IsPlaced key piece self.old.forest }
        requires short { IsShortBefore (chars new.now) self.old }
        ensures replaced { OnOk result (self.new ≡ record self.old { forest = with_fields key (steps.label_with_piece (lookups.label_of self.old.forest key) piece.from piece.to (chars new.now)) self.old.forest }) }
        ensures failed { OnErr result (self.new.forest ≡ nil) }
    {
        self.links.splice(key, piece.front, piece.bytes, new)
    }

    /// Puts another text in the place of the piece, which takes so many scalar values, and marks the node if its text
    /// changes.
    pub(crate) fn respell(
        &mut self,
        key: Key,
        piece: Piece,
        new: &str,
        more: u32,
    ) -> Result<(), NoMemory>
        requires order { IsForest self.old.forest }
        requires placed { IsPlaced key piece self.old.forest }
        requires counts { self.old.counted < most_counts }
        requires written { self.old.written + more ≤ most_written }
        requires few { length (chars new.now) ≤ more }
        requires short { TextsAreShort self.old }
        ensures ok { OnOk result (self.new ≡ steps.fields_written key (steps.label_with_piece (lookups.label_of self.old.forest key) piece.from piece.to (chars new.now)) more (λ s. s) self.old) }
        ensures failed { OnErr result (self.new.forest ≡ nil) }
    {
        self.note_edit(more);
        if self.differs_from(key, piece, new) {
            self.mark_key(key)?;
        }
        self.replace_piece(key, piece, new)
    }
}
