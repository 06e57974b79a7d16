//! The text of a heading, read from its children and from those of its links.

ghost use Rattle.std.specs.Prelude.{◌≡◌, ◌+◌, ◌≤◌, ◌++◌, length, sum_by, IfOk, OnOk};
ghost use Rattle.lx_forest.specs.Lookups.{children_of, first_child, next_of};
ghost use Rattle.lx_links.specs.Stands.{Sound};
ghost use Rattle.lx_outline.specs.Reading.{piece_at, with_below, gathered, reads_of};

use crate::reading::piece_of;
use lx_links::Records;
use lx_node::{Key, NoMemory, Txt};
use std::alloc::Global;
use std::marker::Model;

/// A text as far as it was read, as the list of its scalar values. Once memory has run out it is only fit to be
/// dropped.
#[derive(Drop)]
pub(crate) struct Gathered {
    text: String,
}

impl Model for Gathered {
    ghost use Rattle.std.specs.Prelude.{List, ℕ, string_bytes, chars};

    ghost Value = { List ℕ };

    ghost view = { λ g. chars (string_bytes g.text) };
}

impl Gathered {
    ghost use Rattle.std.specs.Prelude.{◌≡◌, ◌++◌, [], OnOk, chars};

    /// Nothing was read yet.
    pub(crate) fn new(alloc: Global) -> Gathered
        ensures { result ≡ [] }
    {
        Gathered {
            text: String::new(alloc),
        }
    }

    /// Adds a piece.
    fn push(&mut self, piece: &str) -> Result<(), NoMemory>
        ensures { OnOk result (self.new ≡ self.old ++ chars piece.now) }
    {
        self.text.push_str(piece)?;
        Ok(())
    }

    /// What was read, as a text. It takes no memory.
    pub(crate) fn into_text(self) -> Txt
        ensures { result ≡ self }
    {
        Txt::of(self.text)
    }
}

/// Adds the piece of a node, and answers its first child and its next sibling.
fn add_piece<'a, R: Records<'a>>(
    records: &mut R,
    key: Key,
    text: &mut Gathered,
) -> Result<(Option<Key>, Option<Key>), NoMemory>
    ensures text { OnOk result (text.new ≡ text.old ++ piece_at (R.forest records.old) key) }
    ensures first { IfOk result (λ ends. ends.0 ≡ first_child (R.forest records.old) key) }
    ensures next { IfOk result (λ ends. ends.1 ≡ next_of (R.forest records.old) key) }
    ensures same { R.forest records.new ≡ R.forest records.old }
    ensures sound { Sound (R.forest records.old) }
    ensures reads { R.count records.new ≤ R.count records.old + 1 }
{
    let Some(node) = records.read(key) else {
        return Ok((None, None));
    };
    text.push(piece_of(node))?;
    Ok((node.first, node.next))
}

/// Adds the pieces of the children of a node, of which this is the first.
fn add_children<'a, R: Records<'a>>(
    records: &mut R,
    parent: Key,
    first: Option<Key>,
    text: &mut Gathered,
) -> Result<(), NoMemory>
    requires { first ≡ first_child (R.forest records.old) parent }
    ensures text { OnOk result (text.new ≡ text.old ++ gathered (piece_at (R.forest records.old)) (children_of (R.forest records.old) parent)) }
    ensures same { R.forest records.new ≡ R.forest records.old }
    ensures reads { R.count records.new ≤ R.count records.old + length (children_of (R.forest records.old) parent) }
{
    let mut at = first;
    while let Some(key) = at {
        let (_, next) = add_piece(records, key, text)?;
        at = next;
    }
    Ok(())
}

/// Adds the piece of a node and those of its children, and answers its next sibling.
fn add_with_children<'a, R: Records<'a>>(
    records: &mut R,
    key: Key,
    text: &mut Gathered,
) -> Result<Option<Key>, NoMemory>
    ensures text { OnOk result (text.new ≡ text.old ++ with_below (R.forest records.old) key) }
    ensures next { IfOk result (λ next. next ≡ next_of (R.forest records.old) key) }
    ensures same { R.forest records.new ≡ R.forest records.old }
    ensures sound { Sound (R.forest records.old) }
    ensures reads { R.count records.new ≤ R.count records.old + reads_of (R.forest records.old) key }
{
    let (first, next) = add_piece(records, key, text)?;
    add_children(records, key, first, text)?;
    Ok(next)
}

/// Adds all that the text of a heading has: the pieces of its children, of which this is the first, and of theirs.
pub(crate) fn add_all<'a, R: Records<'a>>(
    records: &mut R,
    parent: Key,
    first: Option<Key>,
    text: &mut Gathered,
) -> Result<(), NoMemory>
    requires { first ≡ first_child (R.forest records.old) parent }
    ensures text { OnOk result (text.new ≡ text.old ++ gathered (with_below (R.forest records.old)) (children_of (R.forest records.old) parent)) }
    ensures same { R.forest records.new ≡ R.forest records.old }
    ensures reads { R.count records.new ≤ R.count records.old + sum_by (reads_of (R.forest records.old)) (children_of (R.forest records.old) parent) }
{
    let mut at = first;
    while let Some(key) = at {
        at = add_with_children(records, key, text)?;
    }
    Ok(())
}
