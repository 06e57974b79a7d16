//! The headings of an outline.

ghost use Rattle.std.specs.Prelude.{◌≡◌, ◌+◌, ◌≤◌, IfOk};
ghost use Rattle.lx_outline.specs.Outline.{heading_at};
ghost use Rattle.lx_outline.specs.Reading.{heading_reads};

use crate::gathering::{Gathered, add_all};
use crate::reading::level_of;
use lx_links::Records;
use lx_node::{Key, NoMemory, Txt};
use std::alloc::Global;
use std::collections::BTreeMap;
use std::marker::Model;

/// A heading of an outline.
#[derive(Debug, Drop)]
pub struct Heading {
    /// From 1 to 6.
    pub level: u8,
    pub text: Txt,
}

/// A heading with its key, as an outline gives it.
#[derive(Debug, Drop)]
pub struct Entry {
    pub key: Key,
    /// From 1 to 6.
    pub level: u8,
    pub text: Txt,
}

/// Headings by their keys.
#[derive(Drop)]
pub(crate) struct Headings {
    held: BTreeMap<u32, Heading>,
}

impl Model for Headings {
    ghost use Rattle.std.specs.Prelude.{List, ℕ};
    ghost use Rattle.std.specs.Coded.{codes};
    ghost use Rattle.lx_outline.specs.declared.headings.Heading.{Heading};

    ghost Value = { List (ℕ × Heading) };

    ghost coded = { Prim.hlevel codes };

    ghost view = { λ h. h.held.entries };
}

impl Headings {
    ghost use Rattle.std.specs.Prelude.{◌≡◌, ◌==◌, ℕ, nat_eq, [], None, Some, if◌then◌else◌, OnOk};
    ghost use Rattle.std.specs.Option.{option_copied};
    ghost use Rattle.std.specs.Map.{lookup};

    /// No headings. Later ones take memory from the allocator.
    pub(crate) fn new(alloc: Global) -> Headings
        ensures { result ≡ [] }
    {
        Headings {
            held: BTreeMap::new(alloc),
        }
    }

    /// The heading of a key.
    pub(crate) fn find(&self, key: Key) -> Option<&Heading>
        ensures { option_copied result ≡ lookup (nat_eq key) self.now }
    {
        self.held.get(&key.number())
    }

    /// Puts a heading in the place of the one that is there, if any.
    fn insert(&mut self, key: Key, heading: Heading) -> Result<(), NoMemory>
        ensures { OnOk result ((q : ℕ) → lookup (nat_eq q) self.new ≡ (if q == key then Some heading else lookup (nat_eq q) self.old)) }
    {
        self.held.insert(key.number(), heading)?;
        Ok(())
    }

    /// Takes the heading of a key out, if there is one.
    pub(crate) fn remove(&mut self, key: Key)
        ensures { (q : ℕ) → lookup (nat_eq q) self.new ≡ (if q == key then None else lookup (nat_eq q) self.old) }
    {
        self.held.remove(&key.number());
    }

    /// Puts a heading in the place of the one that is there, or takes that out.
    pub(crate) fn put(&mut self, key: Key, heading: Option<Heading>) -> Result<(), NoMemory>
        ensures { OnOk result ((q : ℕ) → lookup (nat_eq q) self.new ≡ (if q == key then heading else lookup (nat_eq q) self.old)) }
    {
        match heading {
            Some(heading) => self.insert(key, heading),
            None => {
                self.remove(key);
                Ok(())
            }
        }
    }
}

/// A heading with its level and its text, where the node of that key is one.
pub(crate) fn read_heading<'a, R: Records<'a>>(
    alloc: Global,
    records: &mut R,
    key: Key,
) -> Result<Option<Heading>, NoMemory>
    ensures heading { IfOk result (λ heading. heading ≡ heading_at (R.forest records.old) key) }
    ensures same { R.forest records.new ≡ R.forest records.old }
    ensures reads { R.count records.new ≤ R.count records.old + heading_reads (R.forest records.old) key }
{
    let Some(node) = records.read(key) else {
        return Ok(None);
    };
    let Some(level) = level_of(node.kind) else {
        return Ok(None);
    };
    let mut text = Gathered::new(alloc);
    add_all(records, key, node.first, &mut text)?;
    Ok(Some(Heading {
        level,
        text: text.into_text(),
    }))
}
