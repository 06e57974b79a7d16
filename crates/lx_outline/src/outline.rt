ghost use Rattle.std.specs.Prelude.{◌≡◌};
ghost use Rattle.lx_forest.specs.Lookups.{preorder as all_keys};
ghost use Rattle.lx_outline.specs.Reading.{left_from, IsAt};

use crate::applying::{forget, look, renew, touched_by};
use crate::event::Event;
use crate::headings::{Entry, Headings};
use crate::sums::sums_of;
use lx_draft::State;
use lx_links::{Links, Records};
use lx_node::{Key, NoMemory};
use std::alloc::Global;
use std::marker::Model;

/// An outline of a tree: how many nodes and characters it has, and its headings by their keys.
#[derive(Drop)]
pub struct Outline {
    alloc: Global,
    nodes: u32,
    characters: u32,
    headings: Headings,
}

impl Model for Outline {
    ghost use Rattle.std.specs.Coded.{codes};
    ghost use Rattle.lx_outline.specs.Outline.{OutlineView};

    ghost Value = { OutlineView };

    ghost coded = { Prim.hlevel codes };

    ghost view = { λ o. record { nodes = o.nodes; characters = o.characters; headings = o.headings } };
}

impl Outline {
    ghost use Rattle.std.specs.Prelude.{◌≡◌, ◌+◌, ◌≤◌, ◌++◌, nat_eq, [], option_map, IfOk, OnOk};
    ghost use Rattle.std.specs.Map.{lookup};
    ghost use Rattle.lx_node.specs.Limits.{most_nodes, most_characters};
    ghost use Rattle.lx_trees.specs.NamedTrees.{total};
    ghost use Rattle.lx_forest.specs.Forest.{root_alone};
    ghost use Rattle.lx_forest.specs.Lookups.{preorder};
    ghost use Rattle.lx_forest.specs.Weights.{weight};
    ghost use Rattle.lx_outline.specs.Events.{AreEvents};
    ghost use Rattle.lx_outline.specs.Outline.{IsOutlineOf, new_outline, characters_in, entry_of, with_entry, entries_kept, entries_among};
    ghost use Rattle.lx_outline.specs.Reading.{most_reads};

    /// The outline of the root alone. Later headings take memory from the allocator.
    pub fn new(alloc: Global) -> Result<Outline, NoMemory>
        ensures made { IfOk result (λ made. made ≡ new_outline) }
        ensures outline { IfOk result (λ made. IsOutlineOf made root_alone) }
    {
        Ok(Outline {
            alloc,
            nodes: 1,
            characters: 0,
            headings: Headings::new(alloc),
        })
    }

    /// How many nodes the tree has.
    pub fn nodes(&self) -> u32
        ensures { result ≡ self.now.nodes }
    {
        self.nodes
    }

    /// How many characters, Unicode scalar values, the texts and tabs of the tree have.
    pub fn characters(&self) -> u32
        ensures { result ≡ self.now.characters }
    {
        self.characters
    }

    /// Follows a commit by its events, of whose two trees this is the outline of the first: it is then that of the second.
    /// It reads the root, the nodes of the events, two nodes above each at most, and the headings that have one of them at or
    /// below, each with its children and theirs. Once memory has run out it is only fit to be dropped.
    pub fn apply<'a, R: Records<'a>>(
        &mut self,
        events: &[Event],
        before: &mut R,
        after: &mut R,
    ) -> Result<(), NoMemory>
        requires outline { IsOutlineOf self.old (R.forest before.old) }
        requires events { AreEvents (R.forest before.old) (R.forest after.old) events.now }
        requires few_before { total (R.forest before.old) ≤ most_nodes }
        requires few_after { total (R.forest after.old) ≤ most_nodes }
        requires short_before { weight characters_in (R.forest before.old) ≤ most_characters }
        requires short_after { weight characters_in (R.forest after.old) ≤ most_characters }
        ensures outline { OnOk result (IsOutlineOf self.new (R.forest after.old)) }
        ensures before { R.forest before.new ≡ R.forest before.old }
        ensures after { R.forest after.new ≡ R.forest after.old }
        ensures reads { R.count before.new + R.count after.new ≤ R.count before.old + R.count after.old + most_reads events.now (R.forest after.old) }
    {
        look(before);
        look(after);
        let gone = sums_of(before, events);
        let come = sums_of(after, events);
        let touched = touched_by(self.alloc, events, after)?;
        let keys = touched.to_vec(self.alloc)?;
        forget(&mut self.headings, events);
        renew(self.alloc, &mut self.headings, keys.as_slice(), after)?;
        self.nodes = self.nodes + come.nodes - gone.nodes;
        self.characters = self.characters + come.characters - gone.characters;
        Ok(())
    }

    /// Adds the heading of a key as an entry, where it is one.
    fn add_entry(&self, key: Key, entries: &mut Vec<Entry>) -> Result<(), NoMemory>
        ensures { OnOk result (entries.new.items ≡ entries.old.items ++ with_entry (option_map (entry_of key) (lookup (nat_eq key) self.now.headings)) []) }
    {
        let Some(heading) = self.headings.find(key) else {
            return Ok(());
        };
        let text = heading.text.copy(self.alloc)?;
        entries.push(Entry {
            key,
            level: heading.level,
            text,
        })?;
        Ok(())
    }

    /// The headings in document order. Their levels and texts are those that the outline keeps: of the state only the order of
    /// its nodes is read. Where this is the outline of that state, they are the headings of its tree.
    pub fn entries(&self, state: &State) -> Result<Vec<Entry>, NoMemory>
        ensures kept { IfOk result (λ entries. entries.items ≡ entries_kept self.now.headings (preorder state.now.links)) }
        ensures told { IsOutlineOf self.now state.now.links → IfOk result (λ entries. entries.items ≡ entries_among state.now.links (preorder state.now.links)) }
    {
        let mut entries = Vec::new(self.alloc);
        let mut at = first_in(&state.links);
        while let Some((key, depth)) = at {
            self.add_entry(key, &mut entries)?;
            at = state.links.next_in_tree(key, depth);
        }
        Ok(entries)
    }
}

/// The first node of the tree with its depth, where there is one: links that have failed have none.
fn first_in(links: &Links) -> Option<(Key, u32)>
    ensures left { left_from links.now result ≡ all_keys links.now }
    ensures at { IsAt links.now result }
{
    let root = Key::root();
    if links.has(root) {
        return Some((root, 0));
    }
    None
}
