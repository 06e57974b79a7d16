//! Fields that are written as they are: each such edit takes its count and what it writes, and neither
//! copies nor marks anything.

ghost use Rattle.std.specs.Prelude.{◌≡◌, ◌≢◌, ◌+◌, ◌≤◌, ◌<◌, ◌⊎◌, true, false, Ok, Some, OnOk, IfOk, IfErr, IsTrue};
ghost use Rattle.lx_trees.specs.Trees.{nil};
ghost use Rattle.lx_node.specs.Limits.{most_counts, most_written};
ghost use Rattle.lx_node.specs.declared.fields.Fields as declared;
ghost use Rattle.lx_node.specs.Strings.{capped};
ghost use Rattle.lx_forest.specs.Lookups as lookups;
ghost use Rattle.lx_forest.specs.Weights.{weight};
ghost use Rattle.lx_links.specs.Sums.{items_in, item_characters_in};
ghost use Rattle.lx_draft.specs.Faults.{TellsStep, Leaves};
ghost use Rattle.lx_draft.specs.Rewriting.{MaySetAgain, StopsAgain};
ghost use Rattle.lx_draft.specs.Steps as steps;
ghost use Rattle.lx_draft.specs.Steps.{set_step};

use crate::draft::Draft;
use lx_node::limits::{MOST_COUNTS, MOST_WRITTEN};
use lx_node::{Cause, Fault, Fields, Key, Named, NoMemory};

impl Draft {
    /// Does what `set` does with the fields that the node has, without a copy of them. It takes a count and
    /// what their strings write, and the node stays as it is, unmarked. It is refused as `set` is.
    pub fn set_again(&mut self, key: Key) -> Result<(), Fault>
        ensures ok { OnOk result ((fields : declared.Fields) → lookups.fields_of self.old.forest key ≡ Some fields → set_step key fields self.old ≡ Ok self.new) }
        ensures there { OnOk result (lookups.has key self.old.forest ≡ true) }
        ensures forest { self.new.forest ≡ self.old.forest }
        ensures err { IfErr result (λ e. (fields : declared.Fields) → lookups.fields_of self.old.forest key ≡ Some fields → TellsStep e (set_step key fields self.old)) }
        ensures gone { IfErr result (λ e. lookups.has key self.old.forest ≡ false → (fields : declared.Fields) → TellsStep e (set_step key fields self.old)) }
        ensures left { IfErr result (λ e. Leaves e self.old self.new) }
        ensures living { OnOk result (self.old.forest ≢ nil) }
    {
        match self.may_set_again(key) {
            Ok(more) => {
                self.note_edit(more);
                self.keep_points(key);
                Ok(())
            }
            Err(fault) => Err(fault),
        }
    }

    /// What `set_again` looks for before it sets, and how many scalar values it writes.
    fn may_set_again(&self, key: Key) -> Result<u32, Fault>
        ensures allowed { IfOk result (λ more. MaySetAgain more key self.now) }
        ensures living { OnOk result (self.now.forest ≢ nil) }
        ensures err { IfErr result (λ e. StopsAgain e key self.now) }
    {
        self.living()?;
        let Some(node) = self.links.node(key) else {
            return Err(Fault::Cause(Cause::UnknownNode(Named::Key(key))));
        };
        match self.admit_fields(&node.fields) {
            Ok(more) => Ok(more),
            Err(cause) => Err(Fault::Cause(cause)),
        }
    }

    /// Keeps the points on the key within the text that its node has, if it has one.
    fn keep_points(&mut self, key: Key)
        ensures kept { (fields : declared.Fields) → lookups.fields_of self.old.forest key ≡ Some fields → self.new ≡ record self.old { selection = steps.set_points key fields self.old.selection } }
        ensures forest { self.new.forest ≡ self.old.forest }
    {
        if let Some(node) = self.links.node(key) {
            if let Fields::Text(text) = &node.fields {
                self.selection.after_set(key, text.text.as_str());
            }
        }
    }

    /// Whether so many edits more, which write so many scalar values together, are within the limits.
    pub fn may_write(&self, nodes: u64, characters: u64) -> bool
        ensures counts { IsTrue result → self.now.counted + nodes ≤ most_counts }
        ensures written { IsTrue result → self.now.written + characters ≤ most_written }
        ensures beyond { result ≡ false → (most_counts < self.now.counted + nodes) ⊎ (most_written < self.now.written + characters) }
    {
        nodes <= (MOST_COUNTS - self.counted) as u64
            && characters <= MOST_WRITTEN - self.written as u64
    }

    /// Takes so many edits at once that leave all as it is, each with a count, and so many scalar values
    /// that they write together. Where that would be beyond a limit it takes none of them and answers false.
    pub fn rewrite(&mut self, nodes: u64, characters: u64) -> bool
        ensures rewritten { IsTrue result → self.new ≡ steps.rewritten nodes characters self.old }
        ensures counts { IsTrue result → self.old.counted + nodes ≤ most_counts }
        ensures written { IsTrue result → self.old.written + characters ≤ most_written }
        ensures same { result ≡ false → self.new ≡ self.old }
        ensures beyond { result ≡ false → (most_counts < self.old.counted + nodes) ⊎ (most_written < self.old.written + characters) }
    {
        if !self.may_write(nodes, characters) {
            return false;
        }
        self.counted += nodes as u32;
        self.edits += nodes as u32;
        self.written += characters as u32;
        true
    }

    /// How many items aren't in the root's tree, and how many scalar values are in their strings, up to 2^64 - 1. It
    /// walks what was taken out, and nothing else.
    pub fn loose_items(&self) -> Result<(u64, u64), NoMemory>
        ensures items { IfOk result (λ found. found.0 ≡ weight items_in (lookups.without 0 self.now.forest)) }
        ensures characters { IfOk result (λ found. found.1 ≡ capped (weight item_characters_in (lookups.without 0 self.now.forest))) }
    {
        self.living()?;
        self.links.loose_items(self.loose.leaves())
    }
}
