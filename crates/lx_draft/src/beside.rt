ghost use Rattle.std.specs.Prelude.{◌≡◌, true, None, OnOk, OnErr, IfErr};
ghost use Rattle.lx_node.specs.declared.cause.Cause.TheVariants.{BadPlace};
ghost use Rattle.lx_node.specs.declared.cause.Fault.TheVariants as fault;

use crate::draft::Draft;
use crate::marking::mark_both_near;
use lx_node::{Cause, Fault, Key, NoMemory};

/// The other is below nothing, so that nothing can be put beside it.
fn no_place_beside(other: Key) -> Fault
    ensures { result ≡ fault.Cause (BadPlace other) }
{
    Fault::Cause(Cause::BadPlace(other.number() as u64))
}

impl Draft {
    ghost use Rattle.std.specs.Prelude.{◌≢◌, Ok, slice_get};
    ghost use Rattle.lx_trees.specs.Trees.{nil};
    ghost use Rattle.lx_trees.specs.Siblings.{is_place};
    ghost use Rattle.lx_select.specs.Selection.{each_point};
    ghost use Rattle.lx_select.specs.Rules.{put_moves};
    ghost use Rattle.lx_forest.specs.Lookups as lookups;
    ghost use Rattle.lx_forest.specs.Lookups.{IsForest};
    ghost use Rattle.lx_draft.specs.Faults.{TellsStep, Leaves, put_fault};
    ghost use Rattle.lx_draft.specs.Steps as steps;
    ghost use Rattle.lx_draft.specs.Steps.{put_step};
    ghost use Rattle.lx_draft.specs.Beside.{gap_index, put_before_step, put_behind_step};

    /// Puts a node that is below nothing, with all below it, right before another. It is refused as
    /// `put` is, and where the other is below nothing. No children are counted, unless a point counts them.
    pub fn put_before(&mut self, key: Key, other: Key) -> Result<(), Fault>
        ensures ok { OnOk result (put_before_step key other self.old ≡ Ok self.new) }
        ensures err { IfErr result (λ e. TellsStep e (put_before_step key other self.old)) }
        ensures left { IfErr result (λ e. Leaves e self.old self.new) }
        ensures living { OnOk result (self.old.forest ≢ nil) }
    {
        self.living()?;
        match self.links.parent(other) {
            Some(parent) => self.put_in_gap(key, parent, Some(other)),
            None => Err(no_place_beside(other)),
        }
    }

    /// Puts a node that is below nothing, with all below it, right after another. It is refused as
    /// `put` is, and where the other is below nothing. No children are counted, unless a point counts them.
    pub fn put_behind(&mut self, key: Key, other: Key) -> Result<(), Fault>
        ensures ok { OnOk result (put_behind_step key other self.old ≡ Ok self.new) }
        ensures err { IfErr result (λ e. TellsStep e (put_behind_step key other self.old)) }
        ensures left { IfErr result (λ e. Leaves e self.old self.new) }
        ensures living { OnOk result (self.old.forest ≢ nil) }
    {
        self.living()?;
        match self.links.parent(other) {
            Some(parent) => {
                let next = self.links.next(other);
                self.put_in_gap(key, parent, next)
            }
            None => Err(no_place_beside(other)),
        }
    }

    /// Puts a node before a child of the parent, or at the end.
    #[tactic(auto, unfolding(crate::specs::Steps::put_step), using(crate::proofs::Gaps::gap_at))]
    fn put_in_gap(&mut self, key: Key, parent: Key, before: Option<Key>) -> Result<(), Fault>
        requires order { IsForest self.old.forest }
        requires place { is_place before (lookups.children_of self.old.forest parent) ≡ true }
        ensures ok { OnOk result (put_step key parent (gap_index before (lookups.children_of self.old.forest parent)) self.old ≡ Ok self.new) }
        ensures err { IfErr result (λ e. TellsStep e (put_step key parent (gap_index before (lookups.children_of self.old.forest parent)) self.old)) }
        ensures left { IfErr result (λ e. Leaves e self.old self.new) }
    {
        self.living()?;
        if let Some(cause) = self.gap_fault(key, parent, before) {
            return Err(Fault::Cause(cause));
        }
        if let Some(cause) = self.over_counts() {
            return Err(Fault::Cause(cause));
        }
        self.note_edit(0);
        self.make_room(parent, before);
        Ok(self.place_in_gap(key, parent, before)?)
    }

    /// The node can't be put there. The gap is a place among the children, so what any such index would be
    /// refused for is what refuses it: also the first.
    fn gap_fault(&self, key: Key, parent: Key, before: Option<Key>) -> Option<Cause>
        requires { is_place before (lookups.children_of self.now.forest parent) ≡ true }
        ensures { result ≡ put_fault key parent (gap_index before (lookups.children_of self.now.forest parent)) self.now.forest }
    {
        self.put_fault(key, parent, 0)
    }

    /// Moves the points on the parent that a new child goes before. The index of the gap is looked for only
    /// where there are any.
    fn make_room(&mut self, parent: Key, before: Option<Key>)
        requires order { IsForest self.old.forest }
        requires place { is_place before (lookups.children_of self.old.forest parent) ≡ true }
        ensures { self.new ≡ record self.old { selection = each_point (put_moves parent (gap_index before (lookups.children_of self.old.forest parent))) self.old.selection } }
    {
        if self.selection.has_point_on(parent) {
            let index = self.index_of_gap(parent, before);
            self.selection.after_put(parent, index);
        }
    }

    /// How many children come before the gap.
    fn index_of_gap(&self, parent: Key, before: Option<Key>) -> u32
        requires order { IsForest self.now.forest }
        requires place { is_place before (lookups.children_of self.now.forest parent) ≡ true }
        ensures { result ≡ gap_index before (lookups.children_of self.now.forest parent) }
    {
        match before {
            Some(before) => self.links.index_of(before).unwrap_or(0),
            None => self.links.size(parent),
        }
    }

    /// Puts a node before a child of the parent, or at the end, and marks it, the parent and its neighbours.
    pub(crate) fn place_in_gap(
        &mut self,
        key: Key,
        parent: Key,
        before: Option<Key>,
    ) -> Result<(), NoMemory>
        requires here { before ≡ slice_get (lookups.children_of self.old.forest parent) (gap_index before (lookups.children_of self.old.forest parent)) }
        requires fault { put_fault key parent (gap_index before (lookups.children_of self.old.forest parent)) self.old.forest ≡ None }
        requires order { IsForest self.old.forest }
        ensures placed { OnOk result (self.new ≡ steps.placed_in key parent (gap_index before (lookups.children_of self.old.forest parent)) self.old) }
        ensures failed { OnErr result (self.new.forest ≡ nil) }
    {
        match self.links.place(parent, before, key) {
            Ok(()) => mark_both_near(&mut self.marks, &mut self.fresh, &mut self.links, key),
            Err(_) => Err(NoMemory),
        }
    }
}
