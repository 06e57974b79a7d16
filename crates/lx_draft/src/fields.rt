ghost use Rattle.std.specs.Prelude.{◌≡◌, ◌≢◌, ◌≤◌, ◌<◌, ◌+◌, None, Some, OnOk, OnErr, IfOk, IfErr};
ghost use Rattle.std.specs.Option.{option_or};
ghost use Rattle.lx_trees.specs.Trees.{nil};
ghost use Rattle.lx_node.specs.Strings.{characters_of};
ghost use Rattle.lx_forest.specs.Lookups as lookups;
ghost use Rattle.lx_forest.specs.Lookups.{IsForest};
ghost use Rattle.lx_forest.specs.Edits.{with_fields};
ghost use Rattle.lx_links.specs.Faults.{set_fault};
ghost use Rattle.lx_node.specs.Limits.{most_counts, most_written};
ghost use Rattle.lx_draft.specs.Faults.{over_limits, IsAdmitted, StopsAt};
ghost use Rattle.lx_draft.specs.Steps as steps;

use crate::draft::Draft;
use lx_node::{Cause, Fault, Fields, Key, NoMemory, Point, PointKind};
use lx_select::Selection;

/// An error for which fields are let go. A call of its own, so that no caller has to look into them.
pub(crate) fn let_go(_fields: Fields, fault: Fault) -> Fault
    ensures { result ≡ fault }
{
    fault
}

/// Whether the point counts children of the parent.
fn counts_children_of(point: &Point, parent: Key) -> bool
    ensures { result ≡ steps.counts_children_of parent point.now }
{
    matches!(point.kind, PointKind::Element) && point.key == parent
}

/// Whether a point of the selection counts children of the parent.
fn counts_children(selection: &Selection, parent: Key) -> bool
    ensures { result ≡ steps.has_point_counting parent selection.now }
{
    match selection {
        Selection::Range { anchor, focus, .. } => {
            counts_children_of(anchor, parent) || counts_children_of(focus, parent)
        }
        _ => false,
    }
}

impl Draft {
    /// The fields can't be set: there is no such node, or they aren't of its kind.
    pub(crate) fn set_fault(&self, key: Key, fields: &Fields) -> Option<Cause>
        ensures { result ≡ set_fault key fields.now self.now.forest }
    {
        if let Some(cause) = self.links.missing(key) {
            return Some(cause);
        }
        let kind = self.links.kind(key)?;
        if fields.is_of_kind(kind) {
            None
        } else {
            Some(Cause::WrongKind(kind))
        }
    }

    /// Whether the fields of a node differ from these.
    fn differ(&self, key: Key, fields: &Fields) -> bool
        ensures { result ≡ steps.differ (lookups.fields_of self.now.forest key) fields.now }
    {
        match self.links.node(key) {
            Some(node) => !node.fields.is_equal(fields),
            None => false,
        }
    }

    /// The scalar values in the strings of fields, if the update may write them and take another count.
    #[tactic(auto, using(crate::proofs::Capped::admitted_capped, crate::proofs::Capped::refused_capped))]
    pub(crate) fn admit_fields(&self, fields: &Fields) -> Result<u32, Cause>
        ensures ok { IfOk result (λ n. IsAdmitted n (characters_of fields.now) self.now) }
        ensures err { IfErr result (λ cause. over_limits (characters_of fields.now) self.now ≡ Some cause) }
    {
        match self.admit(fields.characters()) {
            Ok(more) => Ok(more),
            Err(cause) => Err(cause),
        }
    }

    /// What `set` looks for before it sets, and how many scalar values it writes.
    pub(crate) fn may_set(&self, key: Key, fields: &Fields) -> Result<u32, Fault>
        ensures allowed { OnOk result (set_fault key fields.now self.now.forest ≡ None) }
        ensures living { OnOk result (self.now.forest ≢ nil) }
        ensures order { OnOk result (IsForest self.now.forest) }
        ensures admitted { IfOk result (λ n. IsAdmitted n (characters_of fields.now) self.now) }
        ensures err { IfErr result (λ e. StopsAt e (option_or (set_fault key fields.now self.now.forest) (over_limits (characters_of fields.now) self.now)) self.now) }
    {
        self.living()?;
        if let Some(cause) = self.set_fault(key, fields) {
            return Err(Fault::Cause(cause));
        }
        match self.admit_fields(fields) {
            Ok(more) => Ok(more),
            Err(cause) => Err(Fault::Cause(cause)),
        }
    }

    /// What `new_node` looks for before it makes a node, and how many scalar values it writes.
    pub(crate) fn may_make(&self, fields: &Fields) -> Result<u32, Fault>
        ensures living { OnOk result (self.now.forest ≢ nil) }
        ensures order { OnOk result (IsForest self.now.forest) }
        ensures admitted { IfOk result (λ n. IsAdmitted n (characters_of fields.now) self.now) }
        ensures err { IfErr result (λ e. StopsAt e (over_limits (characters_of fields.now) self.now) self.now) }
    {
        self.living()?;
        match self.admit_fields(fields) {
            Ok(more) => Ok(more),
            Err(cause) => Err(Fault::Cause(cause)),
        }
    }

    /// Sets fields of a node's kind.
    fn set_fields(&mut self, key: Key, fields: Fields) -> Result<(), NoMemory>
        requires order { IsForest self.old.forest }
        requires fault { set_fault key fields self.old.forest ≡ None }
        requires few { characters_of fields ≤ self.old.written }
        ensures set { OnOk result (self.new ≡ record self.old { forest = with_fields key fields self.old.forest }) }
        ensures failed { OnErr result (self.new.forest ≡ nil) }
    {
        match self.links.set(key, fields) {
            Ok(()) => Ok(()),
            Err(_) => Err(NoMemory),
        }
    }

    /// Writes fields that take so many scalar values, and marks the node if they differ. Where they don't, the node stays
    /// as it is, and is shared with those who share it.
    #[tactic(auto, using(crate::proofs::Same::written_again))]
    pub(crate) fn refield(&mut self, key: Key, fields: Fields, more: u32) -> Result<(), NoMemory>
        requires order { IsForest self.old.forest }
        requires fault { set_fault key fields self.old.forest ≡ None }
        requires counts { self.old.counted < most_counts }
        requires written { self.old.written + more ≤ most_written }
        requires few { characters_of fields ≤ more }
        ensures ok { OnOk result (self.new ≡ steps.fields_written key fields more (λ s. s) self.old) }
        ensures failed { OnErr result (self.new.forest ≡ nil) }
    {
        self.note_edit(more);
        if !self.differ(key, &fields) {
            return Ok(());
        }
        self.mark_key(key)?;
        self.set_fields(key, fields)
    }

    /// Keeps the points on the key within the text of fields that it gets, if these have one.
    pub(crate) fn keep_points_within(&mut self, key: Key, fields: &Fields)
        ensures { self.new ≡ record self.old { selection = steps.set_points key fields.now self.old.selection } }
    {
        if let Fields::Text(text) = fields {
            self.selection.after_set(key, text.text.as_str());
        }
    }

    /// Moves the points on the parent that a child leaves. The child's index is looked for only where
    /// there are any.
    pub(crate) fn leave_points(&mut self, key: Key)
        ensures { self.new ≡ record self.old { selection = steps.take_points (lookups.parent_of self.old.forest key) (lookups.index_of self.old.forest key) self.old.selection } }
    {
        let Some(parent) = self.links.parent(key) else {
            return;
        };
        if !counts_children(&self.selection, parent) {
            return;
        }
        if let Some(index) = self.links.index_of(key) {
            self.selection.after_take(parent, index);
        }
    }
}
