ghost use Rattle.lx_node.specs.Limits.{last_u32};

use crate::changes::{link_in, number_of, put_node, set_fields, unlink};
use crate::links::Links;
use crate::nodes::{bad_place, lone_node, unknown};
use crate::splices::{TextSplice, node_sums, splice_node};
use crate::sums::Sums;
use lx_joints::Gap;
use lx_node::{Cause, Fault, Fields, Key, Kind, NoMemory};

impl Links {
    ghost use Rattle.std.specs.Prelude.{◌≡◌, ◌≢◌, ◌<◌, true, false, None, OnOk, OnErr, IfErr};
    ghost use Rattle.lx_trees.specs.Trees.{nil};
    ghost use Rattle.lx_trees.specs.NamedTrees.{total};
    ghost use Rattle.lx_trees.specs.Siblings.{is_place, place_behind};
    ghost use Rattle.lx_node.specs.OfKind.{IsOfKind};
    ghost use Rattle.lx_node.specs.declared.kind.Kind.TheVariants.{Root};
    ghost use Rattle.lx_forest.specs.Lookups as lookups;
    ghost use Rattle.lx_forest.specs.Edits.{with_new, with_fields, take_out, put_in};
    ghost use Rattle.lx_links.specs.Faults.{RefusesEdit, set_fault, detach_fault, place_fault};
    ghost use Rattle.std.specs.Prelude.{◌++◌, ℕ, List, Some, chars};
    ghost use Rattle.lx_node.specs.Cuts.{Cuts};
    ghost use Rattle.lx_node.specs.declared.fields.Fields.TheVariants as fields;
    ghost use Rattle.lx_node.specs.declared.fields.TextFields.{TextFields};
    ghost use Rattle.lx_links.specs.Splices.{MaySplice};

    /// Adds a node without children that is below nothing.
    pub fn insert_new(&mut self, key: Key, kind: Kind, fields: Fields) -> Result<(), NoMemory>
        requires free { lookups.has key self.old ≡ false }
        requires room { total self.old < last_u32 }
        requires other { kind ≢ Root }
        requires of_kind { IsOfKind kind fields }
        ensures added { OnOk result (self.new ≡ with_new (record { key = key; kind = kind; fields = fields }) self.old) }
        ensures living { OnOk result (self.old ≢ nil) }
        ensures failed { OnErr result (self.new ≡ nil) }
    {
        let more = Sums::of(kind, &fields);
        let Some(mut store) = self.held.take() else {
            return Err(NoMemory);
        };
        put_node(&mut store, key, lone_node(kind, fields))?;
        self.held = Some(store);
        self.sums = self.sums.plus(more);
        Ok(())
    }

    /// Changes the fields of a node. It is refused where there is no such node, and where the fields aren't
    /// of its kind.
    pub fn set(&mut self, key: Key, fields: Fields) -> Result<(), Fault>
        ensures set { OnOk result ((set_fault key fields self.old ≡ None) × (self.new ≡ with_fields key fields self.old)) }
        ensures living { OnOk result (self.old ≢ nil) }
        ensures refused { IfErr result (RefusesEdit self.old (set_fault key fields self.old) self.new) }
    {
        self.living()?;
        let Some(node) = self.node(key) else {
            return Err(unknown(key));
        };
        if !fields.is_of_kind(node.kind) {
            return Err(Fault::Cause(Cause::WrongKind(node.kind)));
        }
        let old = Sums::of(node.kind, &node.fields);
        let new = Sums::of(node.kind, &fields);
        let Some(mut store) = self.held.take() else {
            return Err(Fault::Memory);
        };
        set_fields(&mut store, key, fields)?;
        self.held = Some(store);
        self.sums = self.sums.plus(new).less(old);
        Ok(())
    }

    /// Puts `new` in the place of a piece of a text where that is: so many bytes are before the piece, and so many are
    /// in it. Where no other links hold the node, its text isn't copied.
    pub fn splice(
        &mut self,
        key: Key,
        front: usize,
        piece: usize,
        new: &str,
    ) -> Result<(), NoMemory>
        requires { MaySplice key front piece self.old }
        ensures spliced { OnOk result ((text : TextFields) (before within behind : List ℕ) → lookups.fields_of self.old key ≡ Some (fields.Text text) → Cuts front piece before within behind text.text → self.new ≡ with_fields key (fields.Text (record text { text = before ++ chars new.now ++ behind })) self.old) }
        ensures living { OnOk result (self.old ≢ nil) }
        ensures failed { OnErr result (self.new ≡ nil) }
    {
        let Some(mut store) = self.held.take() else {
            return Err(NoMemory);
        };
        let old = node_sums(&store, key);
        let splice = TextSplice {
            front,
            piece,
            text: new,
        };
        splice_node(&mut store, key, splice)?;
        let more = node_sums(&store, key);
        self.held = Some(store);
        self.sums = self.sums.plus(more).less(old);
        Ok(())
    }

    /// Takes a node, with all below it, out from below its parent. It is refused where there is no such node,
    /// and where it is below nothing.
    pub fn detach(&mut self, key: Key) -> Result<(), Fault>
        ensures detached { OnOk result ((detach_fault key self.old ≡ None) × (self.new ≡ take_out key self.old)) }
        ensures living { OnOk result (self.old ≢ nil) }
        ensures refused { IfErr result (RefusesEdit self.old (detach_fault key self.old) self.new) }
    {
        self.living()?;
        let Some(node) = self.node(key) else {
            return Err(unknown(key));
        };
        let Some(parent) = node.parent else {
            return Err(bad_place(key));
        };
        let prev = node.prev;
        let next = node.next;
        let Some(mut store) = self.held.take() else {
            return Err(Fault::Memory);
        };
        unlink(&mut store, key, parent, prev, next)?;
        self.held = Some(store);
        Ok(())
    }

    /// Puts a node that is below nothing, with all below it, among the children of a parent: before one
    /// of them, or at the end. It is refused where one of the three isn't there; where the parent may not
    /// hold it; where it is the root, or is below a node already, or the parent is in its tree; and
    /// where what it is to come before isn't a child of the parent.
    pub fn place(&mut self, parent: Key, before: Option<Key>, key: Key) -> Result<(), Fault>
        ensures placed { OnOk result ((place_fault parent before key self.old ≡ None) × (self.new ≡ put_in parent before key self.old)) }
        ensures living { OnOk result (self.old ≢ nil) }
        ensures refused { IfErr result (RefusesEdit self.old (place_fault parent before key self.old) self.new) }
    {
        self.living()?;
        if let Some(cause) = self.place_fault(parent, &before, key) {
            return Err(Fault::Cause(cause));
        }
        let gap = self.gap(parent, &before);
        let Some(mut store) = self.held.take() else {
            return Err(Fault::Memory);
        };
        link_in(&mut store, key, parent, &gap)?;
        self.held = Some(store);
        Ok(())
    }

    /// The gap before that child of the parent, or at the end.
    fn gap(&self, parent: Key, before: &Option<Key>) -> Gap
        requires { is_place before.now (lookups.children_of self.now parent) ≡ true }
        ensures prev { result.prev ≡ place_behind before.now (lookups.children_of self.now parent) }
        ensures next { result.next ≡ before.now }
    {
        match before {
            Some(before) => Gap {
                prev: number_of(self.previous(*before)),
                next: Some(before.number()),
            },
            None => Gap {
                prev: number_of(self.last(parent)),
                next: None,
            },
        }
    }
}
