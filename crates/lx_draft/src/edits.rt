ghost use Rattle.std.specs.Prelude.{◌≡◌, OnOk, OnErr};
ghost use Rattle.lx_trees.specs.Trees.{nil};
ghost use Rattle.lx_marks.specs.Marks.{with_leaf};

use crate::draft::Draft;
use crate::fields::let_go;
use crate::texts::characters;
use lx_links::Links;
use lx_marks::Marks;
use lx_node::{Fault, Fields, Key, Kind, NoMemory};
use lx_select::Selection;

/// Notes that the key is made or taken out. Where memory runs out the links have failed.
fn loosen(loose: &mut Marks, links: &mut Links, key: Key) -> Result<(), NoMemory>
    ensures noted { OnOk result (loose.new ≡ with_leaf key loose.old) }
    ensures same { OnOk result (links.new ≡ links.old) }
    ensures failed { OnErr result (links.new ≡ nil) }
{
    match loose.mark_leaf(key) {
        Ok(()) => Ok(()),
        Err(error) => {
            links.fail();
            Err(error)
        }
    }
}

impl Draft {
    ghost use Rattle.std.specs.Prelude.{◌≢◌, ◌<◌, ◌≤◌, ◌+◌, None, Ok, chars, IfOk, IfErr};
    ghost use Rattle.lx_node.specs.OfKind.{IsOfKind};
    ghost use Rattle.lx_node.specs.declared.kind.Kind.TheVariants.{Root};
    ghost use Rattle.lx_node.specs.Strings.{characters_of};
    ghost use Rattle.lx_forest.specs.Lookups.{IsForest};
    ghost use Rattle.lx_forest.specs.Edits.{take_out};
    ghost use Rattle.lx_links.specs.Faults.{set_fault, detach_fault};
    ghost use Rattle.lx_node.specs.Limits.{most_counts, most_written};
    ghost use Rattle.lx_draft.specs.Faults.{IsAdmitted, TellsStep, Leaves, put_fault};
    ghost use Rattle.lx_draft.specs.Steps as steps;
    ghost use Rattle.lx_draft.specs.Steps.{new_step, set_step, splice_step, take_step, put_step, mark_step, mark_uncounted_step, select_step};

    /// Makes a node without children that is below nothing, and answers its key. It is refused where
    /// 100,000 counts were taken, and where the strings of the fields would bring what was written above
    /// 16,777,216 scalar values.
    #[tactic(auto, unfolding(crate::specs::Steps::new_step))]
    pub fn new_node(&mut self, kind: Kind, fields: Fields) -> Result<Key, Fault>
        requires other { kind ≢ Root }
        requires of_kind { IsOfKind kind fields }
        ensures ok { OnOk result (new_step kind fields self.old ≡ Ok self.new) }
        ensures key { IfOk result (λ key. key ≡ self.old.next_key) }
        ensures err { IfErr result (λ e. TellsStep e (new_step kind fields self.old)) }
        ensures left { IfErr result (λ e. Leaves e self.old self.new) }
        ensures living { OnOk result (self.old.forest ≢ nil) }
    {
        match self.may_make(&fields) {
            Ok(more) => Ok(self.make(kind, fields, more)?),
            Err(fault) => Err(let_go(fields, fault)),
        }
    }

    /// Makes a node whose strings have so many scalar values.
    fn make(&mut self, kind: Kind, fields: Fields, more: u32) -> Result<Key, NoMemory>
        requires other { kind ≢ Root }
        requires of_kind { IsOfKind kind fields }
        requires order { IsForest self.old.forest }
        requires admitted { IsAdmitted more (characters_of fields) self.old }
        ensures made { OnOk result (self.new ≡ steps.made kind fields self.old) }
        ensures key { IfOk result (λ key. key ≡ self.old.next_key) }
        ensures failed { OnErr result (self.new.forest ≡ nil) }
    {
        self.note_edit(more);
        let key = Key(self.next_key);
        loosen(&mut self.loose, &mut self.links, key)?;
        self.links.insert_new(key, kind, fields)?;
        self.next_key += 1;
        self.mark_key(key)?;
        Ok(key)
    }

    /// Changes the fields of a node. It is refused where there is no such node, where the fields aren't
    /// of its kind, and beyond the limits as a new node is. A write of equal fields marks nothing. A
    /// point in a text stays within it.
    #[tactic(auto, unfolding(crate::specs::Steps::set_step))]
    pub fn set(&mut self, key: Key, fields: Fields) -> Result<(), Fault>
        ensures ok { OnOk result (set_step key fields self.old ≡ Ok self.new) }
        ensures err { IfErr result (λ e. TellsStep e (set_step key fields self.old)) }
        ensures left { IfErr result (λ e. Leaves e self.old self.new) }
        ensures living { OnOk result (self.old.forest ≢ nil) }
    {
        match self.may_set(key, &fields) {
            Ok(more) => Ok(self.write(key, fields, more)?),
            Err(fault) => Err(let_go(fields, fault)),
        }
    }

    /// Writes fields whose strings have so many scalar values.
    fn write(&mut self, key: Key, fields: Fields, more: u32) -> Result<(), NoMemory>
        requires order { IsForest self.old.forest }
        requires allowed { set_fault key fields self.old.forest ≡ None }
        requires admitted { IsAdmitted more (characters_of fields) self.old }
        ensures written { OnOk result (self.new ≡ steps.fields_written key fields (characters_of fields) (steps.set_points key fields) self.old) }
        ensures failed { OnErr result (self.new.forest ≡ nil) }
    {
        self.keep_points_within(key, &fields);
        self.refield(key, fields, more)
    }

    /// Replaces the piece of a text from one offset to another. It is refused where there is no such node,
    /// where it isn't a text, where an offset is past its end or inside a surrogate pair, where `from` is
    /// above `to`, where 100,000 counts were taken, and where the new piece would bring what was written
    /// above 16,777,216 scalar values.
    #[tactic(auto, unfolding(crate::specs::Steps::splice_step))]
    pub fn splice(&mut self, key: Key, from: u32, to: u32, new: &str) -> Result<(), Fault>
        ensures ok { OnOk result (splice_step key from to (chars new.now) self.old ≡ Ok self.new) }
        ensures err { IfErr result (λ e. TellsStep e (splice_step key from to (chars new.now) self.old)) }
        ensures left { IfErr result (λ e. Leaves e self.old self.new) }
        ensures living { OnOk result (self.old.forest ≢ nil) }
    {
        self.living()?;
        let piece = match self.piece_at(key, from, to) {
            Ok(piece) => piece,
            Err(cause) => return Err(Fault::Cause(cause)),
        };
        match self.admit(characters(new)) {
            Ok(more) => {
                self.respell(key, piece, new, more)?;
                self.selection
                    .after_splice(key, from, to, lx_text::length(new));
                Ok(())
            }
            Err(cause) => Err(Fault::Cause(cause)),
        }
    }

    /// Takes a node, with all below it, out from below its parent. It is refused where there is no such
    /// node, where it is below nothing, and where 100,000 counts were taken.
    #[tactic(auto, unfolding(crate::specs::Steps::take_step))]
    pub fn take(&mut self, key: Key) -> Result<(), Fault>
        ensures ok { OnOk result (take_step key self.old ≡ Ok self.new) }
        ensures err { IfErr result (λ e. TellsStep e (take_step key self.old)) }
        ensures left { IfErr result (λ e. Leaves e self.old self.new) }
        ensures living { OnOk result (self.old.forest ≢ nil) }
    {
        self.living()?;
        if let Some(cause) = self.take_fault(key) {
            return Err(Fault::Cause(cause));
        }
        if let Some(cause) = self.over_counts() {
            return Err(Fault::Cause(cause));
        }
        self.note_edit(0);
        self.mark_around(key)?;
        self.leave_points(key);
        Ok(self.detach(key)?)
    }

    /// Puts a node that is below nothing, with all below it, among the children of a parent, at an
    /// index of at most their number. It is refused where one of the two isn't there; where the node is
    /// the root, is below another already, or has the parent in its tree; where the parent may not
    /// hold it; where the index is above the number of children; and where 100,000 counts were taken.
    #[tactic(auto, unfolding(crate::specs::Steps::put_step))]
    pub fn put(&mut self, key: Key, parent: Key, index: u32) -> Result<(), Fault>
        ensures ok { OnOk result (put_step key parent index self.old ≡ Ok self.new) }
        ensures err { IfErr result (λ e. TellsStep e (put_step key parent index self.old)) }
        ensures left { IfErr result (λ e. Leaves e self.old self.new) }
        ensures living { OnOk result (self.old.forest ≢ nil) }
    {
        self.living()?;
        if let Some(cause) = self.put_fault(key, parent, index) {
            return Err(Fault::Cause(cause));
        }
        if let Some(cause) = self.over_counts() {
            return Err(Fault::Cause(cause));
        }
        self.note_edit(0);
        self.place(key, parent, index)?;
        self.selection.after_put(parent, index);
        Ok(())
    }

    /// Marks a node. It is refused where there is no such node, and where 100,000 counts were taken.
    #[tactic(auto, unfolding(crate::specs::Steps::mark_step))]
    pub fn mark(&mut self, key: Key) -> Result<(), Fault>
        ensures ok { OnOk result (mark_step key self.old ≡ Ok self.new) }
        ensures err { IfErr result (λ e. TellsStep e (mark_step key self.old)) }
        ensures left { IfErr result (λ e. Leaves e self.old self.new) }
        ensures living { OnOk result (self.old.forest ≢ nil) }
    {
        self.living()?;
        if let Some(cause) = self.links.missing(key) {
            return Err(Fault::Cause(cause));
        }
        if let Some(cause) = self.over_counts() {
            return Err(Fault::Cause(cause));
        }
        self.note_edit(0);
        self.mark_key(key)?;
        Ok(())
    }

    /// Marks a node without a count, as loading a document and registering a rule do. It isn't an edit.
    /// It is refused where there is no such node.
    #[tactic(auto, unfolding(crate::specs::Steps::mark_uncounted_step))]
    pub fn mark_uncounted(&mut self, key: Key) -> Result<(), Fault>
        ensures ok { OnOk result (mark_uncounted_step key self.old ≡ Ok self.new) }
        ensures err { IfErr result (λ e. TellsStep e (mark_uncounted_step key self.old)) }
        ensures left { IfErr result (λ e. Leaves e self.old self.new) }
        ensures living { OnOk result (self.old.forest ≢ nil) }
    {
        self.living()?;
        if let Some(cause) = self.links.missing(key) {
            return Err(Fault::Cause(cause));
        }
        self.mark_key(key)?;
        Ok(())
    }

    /// Selects. It is refused where a node of the selection isn't there, where a point or a cell is of
    /// the wrong kind, where an offset is past the end or inside a surrogate pair, and where a cell isn't
    /// below the table. It takes no count and marks nothing.
    #[tactic(auto, unfolding(crate::specs::Steps::select_step))]
    pub fn select(&mut self, selection: Selection) -> Result<(), Fault>
        ensures ok { OnOk result (select_step selection self.old ≡ Ok self.new) }
        ensures err { IfErr result (λ e. TellsStep e (select_step selection self.old)) }
        ensures left { IfErr result (λ e. Leaves e self.old self.new) }
        ensures living { OnOk result (self.old.forest ≢ nil) }
    {
        self.living()?;
        if let Some(cause) = self.select_fault(&selection) {
            return Err(Fault::Cause(cause));
        }
        self.selection = selection;
        Ok(())
    }

    fn detach(&mut self, key: Key) -> Result<(), NoMemory>
        requires fault { detach_fault key self.old.forest ≡ None }
        requires order { IsForest self.old.forest }
        ensures detached { OnOk result (self.new ≡ record self.old { forest = take_out key self.old.forest }) }
        ensures failed { OnErr result (self.new.forest ≡ nil) }
    {
        loosen(&mut self.loose, &mut self.links, key)?;
        match self.links.detach(key) {
            Ok(()) => Ok(()),
            Err(_) => Err(NoMemory),
        }
    }

    /// Puts a node among the children of a parent, and marks it, the parent and its neighbours.
    fn place(&mut self, key: Key, parent: Key, index: u32) -> Result<(), NoMemory>
        requires fault { put_fault key parent index self.old.forest ≡ None }
        requires order { IsForest self.old.forest }
        ensures placed { OnOk result (self.new ≡ steps.placed_in key parent index self.old) }
        ensures failed { OnErr result (self.new.forest ≡ nil) }
    {
        let before = self.links.child_at(parent, index);
        self.place_in_gap(key, parent, before)
    }
}
