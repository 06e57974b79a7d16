ghost use Rattle.std.specs.Prelude.{◌≡◌, ◌≢◌, ◌≤◌, ℕ, Some, Ok, IsTrue, IfOk, OnOk, IfErr};
ghost use Rattle.lx_trees.specs.Trees.{nil};
ghost use Rattle.lx_forest.specs.Lookups as lookups;
ghost use Rattle.lx_forest.specs.Lookups.{IsForest};
ghost use Rattle.lx_forest.specs.Edits.{drop_detached};
ghost use Rattle.lx_node.specs.declared.cause.Limit.TheVariants.{Depth, Characters};
ghost use Rattle.lx_node.specs.Limits.{most_depth, most_characters};
ghost use Rattle.lx_draft.specs.Working.{MayStart};
ghost use Rattle.lx_draft.specs.Faults.{TellsStep, over as fault_over};
ghost use Rattle.lx_draft.specs.Freezing as freezing;

use crate::counts::over;
use crate::draft::Draft;
use crate::state::{Frozen, State};
use lx_links::Links;
use lx_node::limits::{MOST_CHARACTERS, MOST_DEPTH, MOST_KEY, MOST_NODES};
use lx_node::{Cause, Fault, Key, Limit, NoMemory};
use lx_select::{Keys, Selection};

/// The greatest depth of the root's tree. It walks the tree once.
fn measure_depth(links: &Links) -> u32
    ensures { result ≡ freezing.tree_depth links.now }
{
    if links.has_failed() {
        return 0;
    }
    let mut deepest = 0;
    let mut at = Some((Key::root(), 0));
    while let Some((key, depth)) = at {
        deepest = deepest.max(depth);
        at = links.next_in_tree(key, depth);
    }
    deepest
}

/// The first limit that a state of these links with this next key is beyond: a depth of 48, 16,384 nodes,
/// 1,048,576 scalar values in all strings, and the next key 1,048,576. Nothing is detached. It walks the tree.
pub fn limits_fault(links: &Links, next_key: u32) -> Option<Cause>
    requires order { IsForest links.now }
    requires whole { drop_detached links.now ≡ links.now }
    ensures { result ≡ freezing.limits_fault links.now next_key }
{
    if let Some(cause) = too_deep(links) {
        return Some(cause);
    }
    size_fault(links, next_key)
}

/// The tree is too deep.
#[tactic(auto, using(lx_node::proofs::Strings::capped_small))]
fn too_deep(links: &Links) -> Option<Cause>
    ensures { result ≡ fault_over Depth most_depth (freezing.tree_depth links.now) }
{
    over(Limit::Depth, MOST_DEPTH as u64, measure_depth(links) as u64)
}

/// There are too many nodes, or scalar values, or keys.
#[tactic(auto, using(lx_node::proofs::Strings::capped_small))]
fn size_fault(links: &Links, next_key: u32) -> Option<Cause>
    requires order { IsForest links.now }
    requires whole { drop_detached links.now ≡ links.now }
    ensures { result ≡ freezing.size_fault links.now next_key }
{
    if let Some(cause) = over(Limit::Nodes, MOST_NODES, links.len() as u64) {
        return Some(cause);
    }
    if let Some(cause) = too_long(links) {
        return Some(cause);
    }
    over(Limit::KeyCount, MOST_KEY, next_key as u64)
}

/// There are too many scalar values in the strings.
fn too_long(links: &Links) -> Option<Cause>
    requires order { IsForest links.now }
    requires whole { drop_detached links.now ≡ links.now }
    ensures { result ≡ fault_over Characters most_characters (freezing.tree_characters links.now) }
{
    over(Limit::Characters, MOST_CHARACTERS, links.characters())
}

impl Draft {
    /// Sweeps what isn't in the root's tree, and ends the draft. It is refused where a point or a cell of
    /// the selection isn't in the tree any more, and where the tree is deeper than 48, or has more than
    /// 16,384 nodes or more than 1,048,576 scalar values in its strings, or the next key is above
    /// 1,048,576.
    #[tactic(auto, unfolding(crate::specs::Freezing::freeze_step))]
    pub fn freeze(self) -> Result<Frozen, Fault>
        ensures ok { IfOk result (λ frozen. freezing.Freezes self frozen.state.links frozen.state.selection frozen.marks frozen.next_key) }
        ensures start { IfOk result (λ frozen. MayStart frozen.state.links frozen.next_key) }
        ensures err { IfErr result (λ e. TellsStep e (freezing.freeze_step self)) }
        ensures living { OnOk result (self.forest ≢ nil) }
    {
        let mut draft = self;
        draft.sweep()?;
        if let Some(cause) = draft.freeze_fault() {
            return Err(Fault::Cause(cause));
        }
        Ok(Frozen {
            state: State {
                links: draft.links,
                selection: draft.selection,
            },
            marks: draft.marks,
            next_key: draft.next_key,
        })
    }

    /// Keeps the root's tree alone, and of selected nodes those in it.
    #[tactic(auto, unfolding(crate::specs::Freezing::swept))]
    fn sweep(&mut self) -> Result<(), NoMemory>
        ensures swept { OnOk result (self.new ≡ freezing.swept self.old) }
        ensures living { OnOk result (self.old.forest ≢ nil) }
        ensures whole { OnOk result (drop_detached self.new.forest ≡ self.new.forest) }
        ensures order { OnOk result (IsForest self.new.forest) }
    {
        self.living()?;
        self.links.drop_loose(self.loose.leaves())?;
        self.keep_selected()
    }

    /// Of selected nodes, keeps those that are there.
    fn keep_selected(&mut self) -> Result<(), NoMemory>
        ensures { OnOk result (self.new ≡ record self.old { selection = freezing.kept_selection self.old.forest self.old.selection }) }
    {
        if let Selection::Nodes(keys) = &self.selection {
            let kept = self.kept(keys.items())?;
            self.selection = kept;
        }
        Ok(())
    }

    /// The selection of those of these nodes that are there.
    fn kept(&self, keys: &[Key]) -> Result<Selection, NoMemory>
        ensures { IfOk result (λ selection. selection ≡ freezing.kept_nodes self.now.forest keys.now) }
    {
        let mut kept = Vec::new(self.alloc);
        for key in keys {
            if self.links.has(*key) {
                kept.push(*key)?;
            }
        }
        if kept.is_empty() {
            return Ok(Selection::Nothing);
        }
        Ok(Selection::Nodes(Keys::of(kept)))
    }

    /// Why the draft, in which nothing is detached, can't be committed as it is, the first cause.
    fn freeze_fault(&self) -> Option<Cause>
        requires order { IsForest self.now.forest }
        requires whole { drop_detached self.now.forest ≡ self.now.forest }
        ensures { result ≡ freezing.freeze_fault self.now }
    {
        if let Some(cause) = self.selection_lost() {
            return Some(cause);
        }
        if let Some(cause) = self.depth_fault() {
            return Some(cause);
        }
        size_fault(&self.links, self.next_key)
    }

    /// The tree is too deep. It is measured only where a node that was made or taken out is in it and
    /// has one too deep in its tree.
    fn depth_fault(&self) -> Option<Cause>
        ensures { result ≡ fault_over Depth most_depth (freezing.tree_depth self.now.forest) }
    {
        if self.is_shallow() {
            return None;
        }
        too_deep(&self.links)
    }

    /// Whether no node that was made or taken out has one too deep in its tree. Where these are many, the
    /// answer is false, since to measure the tree costs less.
    fn is_shallow(&self) -> bool
        ensures { IsTrue result → (q d : ℕ) → lookups.depth self.now.forest q ≡ Some d → d ≤ most_depth }
    {
        if self.loose.leaves().len() > self.links.len() as usize / 8 {
            return false;
        }
        for key in self.loose.leaves() {
            if let Some(depth) = self.links.depth(*key) {
                if depth > MOST_DEPTH || !self.links.is_shallow(*key, MOST_DEPTH - depth) {
                    return false;
                }
            }
        }
        true
    }
}
