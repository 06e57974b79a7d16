ghost use Rattle.lx_node.specs.Limits.{last_u32};

use crate::looks::{Tallied, Tally};
use crate::reconciling::reconcile_root;
use lx_host::{HostTree, Op, Ops};
use lx_links::Records;
use lx_marks::Marks;
use lx_node::NoMemory;
use std::alloc::Global;
use std::marker::Model;

/// The operations of one commit, in their order. Nothing but `operations` and `operations_by_parents` makes one.
pub struct Batch {
    ops: Ops,
    reads: u64,
}

// Written out, so that who drops one calls this: how each part is dropped is proved here alone.
impl Drop for Batch {
    fn drop(self) {
        let Batch { ops, reads: _ } = self;
        drop(ops);
    }
}

impl Model for Batch {
    ghost use Rattle.std.specs.Coded.{codes};
    ghost use Rattle.lx_reconcile.specs.Told.{Told};

    ghost Value = { Told };

    ghost coded = { Prim.hlevel (codes) };

    ghost view = { λ b. record { ops = b.ops; reads = b.reads } };
}

impl Batch {
    ghost use Rattle.std.specs.Prelude.{◌≡◌, IfOk};

    /// The operations.
    pub fn ops(&self) -> &[Op]
        ensures { result.now ≡ self.now.ops }
    {
        self.ops.items()
    }

    /// A copy of the operations.
    pub fn copy_ops(&self, alloc: Global) -> Result<Ops, NoMemory>
        ensures { IfOk result (λ made. made ≡ self.now.ops) }
    {
        self.ops.copy(alloc)
    }

    /// How many reads of records they were found by.
    pub fn reads(&self) -> u64
        ensures { result ≡ self.now.reads }
    {
        self.reads
    }
}

ghost use Rattle.std.specs.Prelude.{true, false, ◌≡◌, ◌+◌, ◌*◌, ◌≤◌, None, IfOk};
ghost use Rattle.lx_forest.specs.Covered.{AreCovered};
ghost use Rattle.lx_reconcile.specs.Covering.{AreCoveredByParents};
ghost use Rattle.lx_reconcile.specs.Reading.{most_reads};
ghost use Rattle.lx_reconcile.specs.Allowed.{Shows, marked_children, staying, unkept};
ghost use Rattle.lx_reconcile.specs.Allowing.{marking, IsAllowed};
ghost use Rattle.lx_forest.specs.Lookups.{alone, has};

/// The operations that bring a view of one tree to another tree, both the trees of key 0 in what is read. They lead from
/// the view to one of that tree, and keep the host of each node that is kept: of the root, and of each node that has the
/// same tag below the same kept parent in both trees. They are about the hosts of nodes that are marked themselves, of
/// children of those where these stay, and about new ones. Nodes without marks, and all below them, are skipped: the two
/// readers count at most 8 reads for each child that a marked node has in the new tree, or had in the old one where it
/// stays, for each node that isn't kept, and for one more. The new hosts' ids go on from the view's next one; `unkept`
/// says how many they can be.
pub fn operations<'a, R: Records<'a>>(
    alloc: Global,
    before: &mut R,
    after: &mut R,
    marks: &Marks,
    hosts: &HostTree,
) -> Result<Batch, NoMemory>
    requires rooted_before { has 0 (R.forest before.old) ≡ true }
    requires rooted_after { has 0 (R.forest after.old) ≡ true }
    requires covered { AreCovered (alone 0 (R.forest before.old)) (alone 0 (R.forest after.old)) (marking marks.now) }
    requires shown { Shows hosts.now.tree (alone 0 (R.forest before.old)) }
    requires room { hosts.now.tree.next + unkept (alone 0 (R.forest before.old)) None (alone 0 (R.forest after.old)) ≤ last_u32 }
    ensures allowed { IfOk result (λ batch. IsAllowed (alone 0 (R.forest before.old)) (alone 0 (R.forest after.old)) (marking marks.now) hosts.now.tree batch.ops) }
    ensures before { R.forest before.new ≡ R.forest before.old }
    ensures after { R.forest after.new ≡ R.forest after.old }
    ensures bounded { IfOk result (λ batch. batch.reads ≤ 8 * (marked_children (staying (marking marks.now).noted (alone 0 (R.forest after.old))) (alone 0 (R.forest before.old)) + marked_children (marking marks.now).noted (alone 0 (R.forest after.old)) + unkept (alone 0 (R.forest before.old)) None (alone 0 (R.forest after.old)) + 1)) }
    ensures told { IfOk result (λ batch. R.count before.new + R.count after.new ≤ R.count before.old + R.count after.old + batch.reads) }
    ensures reads { R.count before.new + R.count after.new ≤ R.count before.old + R.count after.old + 8 * (marked_children (staying (marking marks.now).noted (alone 0 (R.forest after.old))) (alone 0 (R.forest before.old)) + marked_children (marking marks.now).noted (alone 0 (R.forest after.old)) + unkept (alone 0 (R.forest before.old)) None (alone 0 (R.forest after.old)) + 1) }
{
    batch_of(alloc, before, after, marks, false, hosts)
}

/// The same where the marks cover by parents alone. Where children come, go or move, their parent is marked itself;
/// neither those beside them nor those that are gone need a mark. All children of a node that is marked itself are
/// read, so that `operations` reads fewer where the marks cover neighbours too.
pub fn operations_by_parents<'a, R: Records<'a>>(
    alloc: Global,
    before: &mut R,
    after: &mut R,
    marks: &Marks,
    hosts: &HostTree,
) -> Result<Batch, NoMemory>
    requires rooted_before { has 0 (R.forest before.old) ≡ true }
    requires rooted_after { has 0 (R.forest after.old) ≡ true }
    requires covered { AreCoveredByParents (alone 0 (R.forest before.old)) (alone 0 (R.forest after.old)) (marking marks.now) }
    requires shown { Shows hosts.now.tree (alone 0 (R.forest before.old)) }
    requires room { hosts.now.tree.next + unkept (alone 0 (R.forest before.old)) None (alone 0 (R.forest after.old)) ≤ last_u32 }
    ensures allowed { IfOk result (λ batch. IsAllowed (alone 0 (R.forest before.old)) (alone 0 (R.forest after.old)) (marking marks.now) hosts.now.tree batch.ops) }
    ensures before { R.forest before.new ≡ R.forest before.old }
    ensures after { R.forest after.new ≡ R.forest after.old }
    ensures bounded { IfOk result (λ batch. batch.reads ≤ 8 * (marked_children (staying (marking marks.now).noted (alone 0 (R.forest after.old))) (alone 0 (R.forest before.old)) + marked_children (marking marks.now).noted (alone 0 (R.forest after.old)) + unkept (alone 0 (R.forest before.old)) None (alone 0 (R.forest after.old)) + 1)) }
    ensures told { IfOk result (λ batch. R.count before.new + R.count after.new ≤ R.count before.old + R.count after.old + batch.reads) }
    ensures reads { R.count before.new + R.count after.new ≤ R.count before.old + R.count after.old + 8 * (marked_children (staying (marking marks.now).noted (alone 0 (R.forest after.old))) (alone 0 (R.forest before.old)) + marked_children (marking marks.now).noted (alone 0 (R.forest after.old)) + unkept (alone 0 (R.forest before.old)) None (alone 0 (R.forest after.old)) + 1) }
{
    batch_of(alloc, before, after, marks, true, hosts)
}

/// The operations between two trees. Where `whole` is true all children of a node that is marked itself are walked
/// over, so that the marks may cover by parents alone.
fn batch_of<'a, R: Records<'a>>(
    alloc: Global,
    before: &mut R,
    after: &mut R,
    marks: &Marks,
    whole: bool,
    hosts: &HostTree,
) -> Result<Batch, NoMemory>
    requires rooted_before { has 0 (R.forest before.old) ≡ true }
    requires rooted_after { has 0 (R.forest after.old) ≡ true }
    requires covered { AreCoveredByParents (alone 0 (R.forest before.old)) (alone 0 (R.forest after.old)) (marking marks.now) }
    requires wide { whole ≡ false → AreCovered (alone 0 (R.forest before.old)) (alone 0 (R.forest after.old)) (marking marks.now) }
    requires shown { Shows hosts.now.tree (alone 0 (R.forest before.old)) }
    requires room { hosts.now.tree.next + unkept (alone 0 (R.forest before.old)) None (alone 0 (R.forest after.old)) ≤ last_u32 }
    ensures allowed { IfOk result (λ batch. IsAllowed (alone 0 (R.forest before.old)) (alone 0 (R.forest after.old)) (marking marks.now) hosts.now.tree batch.ops) }
    ensures before { R.forest before.new ≡ R.forest before.old }
    ensures after { R.forest after.new ≡ R.forest after.old }
    ensures bounded { IfOk result (λ batch. batch.reads ≤ most_reads (alone 0 (R.forest before.old)) (alone 0 (R.forest after.old)) (marking marks.now).noted) }
    ensures told { IfOk result (λ batch. R.count before.new + R.count after.new ≤ R.count before.old + R.count after.old + batch.reads) }
    ensures reads { R.count before.new + R.count after.new ≤ R.count before.old + R.count after.old + most_reads (alone 0 (R.forest before.old)) (alone 0 (R.forest after.old)) (marking marks.now).noted }
{
    let mut ops = Vec::new(alloc);
    let mut first = Tally::new(before);
    let mut second = Tally::new(after);
    reconcile_root::<Tally<'_, R>, Tally<'_, R>, Tallied<'a>, Tallied<'a>>(
        alloc,
        &mut first,
        &mut second,
        marks,
        whole,
        hosts,
        &mut ops,
    )?;
    if ops.len() > u32::MAX as usize {
        return Err(NoMemory);
    }
    let reads = first.reads().saturating_add(second.reads());
    Ok(Batch {
        ops: Ops::of(ops),
        reads,
    })
}
