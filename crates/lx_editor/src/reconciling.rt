//! What a commit says of its change, and how the view follows it.

ghost use Rattle.std.specs.Prelude.{◌≡◌, ◌≤◌, ◌+◌, [], ◌∷◌, None, IfOk, OnOk, OnErr, IfErr};
ghost use Rattle.lx_node.specs.Limits.{last_u32, most_nodes};
ghost use Rattle.lx_trees.specs.NamedTrees.{total};
ghost use Rattle.lx_host.specs.Hosts.{FitInTurn, Leads};
ghost use Rattle.lx_forest.specs.Lookups.{roots, IsForest};
ghost use Rattle.lx_forest.specs.Covered.{AreCovered};
ghost use Rattle.lx_reconcile.specs.Allowed.{Shows, unkept as unkept_of};
ghost use Rattle.lx_reconcile.specs.Allowing.{marking, IsAllowed};
ghost use Rattle.lx_editor.specs.Updated.{hosts_fault, TellsHosts};
ghost use Rattle.lx_reconcile.specs.Reading.{most_reads};

use lx_draft::over;
use lx_host::{HostTree, Ops};
use lx_links::{Counted, Links};
use lx_marks::Marks;
use lx_node::limits::MOST_NODES;
use lx_node::{Cause, Fault, Limit, NoMemory};
use lx_reconcile::{Batch, operations, unkept};
use std::alloc::Global;

/// The operations that bring a view of the old tree to the new one. It is refused where the view has no ids
/// for the hosts of all nodes that aren't kept.
pub(crate) fn reconcile<'a>(
    alloc: Global,
    old: &'a Links,
    new: &'a Links,
    marks: &Marks,
    view: &HostTree,
) -> Result<Batch, Fault>
    requires old { IsForest old.now }
    requires new { IsForest new.now }
    requires one_before { roots old.now ≡ 0 ∷ [] }
    requires one_after { roots new.now ≡ 0 ∷ [] }
    requires few { total new.now ≤ most_nodes }
    requires covered { AreCovered old.now new.now (marking marks.now) }
    requires shown { Shows view.now.tree old.now }
    ensures allowed { IfOk result (λ batch. IsAllowed old.now new.now (marking marks.now) view.now.tree batch.ops) }
    ensures few { IfOk result (λ batch. batch.reads ≤ most_reads old.now new.now (marking marks.now).noted) }
    ensures ids { OnOk result (hosts_fault old.now new.now view.now.tree ≡ None) }
    ensures refused { IfErr result (λ e. TellsHosts e (hosts_fault old.now new.now view.now.tree)) }
{
    if let Some(cause) = ids_fault(old, new, view)? {
        return Err(Fault::Cause(cause));
    }
    let mut before = Counted::new(old);
    let mut after = Counted::new(new);
    Ok(operations(alloc, &mut before, &mut after, marks, view)?)
}

/// The view has no ids for the hosts of all nodes that aren't kept. They are counted only where it may be so.
fn ids_fault<'a>(old: &'a Links, new: &'a Links, view: &HostTree) -> Result<Option<Cause>, NoMemory>
    requires old { IsForest old.now }
    requires new { IsForest new.now }
    requires one_before { roots old.now ≡ 0 ∷ [] }
    requires one_after { roots new.now ≡ 0 ∷ [] }
    requires few { total new.now ≤ most_nodes }
    ensures fault { IfOk result (λ cause. cause ≡ hosts_fault old.now new.now view.now.tree) }
    ensures room { IfOk result (λ cause. cause ≡ None → view.now.tree.next + unkept_of old.now None new.now ≤ last_u32) }
{
    let next = view.next_id();
    if next as u64 + MOST_NODES <= u32::MAX as u64 {
        return Ok(None);
    }
    let mut before = Counted::new(old);
    let mut after = Counted::new(new);
    let more = unkept(&mut before, &mut after)?;
    Ok(over(Limit::Hosts, u32::MAX as u64, next as u64 + more as u64))
}

/// Brings the view up to date. Without memory it stays as it was.
pub(crate) fn follow(view: &mut HostTree, ops: Ops) -> Result<(), NoMemory>
    requires { FitInTurn view.old.tree ops }
    ensures leads { OnOk result (Leads view.old.tree ops view.new.tree) }
    ensures same { OnErr result (view.new.tree ≡ view.old.tree) }
{
    view.reserve(ops.items())?;
    view.apply(ops.into_vec());
    Ok(())
}
