//! The operations that bring the host of a node, with all below it, from one tree to another one. They go through both
//! trees side by side.

ghost use Rattle.lx_node.specs.Limits.{last_u32, last_u64};
ghost use Rattle.std.specs.Prelude.{◌≡◌, ◌+◌, ◌*◌, ◌<◌, ◌≤◌, ◌↔◌, ◌++◌, ◌&&◌, ◌∷◌, [], ℕ, true, false, length, IsTrue, None, Some, option_map, IfOk, OnOk};
ghost use Rattle.lx_trees.specs.NamedTrees.{total};
ghost use Rattle.lx_host.specs.declared.op.Op.TheVariants as op;
ghost use Rattle.lx_host.specs.Html.{first_tree};
ghost use Rattle.lx_forest.specs.Lookups.{alone, roots, trees_of, children_of, first_child, has};
ghost use Rattle.lx_forest.specs.Records.{record_at};
ghost use Rattle.lx_links.specs.Stands.{node_of, Sound};
ghost use Rattle.lx_forest.specs.Covered.{AreCovered};
ghost use Rattle.lx_reconcile.specs.Covering.{AreCoveredByParents};
ghost use Rattle.lx_reconcile.specs.Looking.{Stays};
ghost use Rattle.lx_reconcile.specs.Allowed.{hosts_of, marked_children, staying, unkept, Shows};
ghost use Rattle.lx_reconcile.specs.Allowing.{marking, IsAllowed};
ghost use Rattle.lx_render.specs.Render as shown;
ghost use Rattle.lx_reconcile.specs.Created.{creation_of};
ghost use Rattle.lx_reconcile.specs.Reconciled.{host_in};
ghost use Rattle.lx_reconcile.specs.Families.{marked_keys, AreFamilies};
ghost use Rattle.lx_reconcile.specs.Walk.{standing, IsPart};
ghost use Rattle.lx_reconcile.specs.Reading.{reads_in, reads_below};
ghost use Rattle.lx_reconcile.specs.Windows.{PlainStay};
ghost use Rattle.lx_reconcile.specs.Making.{IsBetween, Reconciles, MakesMoves, AreComing, IsNext};
ghost use Rattle.lx_reconcile.specs.declared.moves.Move.TheVariants.{Stay};

use crate::creation::create_tree;
use crate::faces::{is_ended, push_ending, push_face};
use crate::family::{Family, families_of, is_noted, is_touched};
use crate::looks::{Look, Looked, found};
use crate::moves::Move;
use crate::windows::{Window, marked_window, moves_in, moves_of_all};
use indexmap::IndexMap;
use lx_host::{HostTree, Op};
use lx_marks::Marks;
use lx_node::{Key, NoMemory, Node};
use lx_render::tag_of;
use std::alloc::Global;

/// The id of the host that shows a node.
pub(crate) fn host_of(hosts: &HostTree, key: Key) -> u32
    requires shown { hosts_of key hosts.now.tree.hosts ≡ host_in hosts.now.tree key ∷ [] }
    requires whole { first_tree hosts.now.tree.hosts ≡ hosts.now.tree.hosts }
    ensures { result ≡ host_in hosts.now.tree key }
{
    match hosts.host_of(key) {
        Some(id) => id,
        None => 0,
    }
}

/// The id of the host that shows a node, where one is named.
fn host_before(hosts: &HostTree, before: Option<Key>) -> Option<u32>
    requires shown { (k : ℕ) → before ≡ Some k → hosts_of k hosts.now.tree.hosts ≡ host_in hosts.now.tree k ∷ [] }
    requires whole { first_tree hosts.now.tree.hosts ≡ hosts.now.tree.hosts }
    ensures { result ≡ option_map (host_in hosts.now.tree) before }
{
    match before {
        None => None,
        Some(key) => Some(host_of(hosts, key)),
    }
}

/// Whether a node is shown by the same element as before.
pub(crate) fn has_same_tag(was: &Node, now: &Node) -> bool
    ensures { IsTrue result ↔ (shown.tag_of was.now.kind was.now.fields ≡ shown.tag_of now.now.kind now.now.fields) }
{
    tag_of(was.kind, &was.fields) == tag_of(now.kind, &now.fields)
}

/// The operations so far, and the id that the next new host gets.
#[derive(Drop)]
pub(crate) struct Written {
    next: u32,
    ops: Vec<Op>,
}

/// A node, and the host that shows it.
#[derive(Clone, Copy)]
struct Shown {
    key: Key,
    host: u32,
}

/// A node as both trees have it.
#[derive(Clone, Copy)]
pub(crate) struct Both<'n> {
    was: &'n Node,
    now: &'n Node,
}

/// Adds the operations that make hosts for a node and all below it, and put them among the children of a host.
fn make_child<S, L: Look<S>>(
    alloc: Global,
    after: &mut S,
    host: u32,
    key: Key,
    before: Option<u32>,
    written: &mut Written,
) -> Result<(), NoMemory>
    requires sound { Sound (L.forest after.old) }
    requires there { has key (L.forest after.old) ≡ true }
    requires room { written.old.next + total (alone key (L.forest after.old)) ≤ last_u32 }
    ensures ops { OnOk result (written.new.ops.items ≡ written.old.ops.items ++ creation_of written.old.next (alone key (L.forest after.old)) ++ op.Place host written.old.next before ∷ []) }
    ensures end { OnOk result (written.new.next ≡ written.old.next + total (alone key (L.forest after.old))) }
    ensures same { L.forest after.new ≡ L.forest after.old }
    ensures backing { Stays (L.backing after.old) (L.backing after.new) }
    ensures reads { L.count after.new ≤ L.count after.old + 2 * total (alone key (L.forest after.old)) }
{
    let item = found::<S, L>(after, key);
    let child = written.next;
    let end = create_tree::<S, L>(alloc, after, key, item.node(), child, &mut written.ops)?;
    written.next = end;
    written.ops.push(Op::Place {
        parent: host,
        child,
        before,
    })?;
    Ok(())
}

/// Adds the operations that put new hosts of a node in place of its old ones, among the children of a host.
fn replace_child<S, L: Look<S>>(
    alloc: Global,
    after: &mut S,
    host: u32,
    key: Key,
    old: u32,
    written: &mut Written,
) -> Result<(), NoMemory>
    requires sound { Sound (L.forest after.old) }
    requires there { has key (L.forest after.old) ≡ true }
    requires room { written.old.next + total (alone key (L.forest after.old)) ≤ last_u32 }
    ensures ops { OnOk result (written.new.ops.items ≡ written.old.ops.items ++ creation_of written.old.next (alone key (L.forest after.old)) ++ op.Place host written.old.next (Some old) ∷ [] ++ op.Drop old ∷ []) }
    ensures end { OnOk result (written.new.next ≡ written.old.next + total (alone key (L.forest after.old))) }
    ensures same { L.forest after.new ≡ L.forest after.old }
    ensures backing { Stays (L.backing after.old) (L.backing after.new) }
    ensures reads { L.count after.new ≤ L.count after.old + 2 * total (alone key (L.forest after.old)) }
{
    make_child::<S, L>(alloc, after, host, key, Some(old), written)?;
    written.ops.push(Op::Drop { id: old })?;
    Ok(())
}

/// What all of these functions are given: the marks with their families, and the view. Where `whole` is true all
/// children of a touched node are walked over, since those that move or go may carry no mark.
#[derive(Clone, Copy)]
pub(crate) struct Given<'v> {
    alloc: Global,
    marks: &'v Marks,
    whole: bool,
    families: &'v IndexMap<u32, Family>,
    hosts: &'v HostTree,
}

/// What is to be done with the children of a node, of which these are the first ones before and after: with all that
/// are in the run of those with marks. The others stay, and nothing is to be done for them.
fn window_moves<B, A, O: Look<B>, N: Look<A>>(
    given: &Given<'_>,
    before: &mut B,
    after: &mut A,
    parent: &Shown,
    was: Option<Key>,
    now: Option<Key>,
) -> Result<Vec<Move>, NoMemory>
    requires between { IsBetween (O.forest before.old) (N.forest after.old) (marking given.now.marks.now) given.now.hosts.now.tree }
    requires families { AreFamilies given.now.hosts.now.tree (marked_keys given.now.marks.now) given.now.families.now }
    requires host { parent.now.host ≡ host_in given.now.hosts.now.tree parent.now.key }
    requires there_before { has parent.now.key (O.forest before.old) ≡ true }
    requires stay { PlainStay (marking given.now.marks.now).noted (children_of (O.forest before.old) parent.now.key) (children_of (N.forest after.old) parent.now.key) }
    requires was { was ≡ first_child (O.forest before.old) parent.now.key }
    requires now { now ≡ first_child (N.forest after.old) parent.now.key }
    ensures part { IfOk result (λ moves. IsPart (marking given.now.marks.now).noted (children_of (O.forest before.old) parent.now.key) (children_of (N.forest after.old) parent.now.key) moves.items) }
    ensures before { O.forest before.new ≡ O.forest before.old }
    ensures after { N.forest after.new ≡ N.forest after.old }
    ensures backing_before { Stays (O.backing before.old) (O.backing before.new) }
    ensures backing_after { Stays (N.backing after.old) (N.backing after.new) }
    ensures reads_before { O.count before.new ≤ O.count before.old + length (children_of (O.forest before.old) parent.now.key) }
    ensures reads_after { N.count after.new ≤ N.count after.old + length (children_of (N.forest after.old) parent.now.key) }
{
    let mut window = match given.families.get(&parent.host) {
        Some(family) => {
            marked_window::<B, O>(given.alloc, before, given.marks, parent.key, *family)?
        }
        None if was.is_none() => Window::empty(given.alloc),
        None => return Ok(Vec::new(given.alloc)),
    };
    moves_in::<A, N>(given.alloc, after, parent.key, &mut window, now)
}

/// Whether all children of a node are walked over, and not a run of them alone.
fn walks_all(given: &Given<'_>, key: Key) -> bool
    ensures { result ≡ (given.now.whole && (marking given.now.marks.now).touched key) }
{
    given.whole && is_touched(given.marks, key)
}

/// What is to be done with the children of a node, of which these are the first ones before and after: with all of them
/// where they are all walked over, and else with those of a run. The others stay, and nothing is to be done for them.
fn moves_of<B, A, O: Look<B>, N: Look<A>>(
    given: &Given<'_>,
    before: &mut B,
    after: &mut A,
    parent: &Shown,
    was: Option<Key>,
    now: Option<Key>,
) -> Result<Vec<Move>, NoMemory>
    requires between { IsBetween (O.forest before.old) (N.forest after.old) (marking given.now.marks.now) given.now.hosts.now.tree }
    requires wide { given.now.whole ≡ false → AreCovered (O.forest before.old) (N.forest after.old) (marking given.now.marks.now) }
    requires families { AreFamilies given.now.hosts.now.tree (marked_keys given.now.marks.now) given.now.families.now }
    requires host { parent.now.host ≡ host_in given.now.hosts.now.tree parent.now.key }
    requires there_before { has parent.now.key (O.forest before.old) ≡ true }
    requires there_after { has parent.now.key (N.forest after.old) ≡ true }
    requires was { was ≡ first_child (O.forest before.old) parent.now.key }
    requires now { now ≡ first_child (N.forest after.old) parent.now.key }
    ensures part { IfOk result (λ moves. IsPart (marking given.now.marks.now).noted (children_of (O.forest before.old) parent.now.key) (children_of (N.forest after.old) parent.now.key) moves.items) }
    ensures before { O.forest before.new ≡ O.forest before.old }
    ensures after { N.forest after.new ≡ N.forest after.old }
    ensures backing_before { Stays (O.backing before.old) (O.backing before.new) }
    ensures backing_after { Stays (N.backing after.old) (N.backing after.new) }
    ensures reads_before { O.count before.new ≤ O.count before.old + length (children_of (O.forest before.old) parent.now.key) }
    ensures reads_after { N.count after.new ≤ N.count after.old + length (children_of (N.forest after.old) parent.now.key) }
{
    if walks_all(given, parent.key) {
        return moves_of_all::<B, A, O, N>(given.alloc, before, after, parent.key, was, now);
    }
    window_moves::<B, A, O, N>(given, before, after, parent, was, now)
}

/// Adds the operations for a node that both trees have at the same place, with the same element.
#[cycle(reconciling)]
pub(crate) fn reconcile_node<B, A, O: Look<B>, N: Look<A>>(
    given: &Given<'_>,
    before: &mut B,
    after: &mut A,
    key: Key,
    both: Both<'_>,
    written: &mut Written,
) -> Result<(), NoMemory>
    requires between { IsBetween (O.forest before.old) (N.forest after.old) (marking given.now.marks.now) given.now.hosts.now.tree }
    requires wide { given.now.whole ≡ false → AreCovered (O.forest before.old) (N.forest after.old) (marking given.now.marks.now) }
    requires families { AreFamilies given.now.hosts.now.tree (marked_keys given.now.marks.now) given.now.families.now }
    requires was { Some both.was.now ≡ option_map node_of (record_at (O.forest before.old) key) }
    requires now { Some both.now.now ≡ option_map node_of (record_at (N.forest after.old) key) }
    requires tag { shown.tag_of both.was.now.kind both.was.now.fields ≡ shown.tag_of both.now.now.kind both.now.now.fields }
    requires behind { given.now.hosts.now.tree.next ≤ written.old.next }
    requires room { written.old.next + unkept (O.forest before.old) (Some key) (trees_of (N.forest after.old) (children_of (N.forest after.old) key)) ≤ last_u32 }
    ensures done { OnOk result (Reconciles (O.forest before.old) (N.forest after.old) (marking given.now.marks.now) given.now.hosts.now.tree key written.old.next written.old.ops.items written.new.ops.items written.new.next) }
    ensures before { O.forest before.new ≡ O.forest before.old }
    ensures after { N.forest after.new ≡ N.forest after.old }
    ensures backing_before { Stays (O.backing before.old) (O.backing before.new) }
    ensures backing_after { Stays (N.backing after.old) (N.backing after.new) }
    ensures reads { O.count before.new + N.count after.new ≤ O.count before.old + N.count after.old + reads_below (O.forest before.old) (N.forest after.old) (marking given.now.marks.now).noted key }
{
    let host = host_of(given.hosts, key);
    push_face(given.alloc, host, both.was, both.now, &mut written.ops)?;
    let parent = Shown { key, host };
    let moves = moves_of::<B, A, O, N>(
        given,
        before,
        after,
        &parent,
        both.was.first,
        both.now.first,
    )?;
    make_moves::<B, A, O, N>(given, before, after, &parent, moves.as_slice(), written)?;
    let old = is_ended::<B, O>(before, both.was);
    let new = is_ended::<A, N>(after, both.now);
    push_ending(host, old, new, &mut written.ops)?;
    Ok(())
}

/// Adds the operations for the children of a node, which are these moves.
#[cycle(reconciling)]
fn make_moves<B, A, O: Look<B>, N: Look<A>>(
    given: &Given<'_>,
    before: &mut B,
    after: &mut A,
    parent: &Shown,
    moves: &[Move],
    written: &mut Written,
) -> Result<(), NoMemory>
    requires between { IsBetween (O.forest before.old) (N.forest after.old) (marking given.now.marks.now) given.now.hosts.now.tree }
    requires wide { given.now.whole ≡ false → AreCovered (O.forest before.old) (N.forest after.old) (marking given.now.marks.now) }
    requires families { AreFamilies given.now.hosts.now.tree (marked_keys given.now.marks.now) given.now.families.now }
    requires host { parent.now.host ≡ host_in given.now.hosts.now.tree parent.now.key }
    requires coming { AreComing (O.forest before.old) (N.forest after.old) given.now.hosts.now.tree parent.now.key moves.now written.old.next }
    ensures done { OnOk result (MakesMoves (O.forest before.old) (N.forest after.old) (marking given.now.marks.now) given.now.hosts.now.tree parent.now.key moves.now written.old.next written.old.ops.items written.new.ops.items written.new.next) }
    ensures before { O.forest before.new ≡ O.forest before.old }
    ensures after { N.forest after.new ≡ N.forest after.old }
    ensures backing_before { Stays (O.backing before.old) (O.backing before.new) }
    ensures backing_after { Stays (N.backing after.old) (N.backing after.new) }
    ensures reads { O.count before.new + N.count after.new ≤ O.count before.old + N.count after.old + reads_in (O.forest before.old) (marking given.now.marks.now).noted (Some parent.now.key) (trees_of (N.forest after.old) (standing moves.now)) }
{
    for step in moves {
        make_move::<B, A, O, N>(given, before, after, parent, *step, written)?;
    }
    Ok(())
}

/// Adds the operations for one move.
#[cycle(reconciling)]
fn make_move<B, A, O: Look<B>, N: Look<A>>(
    given: &Given<'_>,
    before: &mut B,
    after: &mut A,
    parent: &Shown,
    step: Move,
    written: &mut Written,
) -> Result<(), NoMemory>
    requires between { IsBetween (O.forest before.old) (N.forest after.old) (marking given.now.marks.now) given.now.hosts.now.tree }
    requires wide { given.now.whole ≡ false → AreCovered (O.forest before.old) (N.forest after.old) (marking given.now.marks.now) }
    requires families { AreFamilies given.now.hosts.now.tree (marked_keys given.now.marks.now) given.now.families.now }
    requires host { parent.now.host ≡ host_in given.now.hosts.now.tree parent.now.key }
    requires coming { IsNext (O.forest before.old) (N.forest after.old) given.now.hosts.now.tree parent.now.key step written.old.next }
    ensures done { OnOk result (MakesMoves (O.forest before.old) (N.forest after.old) (marking given.now.marks.now) given.now.hosts.now.tree parent.now.key (step ∷ []) written.old.next written.old.ops.items written.new.ops.items written.new.next) }
    ensures before { O.forest before.new ≡ O.forest before.old }
    ensures after { N.forest after.new ≡ N.forest after.old }
    ensures backing_before { Stays (O.backing before.old) (O.backing before.new) }
    ensures backing_after { Stays (N.backing after.old) (N.backing after.new) }
    ensures reads { O.count before.new + N.count after.new ≤ O.count before.old + N.count after.old + reads_in (O.forest before.old) (marking given.now.marks.now).noted (Some parent.now.key) (trees_of (N.forest after.old) (standing (step ∷ []))) }
{
    match step {
        Move::Stay(key) => {
            reconcile_child::<B, A, O, N>(given, before, after, parent, key, written)
        }
        Move::Leave(key) => {
            written.ops.push(Op::Drop {
                id: host_of(given.hosts, key),
            })?;
            Ok(())
        }
        Move::Make {
            key,
            before: behind,
        } => {
            let behind = host_before(given.hosts, behind);
            make_child::<A, N>(given.alloc, after, parent.host, key, behind, written)
        }
        Move::Place {
            key,
            before: behind,
        } => {
            written.ops.push(Op::Place {
                parent: parent.host,
                child: host_of(given.hosts, key),
                before: host_before(given.hosts, behind),
            })?;
            reconcile_child::<B, A, O, N>(given, before, after, parent, key, written)
        }
    }
}

/// Adds the operations for a child that both trees have: none where it carries no mark.
#[cycle(reconciling)]
fn reconcile_child<B, A, O: Look<B>, N: Look<A>>(
    given: &Given<'_>,
    before: &mut B,
    after: &mut A,
    parent: &Shown,
    key: Key,
    written: &mut Written,
) -> Result<(), NoMemory>
    requires between { IsBetween (O.forest before.old) (N.forest after.old) (marking given.now.marks.now) given.now.hosts.now.tree }
    requires wide { given.now.whole ≡ false → AreCovered (O.forest before.old) (N.forest after.old) (marking given.now.marks.now) }
    requires families { AreFamilies given.now.hosts.now.tree (marked_keys given.now.marks.now) given.now.families.now }
    requires host { parent.now.host ≡ host_in given.now.hosts.now.tree parent.now.key }
    requires coming { IsNext (O.forest before.old) (N.forest after.old) given.now.hosts.now.tree parent.now.key (Stay key) written.old.next }
    ensures done { OnOk result (MakesMoves (O.forest before.old) (N.forest after.old) (marking given.now.marks.now) given.now.hosts.now.tree parent.now.key (Stay key ∷ []) written.old.next written.old.ops.items written.new.ops.items written.new.next) }
    ensures before { O.forest before.new ≡ O.forest before.old }
    ensures after { N.forest after.new ≡ N.forest after.old }
    ensures backing_before { Stays (O.backing before.old) (O.backing before.new) }
    ensures backing_after { Stays (N.backing after.old) (N.backing after.new) }
    ensures reads { O.count before.new + N.count after.new ≤ O.count before.old + N.count after.old + reads_in (O.forest before.old) (marking given.now.marks.now).noted (Some parent.now.key) (alone key (N.forest after.old)) }
{
    if !is_noted(given.marks, key) {
        return Ok(());
    }
    let was = found::<B, O>(before, key);
    let now = found::<A, N>(after, key);
    if has_same_tag(was.node(), now.node()) {
        let both = Both {
            was: was.node(),
            now: now.node(),
        };
        reconcile_node::<B, A, O, N>(given, before, after, key, both, written)
    } else {
        let old = host_of(given.hosts, key);
        replace_child::<A, N>(given.alloc, after, parent.host, key, old, written)
    }
}

/// Adds the operations that bring a view of the root's tree to another tree. There are none before.
pub(crate) fn reconcile_root<B, A, O: Look<B>, N: Look<A>>(
    alloc: Global,
    before: &mut B,
    after: &mut A,
    marks: &Marks,
    whole: bool,
    hosts: &HostTree,
    ops: &mut Vec<Op>,
) -> Result<(), NoMemory>
    requires rooted_before { has 0 (O.forest before.old) ≡ true }
    requires rooted_after { has 0 (N.forest after.old) ≡ true }
    requires alone_before { Sound (O.forest before.old) → roots (O.forest before.old) ≡ 0 ∷ [] }
    requires alone_after { Sound (N.forest after.old) → roots (N.forest after.old) ≡ 0 ∷ [] }
    requires covered { AreCoveredByParents (O.forest before.old) (N.forest after.old) (marking marks.now) }
    requires wide { whole ≡ false → AreCovered (O.forest before.old) (N.forest after.old) (marking marks.now) }
    requires shown { Shows hosts.now.tree (O.forest before.old) }
    requires room { hosts.now.tree.next + unkept (O.forest before.old) None (N.forest after.old) ≤ last_u32 }
    requires none { ops.old.items ≡ [] }
    ensures allowed { OnOk result (IsAllowed (O.forest before.old) (N.forest after.old) (marking marks.now) hosts.now.tree ops.new.items) }
    ensures fits { 8 * (marked_children (staying (marking marks.now).noted (N.forest after.old)) (O.forest before.old) + marked_children (marking marks.now).noted (N.forest after.old) + unkept (O.forest before.old) None (N.forest after.old) + 1) < last_u64 }
    ensures before { O.forest before.new ≡ O.forest before.old }
    ensures after { N.forest after.new ≡ N.forest after.old }
    ensures backing_before { Stays (O.backing before.old) (O.backing before.new) }
    ensures backing_after { Stays (N.backing after.old) (N.backing after.new) }
    ensures reads { O.count before.new + N.count after.new ≤ O.count before.old + N.count after.old + 8 * (marked_children (staying (marking marks.now).noted (N.forest after.old)) (O.forest before.old) + marked_children (marking marks.now).noted (N.forest after.old) + unkept (O.forest before.old) None (N.forest after.old) + 1) }
{
    let key = Key::root();
    let next = hosts.next_id();
    let was = found::<B, O>(before, key);
    let now = found::<A, N>(after, key);
    if !is_noted(marks, key) {
        return Ok(());
    }
    let both = Both {
        was: was.node(),
        now: now.node(),
    };
    let families = families_of(alloc, marks, hosts)?;
    let given = Given {
        alloc,
        marks,
        whole,
        families: &families,
        hosts,
    };
    let mut written = Written {
        next,
        ops: Vec::new(alloc),
    };
    reconcile_node::<B, A, O, N>(&given, before, after, key, both, &mut written)?;
    *ops = written.ops;
    Ok(())
}
