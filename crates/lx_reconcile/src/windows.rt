//! Runs of children of a node that hold all its marked ones. What is before and after such a run is the same in both
//! trees, and isn't read.

ghost use Rattle.std.specs.Prelude.{◌≡◌, ◌+◌, ◌≤◌, ◌||◌, ◌∷◌, [], true, None, length, map, is_some, if◌then◌else◌, IfOk, OnOk};
ghost use Rattle.std.specs.Option.{option_or};
ghost use Rattle.lx_trees.specs.Siblings.{is_among, is_named, is_place, last_of, NoRepeats};
ghost use Rattle.lx_forest.specs.Lookups.{children_of, first_child, has, next_of, IsForest};
ghost use Rattle.lx_links.specs.Stands.{Sound};
ghost use Rattle.lx_reconcile.specs.Looking.{Stays};
ghost use Rattle.lx_reconcile.specs.Allowing.{marking};
ghost use Rattle.lx_reconcile.specs.Walk as walks;
ghost use Rattle.lx_reconcile.specs.Windows.{between_names, start_of, end_of, marked_among, beside, IsGrown, Takes, IsWindow, IsWindowOfMarks, IsWalkIn};

use crate::family::{Family, is_noted};
use crate::looks::{Look, Looked, found, next_after};
use crate::moves::Move;
use crate::walking::walk;
use lx_marks::Marks;
use lx_node::{Key, NoMemory, Node};
use std::alloc::Global;
use std::collections::VecDeque;

/// A run of children of a node, in their order, and the children right before and after it.
#[derive(Drop)]
pub(crate) struct Window {
    pub(crate) before: Option<Key>,
    pub(crate) keys: VecDeque<Key>,
    pub(crate) behind: Option<Key>,
}

impl Window {
    /// The run of no children, of a node that has none.
    pub(crate) fn empty(alloc: Global) -> Window
        ensures before { result.before ≡ None }
        ensures keys { result.keys.items ≡ [] }
        ensures behind { result.behind ≡ None }
    {
        Window {
            before: None,
            keys: VecDeque::new(alloc),
            behind: None,
        }
    }

    /// Whether a child is before or after it.
    fn is_open(&self) -> bool
        ensures { result ≡ (is_some self.now.before || is_some self.now.behind) }
    {
        self.before.is_some() || self.behind.is_some()
    }

    /// Whether it grows at its end next, and not at its start: in turns, where it can do both.
    fn grows_behind(&self, turn: bool) -> bool
        requires open { (is_some self.now.before || is_some self.now.behind) ≡ true }
        ensures there { is_some (beside result self.now) ≡ true }
    {
        self.before.is_none() || (turn && self.behind.is_some())
    }

    /// The child right after it, or else the one right before it.
    fn beside(&self, behind: bool) -> Option<Key>
        ensures { result ≡ beside behind self.now }
    {
        if behind { self.behind } else { self.before }
    }

    /// Adds the child right after it, or else the one right before it, which was read.
    fn add(&mut self, behind: bool, child: Key, node: &Node) -> Result<(), NoMemory>
        ensures { OnOk result (IsGrown behind child node.now self.old self.new) }
    {
        if behind {
            self.keys.push_back(child)?;
            self.behind = node.next;
        } else {
            self.keys.push_front(child)?;
            self.before = node.prev;
        }
        Ok(())
    }
}

/// Takes one more child into a run, the one right after it or right before it: in turns, where there are both. Says
/// whether it carries a mark.
fn take_one<S, L: Look<S>>(
    source: &mut S,
    marks: &Marks,
    key: Key,
    window: &mut Window,
    turn: bool,
) -> Result<bool, NoMemory>
    requires sound { Sound (L.forest source.old) }
    requires open { (is_some window.old.before || is_some window.old.behind) ≡ true }
    requires run { IsWindow (children_of (L.forest source.old) key) window.old }
    ensures taken { IfOk result (λ marked. Takes (marking marks.now).noted (children_of (L.forest source.old) key) window.old window.new marked) }
    ensures same { L.forest source.new ≡ L.forest source.old }
    ensures backing { Stays (L.backing source.old) (L.backing source.new) }
    ensures reads { L.count source.new ≤ L.count source.old + 1 }
{
    let behind = window.grows_behind(turn);
    let Some(child) = window.beside(behind) else {
        unreachable!();
    };
    let item = found::<S, L>(source, child);
    window.add(behind, child, item.node())?;
    Ok(is_noted(marks, child))
}

/// The run around the marked child of a family that holds all marked children. It grows on both sides in turns, and
/// reads each child that it holds once.
pub(crate) fn marked_window<S, L: Look<S>>(
    alloc: Global,
    source: &mut S,
    marks: &Marks,
    key: Key,
    family: Family,
) -> Result<Window, NoMemory>
    requires sound { Sound (L.forest source.old) }
    requires child { is_among family.child (children_of (L.forest source.old) key) ≡ true }
    requires marked { (marking marks.now).noted family.child ≡ true }
    requires size { marked_among (marking marks.now).noted (children_of (L.forest source.old) key) ≤ family.size }
    ensures window { IfOk result (λ window. IsWindowOfMarks (marking marks.now).noted (children_of (L.forest source.old) key) window) }
    ensures same { L.forest source.new ≡ L.forest source.old }
    ensures backing { Stays (L.backing source.old) (L.backing source.new) }
    ensures reads { L.count source.new ≤ L.count source.old + length (children_of (L.forest source.old) key) }
{
    let mut window = window_at::<S, L>(alloc, source, key, family.child)?;
    let mut left = family.size.saturating_sub(1);
    let mut behind = true;
    while left > 0 && window.is_open() {
        if take_one::<S, L>(source, marks, key, &mut window, behind)? {
            left -= 1;
        }
        behind = !behind;
    }
    Ok(window)
}

/// The run of one child.
fn window_at<S, L: Look<S>>(
    alloc: Global,
    source: &mut S,
    key: Key,
    child: Key,
) -> Result<Window, NoMemory>
    requires sound { Sound (L.forest source.old) }
    requires child { is_among child (children_of (L.forest source.old) key) ≡ true }
    ensures run { IfOk result (λ window. IsWindow (children_of (L.forest source.old) key) window) }
    ensures keys { IfOk result (λ window. window.keys.items ≡ child ∷ []) }
    ensures same { L.forest source.new ≡ L.forest source.old }
    ensures backing { Stays (L.backing source.old) (L.backing source.new) }
    ensures reads { L.count source.new ≤ L.count source.old + 1 }
{
    let item = found::<S, L>(source, child);
    let node = item.node();
    let mut keys = VecDeque::new(alloc);
    keys.push_back(child)?;
    Ok(Window {
        before: node.prev,
        keys,
        behind: node.next,
    })
}

/// Where a run of children begins and ends. Where it names no last one it goes on to the end.
#[derive(Drop)]
struct Run {
    first: Option<Key>,
    last: Option<Key>,
}

/// The last of some keys.
fn last_key(keys: &VecDeque<Key>) -> Option<Key>
    ensures { result ≡ last_of keys.now.items }
{
    keys.back().copied()
}

/// The later run that is in the place of the window, of a node whose first child after is this one.
fn run_after(window: &Window, first: Option<Key>) -> Run
    ensures first { result.first ≡ start_of window.now first }
    ensures last { result.last ≡ end_of window.now }
{
    Run {
        first: match window.before {
            None => first,
            Some(_) => window.keys.front().copied(),
        },
        last: match window.behind {
            None => None,
            Some(_) => last_key(&window.keys),
        },
    }
}

/// The key of the node after this one, unless the run ends there.
fn next_in_run<S, L: Look<S>>(source: &mut S, run: &Run, key: Key) -> Option<Key>
    requires there { has key (L.forest source.old) ≡ true }
    ensures next { result ≡ (if is_named run.now.last key then None else next_of (L.forest source.old) key) }
    ensures same { L.forest source.new ≡ L.forest source.old }
    ensures backing { Stays (L.backing source.old) (L.backing source.new) }
    ensures reads { L.count source.new ≤ L.count source.old + 1 }
{
    match run.last {
        Some(last) if last == key => None,
        _ => next_after::<S, L>(source, key),
    }
}

/// The keys of a node's children in a run. It reads each of them.
fn keys_in<S, L: Look<S>>(
    alloc: Global,
    source: &mut S,
    key: Key,
    run: &Run,
) -> Result<Vec<Key>, NoMemory>
    requires sound { Sound (L.forest source.old) }
    requires first { is_place run.now.first (children_of (L.forest source.old) key) ≡ true }
    ensures keys { IfOk result (λ keys. keys.items ≡ between_names run.now.first run.now.last (children_of (L.forest source.old) key)) }
    ensures same { L.forest source.new ≡ L.forest source.old }
    ensures backing { Stays (L.backing source.old) (L.backing source.new) }
    ensures reads { L.count source.new ≤ L.count source.old + length (children_of (L.forest source.old) key) }
{
    let mut keys = Vec::new(alloc);
    let mut at = run.first;
    while let Some(child) = at {
        keys.push(child)?;
        at = next_in_run::<S, L>(source, run, child);
    }
    Ok(keys)
}

/// The keys of all children of a node, of which this is the first. It reads each of them.
fn all_keys<S, L: Look<S>>(
    alloc: Global,
    source: &mut S,
    key: Key,
    first: Option<Key>,
) -> Result<Vec<Key>, NoMemory>
    requires sound { Sound (L.forest source.old) }
    requires first { first ≡ first_child (L.forest source.old) key }
    ensures keys { IfOk result (λ keys. keys.items ≡ children_of (L.forest source.old) key) }
    ensures same { L.forest source.new ≡ L.forest source.old }
    ensures backing { Stays (L.backing source.old) (L.backing source.new) }
    ensures reads { L.count source.new ≤ L.count source.old + length (children_of (L.forest source.old) key) }
{
    let run = Run { first, last: None };
    keys_in::<S, L>(alloc, source, key, &run)
}

/// What is to be done with all children of a node, of which these are the first ones before and after.
pub(crate) fn moves_of_all<B, A, O: Look<B>, N: Look<A>>(
    alloc: Global,
    before: &mut B,
    after: &mut A,
    key: Key,
    was: Option<Key>,
    now: Option<Key>,
) -> Result<Vec<Move>, NoMemory>
    requires sound_before { Sound (O.forest before.old) }
    requires sound_after { Sound (N.forest after.old) }
    requires ordered_before { IsForest (O.forest before.old) }
    requires ordered_after { IsForest (N.forest after.old) }
    requires was { was ≡ first_child (O.forest before.old) key }
    requires now { now ≡ first_child (N.forest after.old) key }
    ensures walk { IfOk result (λ moves. walks.IsWalk (children_of (O.forest before.old) key) (children_of (N.forest after.old) key) moves.items) }
    ensures before { O.forest before.new ≡ O.forest before.old }
    ensures after { N.forest after.new ≡ N.forest after.old }
    ensures backing_before { Stays (O.backing before.old) (O.backing before.new) }
    ensures backing_after { Stays (N.backing after.old) (N.backing after.new) }
    ensures reads_before { O.count before.new ≤ O.count before.old + length (children_of (O.forest before.old) key) }
    ensures reads_after { N.count after.new ≤ N.count after.old + length (children_of (N.forest after.old) key) }
{
    let old = all_keys::<B, O>(alloc, before, key, was)?;
    let new = all_keys::<A, N>(alloc, after, key, now)?;
    walk(alloc, old.as_slice(), new.as_slice())
}

/// A child before which a move brings another one: this one, or where it names none, the child after the run.
fn place_toward(before: Option<Key>, window: &Window) -> Option<Key>
    ensures { result ≡ option_or before window.now.behind }
{
    match before {
        Some(key) => Some(key),
        None => window.behind,
    }
}

/// A move of a child of a run: where it brings the child to the end, to before the child after the run instead, if
/// there is one.
fn toward(step: Move, window: &Window) -> Move
    ensures { result ≡ walks.toward window.now.behind step }
{
    match step {
        Move::Stay(key) => Move::Stay(key),
        Move::Leave(key) => Move::Leave(key),
        Move::Make { key, before } => Move::Make {
            key,
            before: place_toward(before, window),
        },
        Move::Place { key, before } => Move::Place {
            key,
            before: place_toward(before, window),
        },
    }
}

/// Each of the moves, so that none brings a child of a run after what comes after the run.
fn all_toward(alloc: Global, moves: &[Move], window: &Window) -> Result<Vec<Move>, NoMemory>
    ensures { IfOk result (λ made. made.items ≡ map (walks.toward window.now.behind) moves.now) }
{
    let mut made = Vec::new(alloc);
    for step in moves {
        made.push(toward(*step, window))?;
    }
    Ok(made)
}

/// What is to be done with the children of a run, of a node whose first child after is this one.
pub(crate) fn moves_in<S, L: Look<S>>(
    alloc: Global,
    after: &mut S,
    key: Key,
    window: &mut Window,
    first: Option<Key>,
) -> Result<Vec<Move>, NoMemory>
    requires sound { Sound (L.forest after.old) }
    requires ordered { IsForest (L.forest after.old) }
    requires once { NoRepeats window.old.keys.items }
    requires first { is_place (start_of window.old first) (children_of (L.forest after.old) key) ≡ true }
    ensures walk { IfOk result (λ moves. IsWalkIn window.old first (children_of (L.forest after.old) key) moves.items) }
    ensures same { L.forest after.new ≡ L.forest after.old }
    ensures backing { Stays (L.backing after.old) (L.backing after.new) }
    ensures reads { L.count after.new ≤ L.count after.old + length (children_of (L.forest after.old) key) }
{
    let run = run_after(window, first);
    let new = keys_in::<S, L>(alloc, after, key, &run)?;
    let moves = walk(alloc, window.keys.make_contiguous(), new.as_slice())?;
    all_toward(alloc, moves.as_slice(), window)
}
