ghost use Rattle.std.specs.Prelude.{◌≡◌, ◌+◌, ◌^◌, ◌≤◌, ◌<◌, ◌++◌, ◌∷◌, [], OnOk, length, drop, slice_get};
ghost use Rattle.lx_trees.specs.Siblings.{is_among, first_of};
ghost use Rattle.lx_reconcile.specs.Walk.{missing};
ghost use Rattle.lx_reconcile.specs.Underway.{case_of, case_of_both, settled_by, with_handled, GoesOn};
ghost use Rattle.lx_reconcile.specs.declared.moves.Move.TheVariants as move;

use crate::Move;
use indexmap::IndexSet;
use lx_node::{Key, NoMemory};
use std::alloc::Global;

/// How far a walk over two lists of children has come.
#[derive(Drop)]
pub(crate) struct Progress {
    /// How many of the children before have been passed.
    pub(crate) passed: usize,
    /// How many of the children after have been passed.
    pub(crate) reached: usize,
    /// The place among the children before where the cursor is, or that of a handled child before there.
    pub(crate) at: usize,
    /// Those of the children after that have been passed.
    pub(crate) handled: IndexSet<Key>,
    /// What is to be done, in this order.
    pub(crate) moves: Vec<Move>,
}

/// What is next in a walk.
#[derive(Clone, Copy)]
pub(crate) enum Case {
    /// The next child before and the next one after are the same.
    Same(Key),
    /// The next child before is none of those after.
    Gone(Key),
    /// The next child after is none of those before.
    New(Key),
    /// The next child after is one of those before too.
    Settled(Key),
    /// Both lists are at their ends.
    Neither,
}

/// The key at a place, where there is one.
pub(crate) fn key_at(keys: &[Key], i: usize) -> Option<Key>
    ensures { result ≡ slice_get keys.now i }
{
    keys.get(i).copied()
}

/// Whether the key is in the set.
fn is_in(keys: &IndexSet<Key>, key: Key) -> bool
    ensures { result ≡ is_among key keys.now.keys }
{
    keys.contains(&key)
}

/// The keys with one more, after the others unless it is there.
pub(crate) fn add_key(keys: &mut IndexSet<Key>, key: Key) -> Result<(), NoMemory>
    ensures { OnOk result (keys.new.keys ≡ with_handled key keys.old.keys) }
{
    keys.insert(key)?;
    Ok(())
}

/// The place of the first child from here on that isn't handled, or the end.
#[tactic(auto, using(crate::proofs::Places::missing_past, crate::proofs::Places::first_here, crate::proofs::Places::first_nowhere))]
pub(crate) fn unhandled_from(keys: &[Key], handled: &IndexSet<Key>, from: usize) -> usize
    requires { from ≤ length keys.now }
    ensures first { first_of (missing (drop result keys.now) handled.now.keys) ≡ slice_get keys.now result }
    ensures same { missing (drop result keys.now) handled.now.keys ≡ missing (drop from keys.now) handled.now.keys }
    ensures within { result ≤ length keys.now }
{
    let mut at = from;
    while at < keys.len() && is_in(handled, keys[at]) {
        at += 1;
    }
    at
}

/// What is next where neither list is at its end, from the two next children and the sets of all.
fn next_of_both(olds: &IndexSet<Key>, news: &IndexSet<Key>, old: Key, new: Key) -> Case
    ensures { result ≡ case_of_both olds.now.keys news.now.keys old new }
{
    if old == new {
        Case::Same(old)
    } else if !is_in(news, old) {
        Case::Gone(old)
    } else if !is_in(olds, new) {
        Case::New(new)
    } else {
        Case::Settled(new)
    }
}

/// What is next, from the two next children and the sets of all.
pub(crate) fn next_case(
    olds: &IndexSet<Key>,
    news: &IndexSet<Key>,
    old: Option<Key>,
    new: Option<Key>,
) -> Case
    ensures { result ≡ case_of olds.now.keys news.now.keys old new }
{
    match (old, new) {
        (None, None) => Case::Neither,
        (Some(old), None) => Case::Gone(old),
        (None, Some(new)) => Case::New(new),
        (Some(old), Some(new)) => next_of_both(olds, news, old, new),
    }
}

/// The move by which a child comes to the cursor, where this one is.
fn settling(key: Key, before: Option<Key>) -> Move
    ensures { result ≡ settled_by key before }
{
    match before {
        None => Move::Place { key, before: None },
        Some(first) => {
            if key == first {
                Move::Stay(key)
            } else {
                Move::Place {
                    key,
                    before: Some(first),
                }
            }
        }
    }
}

impl Progress {
    /// Nothing is passed yet.
    pub(crate) fn new(alloc: Global) -> Progress
        ensures passed { result.passed ≡ 0 }
        ensures reached { result.reached ≡ 0 }
        ensures at { result.at ≡ 0 }
        ensures handled { result.handled.keys ≡ [] }
        ensures moves { result.moves.items ≡ [] }
    {
        Progress {
            passed: 0,
            reached: 0,
            at: 0,
            handled: IndexSet::new(alloc),
            moves: Vec::new(alloc),
        }
    }

    /// The next child after is handled by this move.
    fn handle(&mut self, key: Key, next: Move) -> Result<(), NoMemory>
        requires { self.old.reached + 1 < 2 ^ 64 }
        ensures handled { OnOk result (self.new.handled.keys ≡ with_handled key self.old.handled.keys) }
        ensures moves { OnOk result (self.new.moves.items ≡ self.old.moves.items ++ next ∷ []) }
        ensures reached { OnOk result (self.new.reached ≡ self.old.reached + 1) }
        ensures passed { OnOk result (self.new.passed ≡ self.old.passed) }
        ensures at { OnOk result (self.new.at ≡ self.old.at) }
    {
        self.moves.extend_from_slice(&[next])?;
        add_key(&mut self.handled, key)?;
        self.reached += 1;
        Ok(())
    }

    /// The next child before is passed, and the cursor goes after it.
    fn pass(&mut self)
        requires { self.old.passed + 1 < 2 ^ 64 }
        ensures passed { self.new.passed ≡ self.old.passed + 1 }
        ensures at { self.new.at ≡ self.old.passed + 1 }
        ensures reached { self.new.reached ≡ self.old.reached }
        ensures handled { self.new.handled.keys ≡ self.old.handled.keys }
        ensures moves { self.new.moves.items ≡ self.old.moves.items }
    {
        self.passed += 1;
        self.at = self.passed;
    }

    /// The next child of both lists stays, and the cursor goes after it.
    pub(crate) fn keep(&mut self, key: Key) -> Result<(), NoMemory>
        requires reached { self.old.reached + 1 < 2 ^ 64 }
        requires passed { self.old.passed + 1 < 2 ^ 64 }
        ensures { OnOk result (GoesOn self.old self.new (move.Stay key) (with_handled key self.old.handled.keys) (self.old.passed + 1) (self.old.reached + 1) (self.old.passed + 1)) }
    {
        self.handle(key, Move::Stay(key))?;
        self.pass();
        Ok(())
    }

    /// The next child before leaves, and the cursor goes to where it was.
    pub(crate) fn leave(&mut self, key: Key) -> Result<(), NoMemory>
        requires { self.old.passed + 1 < 2 ^ 64 }
        ensures { OnOk result (GoesOn self.old self.new (move.Leave key) self.old.handled.keys (self.old.passed + 1) self.old.reached (self.old.passed + 1)) }
    {
        self.moves.extend_from_slice(&[Move::Leave(key)])?;
        self.pass();
        Ok(())
    }

    /// The next child after is made at the cursor.
    pub(crate) fn make(&mut self, key: Key, before: Option<Key>) -> Result<(), NoMemory>
        requires { self.old.reached + 1 < 2 ^ 64 }
        ensures { OnOk result (GoesOn self.old self.new (move.Make key before) (with_handled key self.old.handled.keys) self.old.passed (self.old.reached + 1) self.old.at) }
    {
        self.handle(key, Move::Make { key, before })
    }

    /// The next child after, which is one of those before, comes to the cursor: it stays where it is there, or is
    /// placed there. The next child before is passed, and waits for its turn.
    pub(crate) fn settle(&mut self, key: Key, before: Option<Key>) -> Result<(), NoMemory>
        requires reached { self.old.reached + 1 < 2 ^ 64 }
        requires passed { self.old.passed + 1 < 2 ^ 64 }
        ensures { OnOk result (GoesOn self.old self.new (settled_by key before) (with_handled key self.old.handled.keys) (self.old.passed + 1) (self.old.reached + 1) self.old.at) }
    {
        self.handle(key, settling(key, before))?;
        self.passed += 1;
        Ok(())
    }
}
