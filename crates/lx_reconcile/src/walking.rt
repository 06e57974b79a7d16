ghost use Rattle.std.specs.Prelude.{◌≡◌, ◌<◌, ◌↔◌, IfOk, OnOk, IsTrue, map};
ghost use Rattle.lx_trees.specs.Siblings.{NoRepeats};
ghost use Rattle.lx_reconcile.specs.Walk.{IsWalk};
ghost use Rattle.lx_reconcile.specs.declared.moves.Move.TheVariants.{Stay};
ghost use Rattle.lx_reconcile.specs.Underway.{IsAlong, left_of};

use crate::Move;
use crate::progress::{Case, Progress, add_key, key_at, next_case, unhandled_from};
use indexmap::IndexSet;
use lx_node::{Key, NoMemory};
use std::alloc::Global;

/// What is done with each child of an element, in this order, so that these children become those.
///
/// Both lists are walked over side by side, and a cursor goes along the children as they are by then. A
/// child that is next in both lists stays, and the cursor goes after it. The next one before that is no
/// child any more leaves, and the cursor goes to where it was. The next one after that is new is made at the
/// cursor. Any other one after stays if it is the one at the cursor, which goes after it; else it is placed
/// at the cursor, and the next one before waits for its turn. What is left of the one list then leaves, or
/// what is left of the other is made at the end.
///
/// The time that is expected is in proportion to both lists. Where they are equal, each child stays, and no set of them
/// is made.
pub fn walk(alloc: Global, old: &[Key], new: &[Key]) -> Result<Vec<Move>, NoMemory>
    requires old { NoRepeats old.now }
    requires new { NoRepeats new.now }
    ensures walk { IfOk result (λ moves. IsWalk old.now new.now moves.items) }
{
    if are_same(old, new) {
        return all_stay(alloc, old);
    }
    walk_over(alloc, old, new)
}

/// Whether two lists of children are equal.
fn are_same(old: &[Key], new: &[Key]) -> bool
    ensures { IsTrue result ↔ (old.now ≡ new.now) }
{
    old == new
}

/// Each of these children stays.
fn all_stay(alloc: Global, keys: &[Key]) -> Result<Vec<Move>, NoMemory>
    ensures { IfOk result (λ moves. moves.items ≡ map Stay keys.now) }
{
    let mut moves = Vec::new(alloc);
    for key in keys {
        moves.extend_from_slice(&[Move::Stay(*key)])?;
    }
    Ok(moves)
}

/// The walk over both lists, side by side.
fn walk_over(alloc: Global, old: &[Key], new: &[Key]) -> Result<Vec<Move>, NoMemory>
    requires old { NoRepeats old.now }
    requires new { NoRepeats new.now }
    ensures walk { IfOk result (λ moves. IsWalk old.now new.now moves.items) }
{
    let olds = set_of(alloc, old)?;
    let news = set_of(alloc, new)?;
    let mut walk = Progress::new(alloc);
    while is_underway(&walk, old, new) {
        step(&mut walk, old, new, &olds, &news)?;
    }
    Ok(walk.moves)
}

/// The set of these keys, in their order.
fn set_of(alloc: Global, keys: &[Key]) -> Result<IndexSet<Key>, NoMemory>
    requires { NoRepeats keys.now }
    ensures { IfOk result (λ made. made.keys ≡ keys.now) }
{
    let mut made = IndexSet::new(alloc);
    for key in keys {
        add_key(&mut made, *key)?;
    }
    Ok(made)
}

/// Whether a child is left in either list.
fn is_underway(walk: &Progress, old: &[Key], new: &[Key]) -> bool
    requires { IsAlong old.now new.now walk.now }
    ensures { IsTrue result ↔ (0 < left_of old.now new.now walk.now) }
{
    walk.passed < old.len() || walk.reached < new.len()
}

/// One step, while a child is left in either list.
fn step(
    walk: &mut Progress,
    old: &[Key],
    new: &[Key],
    olds: &IndexSet<Key>,
    news: &IndexSet<Key>,
) -> Result<(), NoMemory>
    requires along { IsAlong old.now new.now walk.old }
    requires left { 0 < left_of old.now new.now walk.old }
    requires olds { olds.now.keys ≡ old.now }
    requires news { news.now.keys ≡ new.now }
    ensures along { OnOk result (IsAlong old.now new.now walk.new) }
    ensures fewer { OnOk result (left_of old.now new.now walk.new < left_of old.now new.now walk.old) }
{
    walk.at = unhandled_from(old, &walk.handled, walk.at);
    let cursor = key_at(old, walk.at);
    match next_case(
        olds,
        news,
        key_at(old, walk.passed),
        key_at(new, walk.reached),
    ) {
        Case::Same(key) => walk.keep(key),
        Case::Gone(key) => walk.leave(key),
        Case::New(key) => walk.make(key, cursor),
        Case::Settled(key) => walk.settle(key, cursor),
        Case::Neither => Ok(()),
    }
}
