//! The moves from some children to others.

ghost use Rattle.std.specs.Prelude.{IsTrue};
ghost use Rattle.lx_trees.specs.Siblings.{NoRepeats};

use lx_node::{Key, NoMemory};
use lx_reconcile::{Move, walk};
use std::alloc::Global;
use std::test::Fail;

/// What is placed or made, with the child before which it comes.
fn told_place(alloc: Global, word: &str, key: Key, before: Option<Key>) -> Result<String, Fail> {
    let key = key.number();
    match before {
        Some(before) => Ok(format!(in alloc; "{word} {key} before {}, ", before.number())?),
        None => Ok(format!(in alloc; "{word} {key}, ")?),
    }
}

fn told(alloc: Global, next: &Move) -> Result<String, Fail> {
    match next {
        Move::Stay(key) => Ok(format!(in alloc; "{} stays, ", key.number())?),
        Move::Leave(key) => Ok(format!(in alloc; "{} leaves, ", key.number())?),
        Move::Place { key, before } => told_place(alloc, "place", *key, *before),
        Move::Make { key, before } => told_place(alloc, "make", *key, *before),
    }
}

fn keys(alloc: Global, numbers: &[u32]) -> Result<Vec<Key>, NoMemory> {
    let mut keys = Vec::new(alloc);
    for number in numbers {
        keys.push(Key(*number))?;
    }
    Ok(keys)
}

/// Whether no key is there twice.
fn are_once(keys: &[Key]) -> bool
    ensures { IsTrue result → NoRepeats keys.now }
{
    match keys.split_first() {
        Some((first, rest)) => !rest.contains(first) && are_once(rest),
        None => true,
    }
}

/// The moves from these children to those, in words.
fn walked(alloc: Global, old: &[Key], new: &[Key]) -> Result<String, Fail> {
    let mut text = String::new(alloc);
    if !are_once(old) || !are_once(new) {
        return Err(Fail::new("a child is there twice"));
    }
    for next in &walk(alloc, old, new)? {
        let words = told(alloc, next)?;
        text.push_str(words.as_str())?;
    }
    Ok(text)
}

/// Children before and after, by the numbers of their keys, with the moves from the ones to the others.
const WALKS: [(&[u32], &[u32], &str); 11] = [
    // The first child goes to the end.
    (
        &[1, 3, 5, 7, 9],
        &[3, 5, 7, 9, 1],
        "place 3 before 1, place 5 before 1, place 7 before 1, place 9 before 1, 1 stays, ",
    ),
    // One leaves, and the last comes first.
    (
        &[1, 3, 5, 7, 9],
        &[9, 1, 3, 7],
        "place 9 before 1, 1 stays, 5 leaves, place 3 before 7, 7 stays, ",
    ),
    // All are made, or leave.
    (&[], &[1, 2], "make 1, make 2, "),
    (&[1, 2], &[], "1 leaves, 2 leaves, "),
    // Equal lists stay.
    (&[4, 2, 9], &[4, 2, 9], "4 stays, 2 stays, 9 stays, "),
    (&[], &[], ""),
    // Another comes in the place of one.
    (
        &[1, 2, 3],
        &[1, 4, 3],
        "1 stays, 2 leaves, make 4 before 3, 3 stays, ",
    ),
    // Four turn round.
    (
        &[1, 2, 3, 4],
        &[4, 3, 2, 1],
        "place 4 before 1, place 3 before 1, place 2 before 1, 1 stays, ",
    ),
    // The cursor passes the last child while one before it still waits for its place.
    (
        &[1, 2, 3],
        &[3, 2, 5, 1],
        "place 3 before 1, 2 stays, make 5, place 1, ",
    ),
    // Two that are new come after the last child, and one that leaves does after they are reached.
    (
        &[2, 1],
        &[1, 2, 7, 8],
        "place 1 before 2, 2 stays, make 7, make 8, ",
    ),
    (&[6, 1, 8], &[1], "6 leaves, 1 stays, 8 leaves, "),
];

#[test]
fn children_become_others(rt: HostRuntime) -> Result<(), Fail> {
    for (before, after, wanted) in &WALKS {
        let old = keys(rt.alloc(), before)?;
        let new = keys(rt.alloc(), after)?;
        let moves = walked(rt.alloc(), &old, &new)?;
        assert_eq!(rt; moves.as_str(), *wanted, "{before:?} to {after:?}");
    }
    Ok(())
}
