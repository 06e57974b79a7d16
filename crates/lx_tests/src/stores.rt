//! A store beside a fork of it, which share pages, and what edits copy.

use crate::links::insert;
use lx_links::Links;
use lx_node::{Fields, Key, Kind, NoMemory, Node, Txt};
use lx_store::{Copies, Edit, Store, Tally};
use std::alloc::Global;
use std::test::Fail;

/// An embed that stands nowhere, as links make it.
fn embed(alloc: Global, source: &str) -> Result<Node, NoMemory> {
    let source = Txt::new(alloc, source)?;
    let mut links = Links::new(alloc)?;
    insert(&mut links, Kind::Embed, Fields::Embed(source))?;
    match links.node(Key(1)) {
        Some(node) => node.copy(alloc),
        None => Err(NoMemory),
    }
}

fn source(node: Option<&Node>) -> &str {
    match node {
        Some(node) => match &node.fields {
            Fields::Embed(source) => source.as_str(),
            _ => "no embed",
        },
        None => "none",
    }
}

/// Puts an embed into a store, which has room, and lets go what was under the key.
fn put(
    alloc: Global,
    store: &mut Store<Node>,
    key: u32,
    name: &str,
    count: &mut Copies,
) -> Result<(), NoMemory> {
    if store.len() > 100 {
        return Err(NoMemory);
    }
    store.put(Key(key), embed(alloc, name)?, count)?;
    Ok(())
}

/// Puts an old embed under each key from 0 to 95, which are three pages.
fn fill(alloc: Global, store: &mut Store<Node>, count: &mut Copies) -> Result<(), NoMemory> {
    for key in 0..96 {
        put(alloc, store, key, "old", count)?;
    }
    Ok(())
}

fn filled(alloc: Global, count: &mut Copies) -> Result<Store<Node>, NoMemory> {
    let mut store = Store::new(alloc)?;
    fill(alloc, &mut store, count)?;
    Ok(store)
}

/// Whether the embed under one key has the source, and each other one from 0 to 95 is old.
fn differs_at(store: &Store<Node>, differing: u32, name: &str) -> bool {
    for key in 0..96 {
        let wanted = if key == differing { name } else { "old" };
        if source(store.get(Key(key))) != wanted {
            return false;
        }
    }
    true
}

#[test]
fn a_fork_and_the_store_are_apart(rt: HostRuntime) -> Result<(), Fail> {
    let mut count = Copies::new();
    let mut store = filled(rt.alloc(), &mut count)?;
    let mut fork = store.fork(&mut count)?;
    put(rt.alloc(), &mut fork, 33, "new", &mut count)?;
    store.take(Key(64), &mut count)?;
    assert!(rt; differs_at(&fork, 33, "new") && differs_at(&store, 64, "none"));
    assert_eq!(rt; (fork.len(), store.len()), (96, 95));
    Ok(())
}

/// An edit that gives an embed another source.
#[derive(Drop)]
struct Renamed(Txt);

impl Edit<Node> for Renamed {
    ghost use Rattle.lx_node.specs.declared.fields.Fields.TheVariants.{Embed};

    ghost fits = { λ _ _. Unit {0} };

    ghost edited = { λ edit node. record node { fields = Embed edit.0 } };

    fn edit(self, node: &mut Node) -> Result<(), NoMemory> {
        node.fields = Fields::Embed(self.0);
        Ok(())
    }
}

/// Whether there is an embed under a key, to which this gives another source.
fn rename(
    alloc: Global,
    store: &mut Store<Node>,
    key: u32,
    name: &str,
    count: &mut Copies,
) -> Result<bool, NoMemory> {
    let name = Txt::new(alloc, name)?;
    store.change(Key(key), Renamed(name), count)
}

/// An item that a fork shares is edited, then the same one, which is shared no more, and one that isn't there. The
/// latter two copy nothing, and the fork stays as it was.
#[test]
fn edits_are_made_in_place(rt: HostRuntime) -> Result<(), Fail> {
    let alloc = rt.alloc();
    let mut count = Copies::new();
    let mut store = filled(alloc, &mut count)?;
    let fork = store.fork(&mut count)?;
    assert!(rt; rename(alloc, &mut store, 33, "new", &mut count)?);
    let copied = count.total();
    assert!(rt; rename(alloc, &mut store, 33, "newer", &mut count)?);
    assert!(rt; !rename(alloc, &mut store, 96, "new", &mut count)?);
    assert_eq!(rt; count.total(), copied);
    assert!(rt; differs_at(&store, 33, "newer") && differs_at(&fork, 33, "old"));
    Ok(())
}
