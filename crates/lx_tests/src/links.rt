//! Links beside a fork of theirs, and links that have failed.

use lx_links::Links;
use lx_node::{Fault, Fields, Key, Kind, NoMemory};
use std::alloc::Global;
use std::test::Fail;

/// A new node, which stands nowhere, under the key 1. It gives up where that can't be.
pub(crate) fn insert(links: &mut Links, kind: Kind, fields: Fields) -> Result<(), NoMemory> {
    if kind == Kind::Root || !fields.is_of_kind(kind) || links.len() > 100 || links.has(Key(1)) {
        return Err(NoMemory);
    }
    links.insert_new(Key(1), kind, fields)
}

/// Links that have a paragraph, 1, below the root.
fn attached(alloc: Global) -> Result<Links, Fault> {
    let mut links = Links::new(alloc)?;
    insert(&mut links, Kind::Paragraph, Fields::plain_element(alloc))?;
    links.place(Key::root(), None, Key(1))?;
    Ok(links)
}

#[test]
fn a_fork_stays_as_it_was(rt: HostRuntime) -> Result<(), Fail> {
    let mut links = attached(rt.alloc())?;
    let fork = links.fork()?;
    links.detach(Key(1))?;
    assert!(rt; !links.is_attached(Key(1)) && fork.is_attached(Key(1)));
    links.drop_detached()?;
    assert_eq!(rt; (links.len(), fork.len()), (1, 2));
    Ok(())
}

#[test]
fn failed_links_have_no_nodes(rt: HostRuntime) -> Result<(), Fail> {
    let mut links = attached(rt.alloc())?;
    assert!(rt; !links.has_failed());
    links.fail();
    assert!(rt; links.has_failed() && links.fork().is_err());
    assert_eq!(rt; links.len(), 0);
    Ok(())
}
