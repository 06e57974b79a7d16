//! What an edit changes in one node, in its place, and what it changes in the links of several.

ghost use Rattle.lx_node.specs.Limits.{last_u32};
ghost use Rattle.std.specs.Prelude.{◌≡◌, ◌==◌, ◌+◌, ◌<◌, ◌^◌, IfOk, OnOk, true, Some};
ghost use Rattle.std.specs.FinMap as map;
ghost use Rattle.lx_joints.specs.Changes.{changed, on_links, Fits, Differs, unlinked, linked_in};
ghost use Rattle.lx_links.specs.Changes.{links_of, with_links, with_content};
ghost use Rattle.lx_node.specs.declared.node.Node.{Node};

use lx_joints as joints;
use lx_joints::{Change, Gap, Keeper};
use lx_node::{Fields, Key, NoMemory, Node};
use lx_store::{Copies, Edit, Store};

/// Fields in the place of a node's.
#[derive(Drop)]
pub struct Content(Fields);

impl Edit<Node> for Content {
    ghost fits = { λ content node. Unit {0} };

    ghost edited = { λ content node. with_content content.0 true node };

    fn edit(self, node: &mut Node) -> Result<(), NoMemory> {
        node.fields = self.0;
        Ok(())
    }
}

/// A change of a node's links.
#[derive(Drop)]
pub struct Relinking(Change);

impl Edit<Node> for Relinking {
    ghost fits = { λ it node. Fits it.0 (links_of node) };

    ghost edited = { λ it node. with_links (changed it.0 true (links_of node)) node };

    fn edit(self, node: &mut Node) -> Result<(), NoMemory> {
        let mut links = joints::Links {
            parent: number_of(node.parent),
            prev: number_of(node.prev),
            next: number_of(node.next),
            first: number_of(node.first),
            last: number_of(node.last),
            size: node.size,
        };
        links.change(self.0);
        node.parent = key_of(links.parent);
        node.prev = key_of(links.prev);
        node.next = key_of(links.next);
        node.first = key_of(links.first);
        node.last = key_of(links.last);
        node.size = links.size;
        Ok(())
    }
}

/// The number of a key, where there is one.
pub fn number_of(key: Option<Key>) -> Option<u32>
    ensures { result ≡ key }
{
    match key {
        Some(key) => Some(key.number()),
        None => None,
    }
}

/// The key of a number, where there is one.
fn key_of(number: Option<u32>) -> Option<Key>
    ensures { result ≡ number }
{
    match number {
        Some(number) => Some(Key(number)),
        None => None,
    }
}

/// A store of nodes, as a table whose entries have links.
pub struct Nodes;

impl Keeper for Nodes {
    ghost use Rattle.std.specs.Prelude.{refl};
    ghost use Rattle.std.specs.FinMap.{get};
    ghost use Rattle.lx_links.specs.Changes.{links_of, with_links};

    type Table = Store<Node>;

    type Entry = Node;

    type Error = NoMemory;

    ghost at = { get };

    ghost room = { λ store. 0 };

    ghost links = { links_of };

    ghost relinked = { with_links };

    fn change(table: &mut Store<Node>, name: u32, change: Change) -> Result<(), NoMemory> {
        let mut copies = Copies::new();
        table.change(Key(name), Relinking(change), &mut copies)?;
        Ok(())
    }

    ghost given = { λ l n. refl };

    ghost again = { λ l m n. refl };

    ghost own = { λ n. refl };
}

/// Takes the node of a key out of the store, where there is one.
pub fn take_node(store: &mut Store<Node>, key: Key) -> Result<Option<Node>, NoMemory>
    ensures taken { IfOk result (λ taken. taken ≡ map.get store.old key) }
    ensures gone { OnOk result (store.new ≡ map.remove store.old key) }
{
    let mut copies = Copies::new();
    store.take(key, &mut copies)
}

/// Puts a node into the store.
pub fn put_node(store: &mut Store<Node>, key: Key, node: Node) -> Result<(), NoMemory>
    requires { map.len store.old < last_u32 }
    ensures { OnOk result (store.new ≡ map.insert store.old key node) }
{
    let mut copies = Copies::new();
    let _ = store.put(key, node, &mut copies)?;
    Ok(())
}

/// Gives the node of a key these fields, where there is such a node.
pub fn set_fields(store: &mut Store<Node>, key: Key, fields: Fields) -> Result<(), NoMemory>
    ensures { OnOk result (Differs (λ q. with_content fields (q == key)) (map.get store.old) (map.get store.new)) }
{
    let mut copies = Copies::new();
    store.change(key, Content(fields), &mut copies)?;
    Ok(())
}

/// Takes the node of a key out from below its parent and from between its neighbours.
pub fn unlink(
    store: &mut Store<Node>,
    key: Key,
    parent: Key,
    prev: Option<Key>,
    next: Option<Key>,
) -> Result<(), NoMemory>
    ensures { OnOk result (Differs (on_links links_of with_links (unlinked key parent prev next)) (map.get store.old) (map.get store.new)) }
{
    let gap = Gap {
        prev: number_of(prev),
        next: number_of(next),
    };
    joints::unlink::<Nodes>(store, key.number(), parent.number(), &gap)
}

/// Puts the node of a key below a parent, into a gap among its children.
pub fn link_in(store: &mut Store<Node>, key: Key, parent: Key, gap: &Gap) -> Result<(), NoMemory>
    requires { (n : Node) → map.get store.old parent ≡ Some n → n.size + 1 < 2 ^ 32 }
    ensures { OnOk result (Differs (on_links links_of with_links (linked_in key parent gap.now.prev gap.now.next)) (map.get store.old) (map.get store.new)) }
{
    joints::link_in::<Nodes>(store, key.number(), parent.number(), gap)
}
