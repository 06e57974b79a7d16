//! The table of hosts by their ids, and what an edit changes in one of them, in its place. The room stays.

ghost use Rattle.std.specs.Prelude.{◌≡◌, nat_eq, true};
ghost use Rattle.indexmap.specs.IndexMap.{spare, get};
ghost use Rattle.lx_joints.specs.Changes.{Differs};
ghost use Rattle.lx_host.specs.Links.{changed};

use crate::op::{Attrs, copy_text};
use crate::stock::Stock;
use crate::tag::{Name, Tag};
use indexmap::IndexMap;
use lx_joints as joints;
use lx_joints::{Keeper, Links};
use lx_node::{Key, NoMemory, Txt};
use std::alloc::Global;
use std::convert::Infallible;

/// What a host shows, beside its children: a node's key, an element with its attributes, a text or none, and whether
/// a line break ends it.
#[derive(Drop)]
pub struct Face {
    pub key: Key,
    pub tag: Tag,
    pub attrs: Attrs,
    pub text: Option<Txt>,
    pub ending: bool,
}

/// A host with its links: the host below which it is, its neighbours there, the ends of its own children, and
/// how many they are.
#[derive(Drop)]
pub struct Linked {
    pub key: Key,
    pub tag: Tag,
    pub attrs: Attrs,
    pub text: Option<Txt>,
    pub ending: bool,
    pub parent: Option<u32>,
    pub prev: Option<u32>,
    pub next: Option<u32>,
    pub first: Option<u32>,
    pub last: Option<u32>,
    pub size: u32,
}

impl Linked {
    ghost use Rattle.std.specs.Prelude.{IfOk};

    /// An equal host, with equal links. It takes memory for the text and the attributes.
    pub fn copy(&self, alloc: Global) -> Result<Linked, NoMemory>
        ensures { IfOk result (λ made. made ≡ self.now) }
    {
        Ok(Linked {
            key: self.key,
            tag: self.tag,
            attrs: self.attrs.copy(alloc)?,
            text: copy_text(alloc, &self.text)?,
            ending: self.ending,
            parent: self.parent,
            prev: self.prev,
            next: self.next,
            first: self.first,
            last: self.last,
            size: self.size,
        })
    }
}

impl Linked {
    ghost use Rattle.lx_joints.specs.Changes.{changed as relinked, Fits};
    ghost use Rattle.lx_host.specs.Links.{links_of, with_links};

    /// Makes a change of the host's links.
    fn relink(&mut self, change: joints::Change)
        requires { Fits change (links_of self.old) }
        ensures { self.new ≡ with_links (relinked change true (links_of self.old)) self.old }
    {
        let mut links = Links {
            parent: self.parent,
            prev: self.prev,
            next: self.next,
            first: self.first,
            last: self.last,
            size: self.size,
        };
        links.change(change);
        self.parent = links.parent;
        self.prev = links.prev;
        self.next = links.next;
        self.first = links.first;
        self.last = links.last;
        self.size = links.size;
    }
}

/// The table of hosts, as one whose entries have links. It never wants memory for a change of them.
pub struct Hosts;

impl Keeper for Hosts {
    ghost use Rattle.std.specs.Prelude.{nat_eq, refl};
    ghost use Rattle.indexmap.specs.IndexMap.{get, spare};
    ghost use Rattle.lx_host.specs.Links.{links_of, with_links};

    type Table = IndexMap<u32, Linked>;

    type Entry = Linked;

    type Error = Infallible;

    ghost at = { get nat_eq };

    ghost room = { spare };

    ghost links = { links_of };

    ghost relinked = { with_links };

    fn change(
        table: &mut IndexMap<u32, Linked>,
        name: u32,
        change: joints::Change,
    ) -> Result<(), Infallible> {
        if let Some(host) = table.get_mut(&name) {
            host.relink(change);
        }
        Ok(())
    }

    ghost given = { λ l e. refl };

    ghost again = { λ l m e. refl };

    ghost own = { λ e. refl };
}

/// What of what one host shows an edit changes.
#[derive(Drop)]
pub enum Change {
    /// It shows this text.
    Text(Txt),
    /// A line break ends it, or none does.
    Break(bool),
}

/// Changes a host.
fn apply(change: Change, host: &mut Linked)
    ensures { host.new ≡ changed change true host.old }
{
    match change {
        Change::Text(text) => host.text = Some(text),
        Change::Break(ending) => host.ending = ending,
    }
}

/// Changes what the host of an id shows in place, where there is one. The room stays.
pub fn change_host(table: &mut IndexMap<u32, Linked>, id: u32, change: Change)
    ensures differs { Differs (λ q. changed change (q == id)) (get nat_eq table.old) (get nat_eq table.new) }
    ensures room { spare table.new ≡ spare table.old }
{
    if let Some(host) = table.get_mut(&id) {
        apply(change, host);
    }
}

ghost use Rattle.std.specs.Prelude.{◌≤◌, ◌+◌, ◌==◌};
ghost use Rattle.lx_host.specs.Links.{attributed};
ghost use Rattle.lx_host.specs.Room.{one_for};

/// Gives an attribute of the host of an id this value, or takes it away, where there is such a host. The room
/// stays, and a value takes a vector of the stock at most.
pub fn write_attribute(
    table: &mut IndexMap<u32, Linked>,
    stock: &mut Stock,
    id: u32,
    name: Name,
    value: Option<Txt>,
)
    requires { one_for value ≤ stock.old }
    ensures differs { Differs (λ q. attributed name value (q == id)) (get nat_eq table.old) (get nat_eq table.new) }
    ensures room { spare table.new ≡ spare table.old }
    ensures left { stock.old ≤ stock.new + one_for value }
{
    if let Some(host) = table.get_mut(&id) {
        host.attrs.write_within(name, value, stock);
    }
}
