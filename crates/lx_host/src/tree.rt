use crate::copying::copy_keys;
use crate::grove::Grove;
use crate::keys::{Shown, add_shown};
use crate::linked::Face;
use crate::op::Op;
use crate::page::Page;
use crate::removal::remove_tree;
use crate::room::{hosts_among, values_among};
use crate::scan::least_shown;
use crate::stock::Stock;
use crate::tag::Name;
use indexmap::IndexMap;
use lx_node::{Key, NoMemory, Txt};
use std::alloc::Global;
use std::marker::Model;

/// A host tree: host 0 with all below it, hosts that aren't placed yet, and the least id never used, with the room
/// for more beside it. No id occurs twice in it. Of each key that hosts show, a second table has how many show it.
pub struct HostTree {
    alloc: Global,
    grove: Grove,
    keys: IndexMap<u32, Shown>,
    stock: Stock,
    next_id: u32,
}

// Written out, so that who drops one calls this: how each part is dropped is proved here alone.
impl Drop for HostTree {
    fn drop(self) {
        let HostTree {
            alloc: _,
            grove,
            keys,
            stock,
            next_id: _,
        } = self;
        drop(grove);
        drop(keys);
        drop(stock);
    }
}

impl Model for HostTree {
    ghost use Rattle.std.specs.Prelude.{min};
    ghost use Rattle.std.specs.Coded.{codes};
    ghost use Rattle.lx_trees.specs.Trees.{trees_code};
    ghost use Rattle.indexmap.specs.IndexMap.{spare};
    ghost use Rattle.lx_host.specs.Room.{Held};
    ghost use Rattle.lx_host.specs.Weights.{IsKept};

    ghost Value = { Held };

    ghost coded = { Prim.hlevel (codes, trees_code) };

    ghost view = { λ t. record { tree = record { hosts = t.grove.hosts; next = t.next_id }; room = record { hosts = min t.grove.room (spare t.keys); values = t.stock } } };

    ghost invariant = { λ t. IsKept t.keys t.next_id t.grove.hosts };
}

impl HostTree {
    ghost use Rattle.std.specs.Prelude.{◌≡◌, ◌≤◌, ◌<◌, IfOk, OnOk, IsTrue};
    ghost use Rattle.lx_host.specs.Branches.{IsRooted};
    ghost use Rattle.lx_host.specs.Hosts.{new_tree, fits, effect, FitInTurn, Leads, IsNumbered};
    ghost use Rattle.lx_host.specs.Room.{HasRoom, Spends, one_for, hosts_for, values_for};
    ghost use Rattle.lx_host.specs.declared.op.Op.TheVariants.{Create, Place, Drop, Text, Attr, Break};

    /// Host 0 alone, which shows the root.
    pub fn new(alloc: Global) -> Result<HostTree, NoMemory>
        ensures { IfOk result (λ made. made.tree ≡ new_tree) }
    {
        let grove = Grove::new(alloc)?;
        let mut keys = IndexMap::new(alloc);
        keys.insert(0, Shown { hosts: 1, ids: 0 })?;
        Ok(HostTree {
            alloc,
            grove,
            keys,
            stock: Stock::new(alloc),
            next_id: 1,
        })
    }

    /// An equal host tree: with equal ids, hosts that aren't placed among them, and an equal next id. What is done to either
    /// of the two afterwards leaves the other as it was. It takes memory for each host.
    pub fn copy(&self) -> Result<HostTree, NoMemory>
        ensures { IfOk result (λ made. made.tree ≡ self.now.tree) }
    {
        Ok(HostTree {
            alloc: self.alloc,
            grove: self.grove.copy(self.alloc)?,
            keys: copy_keys(self.alloc, &self.keys)?,
            stock: Stock::new(self.alloc),
            next_id: self.next_id,
        })
    }

    /// The least id never used. Ids are given in order, and no host has one twice.
    pub fn next_id(&self) -> u32
        ensures next { result ≡ self.now.tree.next }
        ensures numbered { IsNumbered self.now.tree }
        ensures rooted { IsRooted self.now.tree.hosts }
    {
        self.grove.in_order();
        self.next_id
    }

    /// Whether a change can be made now: a host is created under the next id, while there is one left, and
    /// a host other than 0 is placed below a host that isn't below it, before a child of that one. A host other
    /// than 0 is dropped, and what a host shows is changed.
    #[tactic(auto, unfolding(crate::specs::Hosts::fits))]
    pub fn fits(&self, op: &Op) -> bool
        ensures { result ≡ fits op.now self.now.tree }
    {
        match op {
            Op::Create { id, .. } => *id == self.next_id && self.next_id < u32::MAX,
            Op::Place {
                parent,
                child,
                before,
            } => self.grove.fits_place(*parent, *child, *before),
            Op::Drop { id } => *id != 0 && self.grove.has(*id),
            Op::Text { id, .. } => self.grove.has(*id),
            Op::Attr { id, .. } => self.grove.has(*id),
            Op::Break { id, .. } => self.grove.has(*id),
        }
    }

    /// Room for these changes. Also without memory the tree is as it was.
    pub fn reserve(&mut self, ops: &[Op]) -> Result<(), NoMemory>
        ensures same { self.new.tree ≡ self.old.tree }
        ensures room { OnOk result (HasRoom ops.now self.new.room) }
    {
        let hosts = hosts_among(ops);
        let values = values_among(ops);
        self.grove.reserve(hosts)?;
        self.keys.reserve(hosts)?;
        self.stock.fill(self.alloc, values)?;
        Ok(())
    }

    /// Makes these changes in turn, in the room that was reserved for them. It takes no memory.
    pub fn apply(&mut self, ops: Vec<Op>)
        requires fit { FitInTurn self.old.tree ops.items }
        requires room { HasRoom ops.items self.old.room }
        ensures { Leads self.old.tree ops.items self.new.tree }
    {
        for op in ops {
            self.make(op);
        }
    }

    /// Makes one change.
    fn make(&mut self, op: Op)
        requires fits { IsTrue (fits op self.old.tree) }
        requires hosts { hosts_for op ≤ self.old.room.hosts }
        requires values { values_for op ≤ self.old.room.values }
        ensures made { self.new.tree ≡ effect op self.old.tree }
        ensures room { Spends (hosts_for op) (values_for op) self.old.room self.new.room }
    {
        match op {
            Op::Create {
                id,
                key,
                tag,
                attrs,
                text,
                ending,
            } => {
                let face = Face {
                    key,
                    tag,
                    attrs,
                    text,
                    ending,
                };
                self.create(id, face);
            }
            Op::Place {
                parent,
                child,
                before,
            } => self.place(parent, child, before),
            Op::Drop { id } => self.remove(id),
            Op::Text { id, text } => self.show_text(id, text),
            Op::Attr { id, name, value } => self.write(id, name, value),
            Op::Break { id, ending } => self.end_with(id, ending),
        }
    }

    /// Adds a host that isn't placed yet.
    fn create(&mut self, id: u32, face: Face)
        requires fits { IsTrue (fits (Create id face.key face.tag face.attrs face.text face.ending) self.old.tree) }
        requires room { 0 < self.old.room.hosts }
        ensures created { self.new.tree ≡ effect (Create id face.key face.tag face.attrs face.text face.ending) self.old.tree }
        ensures room { Spends 1 0 self.old.room self.new.room }
    {
        let key = face.key;
        self.grove.create(id, face);
        add_shown(&mut self.keys, key.number(), id);
        self.next_id += 1;
    }

    /// Places a host, with all below it, among the children of a parent.
    fn place(&mut self, parent: u32, child: u32, before: Option<u32>)
        requires fits { IsTrue (fits (Place parent child before) self.old.tree) }
        ensures placed { self.new.tree ≡ effect (Place parent child before) self.old.tree }
        ensures room { Spends 0 0 self.old.room self.new.room }
    {
        self.grove.place(parent, child, before);
    }

    /// Takes a host away, with all below it.
    fn remove(&mut self, id: u32)
        requires fits { IsTrue (fits (Drop id) self.old.tree) }
        ensures dropped { self.new.tree ≡ effect (Drop id) self.old.tree }
        ensures room { Spends 0 0 self.old.room self.new.room }
    {
        remove_tree(&mut self.grove, &mut self.keys, id);
    }

    /// Gives a host this text.
    fn show_text(&mut self, id: u32, text: Txt)
        ensures changed { self.new.tree ≡ effect (Text id text) self.old.tree }
        ensures room { Spends 0 0 self.old.room self.new.room }
    {
        self.grove.show_text(id, text);
    }

    /// Gives an attribute of a host this value, or takes it away.
    fn write(&mut self, id: u32, name: Name, value: Option<Txt>)
        requires room { one_for value ≤ self.old.room.values }
        ensures changed { self.new.tree ≡ effect (Attr id name value) self.old.tree }
        ensures room { Spends 0 (one_for value) self.old.room self.new.room }
    {
        self.grove.write(&mut self.stock, id, name, value);
    }

    /// Has a line break end a host, or none.
    fn end_with(&mut self, id: u32, ending: bool)
        ensures changed { self.new.tree ≡ effect (Break id ending) self.old.tree }
        ensures room { Spends 0 0 self.old.room self.new.room }
    {
        self.grove.end_with(id, ending);
    }

    ghost use Rattle.lx_host.specs.Html.{first_tree};
    ghost use Rattle.lx_host.specs.Lookups.{first_child, host_of};

    /// The id of the first child of the host of that id.
    pub fn first_child(&self, id: u32) -> Option<u32>
        ensures { result ≡ first_child id self.now.tree.hosts }
    {
        self.grove.first(id)
    }

    ghost use Rattle.lx_host.specs.Hosts.{id_of};
    ghost use Rattle.lx_trees.specs.Lookups.{parent_of};

    /// The id of the host below which the one of that id is. Host 0 and hosts that aren't placed are
    /// below none.
    pub fn parent(&self, id: u32) -> Option<u32>
        ensures { result ≡ parent_of id_of self.now.tree.hosts id }
    {
        self.grove.parent(id)
    }

    /// The least id of the hosts that show the key, among host 0 and all below it. Where more than one host shows
    /// it, each host is looked at.
    pub fn host_of(&self, key: Key) -> Option<u32>
        ensures { result ≡ host_of key (first_tree self.now.tree.hosts) }
    {
        let _next = self.next_id();
        self.grove.in_order();
        let Some(shown) = self.keys.get(&key.number()) else {
            return None;
        };
        if shown.hosts > 1 {
            return least_shown(&self.grove, key);
        }
        let id = shown.ids as u32;
        if self.grove.is_within(0, id) {
            Some(id)
        } else {
            None
        }
    }

    ghost use Rattle.lx_host.specs.Hosts.{shape_of};
    ghost use Rattle.lx_host.specs.Html.{html_of};

    /// The HTML of host 0 with all below it, the first tree. Hosts that aren't placed have no part in it. It takes
    /// memory for its bytes.
    pub fn print_html(&self) -> Result<Txt, NoMemory>
        ensures html { IfOk result (λ html. html ≡ html_of (first_tree (shape_of self.now.tree.hosts))) }
        ensures rooted { IsRooted self.now.tree.hosts }
    {
        self.grove.in_order();
        let mut page = Page::new(self.alloc);
        self.grove.print(0, &mut page)?;
        Ok(page.into_text())
    }
}
