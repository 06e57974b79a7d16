//! The hosts, by id. It knows no operation, no next id and no table of keys.

use crate::copying::copy_hosts;
use crate::linked::{Change, Face, Hosts, Linked, change_host, write_attribute};
use crate::op::Attrs;
use crate::page::Page;
use crate::stock::Stock;
use crate::tag::{Name, Tag};
use indexmap::IndexMap;
use lx_joints::{Gap, link_in, unlink};
use lx_node::{Key, NoMemory, Txt};
use std::alloc::Global;
use std::marker::Model;

/// Host 0 with all below it, and the hosts that aren't placed yet: a table of them by their ids, each with its
/// parent, its neighbours and its ends. It is seen as the trees that the table stands for, the ids in the table's
/// own order, and how many more hosts can be added without memory.
#[derive(Drop)]
pub struct Grove {
    table: IndexMap<u32, Linked>,
    ghost stands: { Standing table } by { Standing-prop table },
}

ghost use Rattle.lx_host.specs.Stands.{Standing, Standing-prop};

impl Model for Grove {
    ghost use Rattle.std.specs.Coded.{codes};
    ghost use Rattle.lx_trees.specs.Trees.{trees_code};
    ghost use Rattle.lx_host.specs.Stands.{GroveView};

    ghost Value = { GroveView };

    ghost coded = { Prim.hlevel (codes, trees_code) };

    ghost use Rattle.lx_host.specs.Stands.{hosts_in};
    ghost use Rattle.indexmap.specs.IndexMap.{spare, keys};

    ghost view = { λ g. record { hosts = hosts_in g.table g.stands; room = spare g.table; ids = keys g.table } };
}

impl Grove {
    ghost use Rattle.std.specs.Prelude.{◌≡◌, ℕ, IfOk, option_map, length, slice_get};
    ghost use Rattle.std.specs.Option.{option_copied};
    ghost use Rattle.lx_trees.specs.Siblings.{is_among, is_named};
    ghost use Rattle.lx_host.specs.Hosts.{id_of, one_host, root_face, has};
    ghost use Rattle.lx_host.specs.Stands.{linked_of};
    ghost use Rattle.lx_host.specs.Weights.{key_at};
    ghost use Rattle.lx_trees.specs.Records.{record_at};
    ghost use Rattle.lx_trees.specs.Lookups.{IsOrdered};
    ghost use Rattle.lx_trees.specs.Lookups as lookups;

    /// Host 0 alone, which shows the root.
    pub fn new(alloc: Global) -> Result<Grove, NoMemory>
        ensures { IfOk result (λ made. made.hosts ≡ one_host 0 root_face) }
    {
        let root = Linked {
            key: Key::root(),
            tag: Tag::Div,
            attrs: Attrs::of(Vec::new(alloc)),
            text: None,
            ending: false,
            parent: None,
            prev: None,
            next: None,
            first: None,
            last: None,
            size: 0,
        };
        let mut table = IndexMap::new(alloc);
        table.insert(0, root)?;
        Ok(Grove { table })
    }

    /// A grove of equal hosts, with equal ids.
    pub fn copy(&self, alloc: Global) -> Result<Grove, NoMemory>
        ensures { IfOk result (λ made. made.hosts ≡ self.now.hosts) }
    {
        let table = copy_hosts(alloc, &self.table)?;
        Ok(Grove { table })
    }

    /// Each grove's hosts are in order, and its ids are theirs.
    pub fn in_order(&self)
        ensures ordered { IsOrdered id_of self.now.hosts }
        ensures ids { (q : ℕ) → is_among q self.now.ids ≡ has q self.now.hosts }
    {
        let _table = &self.table;
    }

    /// How many hosts there are.
    pub fn len(&self) -> usize
        ensures { result ≡ length self.now.ids }
    {
        self.table.len()
    }

    /// The id at a place of the table, where there is one.
    pub fn id_at(&self, place: usize) -> Option<u32>
        ensures { result ≡ slice_get self.now.ids place }
    {
        match self.table.get_index(place) {
            Some((id, _)) => Some(*id),
            None => None,
        }
    }

    /// The host of an id, where there is one.
    fn host(&self, id: u32) -> Option<&Linked>
        ensures host { option_copied result ≡ option_map linked_of (record_at id_of self.now.hosts id) }
        ensures ordered { IsOrdered id_of self.now.hosts }
    {
        self.table.get(&id)
    }

    /// Whether there is a host of that id.
    pub fn has(&self, id: u32) -> bool
        ensures has { result ≡ has id self.now.hosts }
        ensures ordered { IsOrdered id_of self.now.hosts }
    {
        self.host(id).is_some()
    }

    /// The host below which it is.
    pub fn parent(&self, id: u32) -> Option<u32>
        ensures parent { result ≡ lookups.parent_of id_of self.now.hosts id }
        ensures ordered { IsOrdered id_of self.now.hosts }
    {
        match self.host(id) {
            Some(host) => host.parent,
            None => None,
        }
    }

    /// The first of the host's children.
    pub fn first(&self, id: u32) -> Option<u32>
        ensures first { result ≡ lookups.first_child id_of self.now.hosts id }
        ensures ordered { IsOrdered id_of self.now.hosts }
    {
        match self.host(id) {
            Some(host) => host.first,
            None => None,
        }
    }

    /// The last of the host's children.
    fn last(&self, id: u32) -> Option<u32>
        ensures last { result ≡ lookups.last_child id_of self.now.hosts id }
        ensures ordered { IsOrdered id_of self.now.hosts }
    {
        match self.host(id) {
            Some(host) => host.last,
            None => None,
        }
    }

    /// The host right before this one among the children of its parent.
    fn previous(&self, id: u32) -> Option<u32>
        ensures previous { result ≡ lookups.previous_of id_of self.now.hosts id }
        ensures ordered { IsOrdered id_of self.now.hosts }
    {
        match self.host(id) {
            Some(host) => host.prev,
            None => None,
        }
    }

    /// The host right after this one among the children of its parent.
    pub fn next(&self, id: u32) -> Option<u32>
        ensures next { result ≡ lookups.next_of id_of self.now.hosts id }
        ensures ordered { IsOrdered id_of self.now.hosts }
    {
        match self.host(id) {
            Some(host) => host.next,
            None => None,
        }
    }

    /// The key that a host shows.
    pub fn key(&self, id: u32) -> Option<Key>
        ensures key { result ≡ key_at self.now.hosts id }
        ensures ordered { IsOrdered id_of self.now.hosts }
    {
        match self.host(id) {
            Some(host) => Some(host.key),
            None => None,
        }
    }

    /// Whether the host of that id is there and shows the key.
    pub fn shows(&self, id: u32, key: Key) -> bool
        ensures { result ≡ is_named (key_at self.now.hosts id) key }
    {
        match self.key(id) {
            Some(own) => key == own,
            None => false,
        }
    }

    ghost use Rattle.std.specs.Prelude.{◌==◌, ◌&&◌, not, [], true};
    ghost use Rattle.lx_host.specs.Hosts.{alone, children_of, fits_before};

    /// Whether a host is in the tree of the outer one: that one itself, or below it. It walks up.
    pub fn is_within(&self, outer: u32, id: u32) -> bool
        ensures within { result ≡ lookups.is_within id_of self.now.hosts outer id }
        ensures ordered { IsOrdered id_of self.now.hosts }
    {
        let mut at = id;
        while at != outer {
            match self.parent(at) {
                Some(parent) => at = parent,
                None => return false,
            }
        }
        self.has(outer)
    }

    /// A host without children in the tree of this one.
    pub fn leaf_below(&self, id: u32) -> u32
        requires there { has id self.now.hosts ≡ true }
        ensures leaf { lookups.children_of id_of self.now.hosts result ≡ [] }
        ensures within { lookups.is_within id_of self.now.hosts id result ≡ true }
        ensures ordered { IsOrdered id_of self.now.hosts }
    {
        let mut at = id;
        while let Some(child) = self.first(at) {
            at = child;
        }
        at
    }

    /// Whether the host of that id is there and is below that one.
    fn is_child(&self, id: u32, parent: u32) -> bool
        ensures child { result ≡ is_named (lookups.parent_of id_of self.now.hosts id) parent }
        ensures ordered { IsOrdered id_of self.now.hosts }
    {
        match self.parent(id) {
            Some(own) => parent == own,
            None => false,
        }
    }

    /// Whether a child may be put before that host, among the children of the parent.
    fn fits_before(&self, parent: u32, child: u32, before: Option<u32>) -> bool
        ensures { result ≡ fits_before child before (children_of parent self.now.hosts) }
    {
        match before {
            None => true,
            Some(before) => self.is_child(before, parent) && before != child,
        }
    }

    /// Whether a host can be placed there now.
    pub fn fits_place(&self, parent: u32, child: u32, before: Option<u32>) -> bool
        ensures { result ≡ (not (child == 0) && has child self.now.hosts && has parent self.now.hosts && not (has parent (alone child self.now.hosts)) && fits_before child before (children_of parent self.now.hosts)) }
    {
        child != 0
            && self.has(child)
            && self.has(parent)
            && !self.is_within(child, parent)
            && self.fits_before(parent, child, before)
    }

    ghost use Rattle.std.specs.Prelude.{◌≢◌, ◌<◌, ◌≤◌, ◌+◌, None, OnOk};
    ghost use Rattle.lx_node.specs.Limits.{last_u32};
    ghost use Rattle.lx_trees.specs.Siblings.{is_place, place_behind};
    ghost use Rattle.lx_trees.specs.Trees.{joined};
    ghost use Rattle.lx_host.specs.Hosts.{count, put_below, without};
    ghost use Rattle.lx_host.specs.Stands.{FitsPlace};
    ghost use Rattle.lx_trees.specs.Edits.{take_out, put_in, CanPut};

    /// Room for so many more hosts. Nothing else changes.
    pub fn reserve(&mut self, more: usize) -> Result<(), NoMemory>
        ensures same { self.new.hosts ≡ self.old.hosts }
        ensures room { OnOk result (more ≤ self.new.room) }
        ensures kept { self.old.room ≤ self.new.room }
    {
        self.table.reserve(more)?;
        Ok(())
    }

    /// Adds a host of a greater id than all others, which isn't placed yet. It takes up one place.
    pub fn create(&mut self, id: u32, face: Face)
        requires above { (q : ℕ) → id < q + 1 → count q self.old.hosts ≡ 0 }
        requires below { id < last_u32 }
        requires room { 0 < self.old.room }
        ensures created { self.new.hosts ≡ joined self.old.hosts (one_host id (record { key = face.key; tag = face.tag; attrs = face.attrs; text = face.text; ending = face.ending })) }
        ensures room { self.old.room ≤ self.new.room + 1 }
        ensures ordered { IsOrdered id_of self.old.hosts }
    {
        let host = Linked {
            key: face.key,
            tag: face.tag,
            attrs: face.attrs,
            text: face.text,
            ending: face.ending,
            parent: None,
            prev: None,
            next: None,
            first: None,
            last: None,
            size: 0,
        };
        let _ = self.table.insert(id, host);
    }

    /// Takes a host, with all below it, out from below its parent, where it has one. The room stays.
    fn detach(&mut self, id: u32)
        ensures taken { self.new.hosts ≡ take_out id_of id self.old.hosts }
        ensures room { self.new.room ≡ self.old.room }
        ensures ordered { IsOrdered id_of self.old.hosts }
    {
        let Some(host) = self.table.get(&id) else {
            return;
        };
        let Some(parent) = host.parent else {
            return;
        };
        let gap = Gap {
            prev: host.prev,
            next: host.next,
        };
        let Ok(()) = unlink::<Hosts>(&mut self.table, id, parent, &gap);
    }

    /// The gap before that child of the parent, or at the end.
    fn gap(&self, parent: u32, before: Option<u32>) -> Gap
        requires { is_place before (lookups.children_of id_of self.now.hosts parent) ≡ true }
        ensures prev { result.prev ≡ place_behind before (lookups.children_of id_of self.now.hosts parent) }
        ensures next { result.next ≡ before }
    {
        match before {
            Some(id) => Gap {
                prev: self.previous(id),
                next: before,
            },
            None => Gap {
                prev: self.last(parent),
                next: None,
            },
        }
    }

    /// Puts a host that is below nothing among the children of a parent. The room stays.
    fn put(&mut self, parent: u32, before: Option<u32>, id: u32)
        requires can { CanPut id_of parent id self.old.hosts }
        requires place { is_place before (lookups.children_of id_of self.old.hosts parent) ≡ true }
        ensures put { self.new.hosts ≡ put_in id_of parent before id self.old.hosts }
        ensures room { self.new.room ≡ self.old.room }
    {
        let gap = self.gap(parent, before);
        let Ok(()) = link_in::<Hosts>(&mut self.table, id, parent, &gap);
    }

    /// Places a host, with all below it, among the children of a parent. The room stays.
    pub fn place(&mut self, parent: u32, child: u32, before: Option<u32>)
        requires { FitsPlace parent child before self.old.hosts }
        ensures placed { self.new.hosts ≡ put_below parent before (alone child self.old.hosts) (without child self.old.hosts) }
        ensures room { self.new.room ≡ self.old.room }
        ensures ordered { IsOrdered id_of self.old.hosts }
    {
        self.detach(child);
        self.put(parent, before, child);
    }

    /// Takes a host away that has no child and is below nothing. The room stays.
    fn take_lone(&mut self, id: u32)
        requires other { id ≢ 0 }
        requires top { lookups.parent_of id_of self.old.hosts id ≡ None }
        requires leaf { lookups.children_of id_of self.old.hosts id ≡ [] }
        ensures taken { self.new.hosts ≡ without id self.old.hosts }
        ensures room { self.old.room ≤ self.new.room }
    {
        self.table.swap_remove(&id);
    }

    /// Takes a host away that has no child. The room stays.
    pub fn take_leaf(&mut self, id: u32)
        requires other { id ≢ 0 }
        requires leaf { lookups.children_of id_of self.old.hosts id ≡ [] }
        ensures taken { self.new.hosts ≡ without id self.old.hosts }
        ensures room { self.old.room ≤ self.new.room }
    {
        self.detach(id);
        self.take_lone(id);
    }

    ghost use Rattle.lx_host.specs.Hosts.{changed, with_text, with_value, with_ending};
    ghost use Rattle.lx_host.specs.Room.{one_for};

    /// Gives a host this text. The room stays.
    pub fn show_text(&mut self, id: u32, text: Txt)
        ensures changed { self.new.hosts ≡ changed id (with_text text) self.old.hosts }
        ensures room { self.new.room ≡ self.old.room }
    {
        change_host(&mut self.table, id, Change::Text(text));
    }

    /// Has a line break end a host, or none. The room stays.
    pub fn end_with(&mut self, id: u32, ending: bool)
        ensures changed { self.new.hosts ≡ changed id (with_ending ending) self.old.hosts }
        ensures room { self.new.room ≡ self.old.room }
    {
        change_host(&mut self.table, id, Change::Break(ending));
    }

    /// Gives an attribute of a host this value, or takes it away. The room stays, and a value takes a vector of the
    /// stock at most.
    pub fn write(&mut self, stock: &mut Stock, id: u32, name: Name, value: Option<Txt>)
        requires { one_for value ≤ stock.old }
        ensures changed { self.new.hosts ≡ changed id (with_value name value) self.old.hosts }
        ensures room { self.new.room ≡ self.old.room }
        ensures left { stock.old ≤ stock.new + one_for value }
    {
        write_attribute(&mut self.table, stock, id, name, value);
    }

    ghost use Rattle.std.specs.Prelude.{◌++◌};
    ghost use Rattle.lx_host.specs.Below.{below_of};
    ghost use Rattle.lx_host.specs.Hosts.{shape_of};
    ghost use Rattle.lx_host.specs.Html.{html_of};

    /// Writes the HTML of a host and of all below it.
    #[cycle(print)]
    pub fn print(&self, id: u32, page: &mut Page) -> Result<(), NoMemory>
        requires there { has id self.now.hosts ≡ true }
        ensures { OnOk result (page.new ≡ page.old ++ html_of (shape_of (alone id self.now.hosts))) }
    {
        let Some(host) = self.host(id) else {
            return Ok(());
        };
        page.open(host.tag, host.attrs.items())?;
        if host.tag.is_void() {
            return Ok(());
        }
        match &host.text {
            Some(text) => page.push_text(text.as_str())?,
            None => self.print_children(id, page)?,
        }
        page.push_ending(host.ending)?;
        page.close(host.tag)
    }

    /// Writes the HTML of all below a host.
    #[cycle(print)]
    fn print_children(&self, id: u32, page: &mut Page) -> Result<(), NoMemory>
        requires there { has id self.now.hosts ≡ true }
        ensures { OnOk result (page.new ≡ page.old ++ html_of (shape_of (below_of self.now.hosts id))) }
    {
        let mut at = self.first(id);
        while let Some(child) = at {
            self.print(child, page)?;
            at = self.next(child);
        }
        Ok(())
    }
}
