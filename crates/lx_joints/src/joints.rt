//! An entry out from between its neighbours, or in between others. It touches a parent, two neighbours and the entry.

ghost use Rattle.std.specs.Prelude.{◌≡◌, ◌==◌, ◌+◌, ◌<◌, ◌^◌, ℕ, Option, None, Some, OnOk};
ghost use Rattle.lx_trees.specs.Siblings.{is_named};
ghost use Rattle.lx_joints.specs.Changes.{changed, on_links, Fits, Differs, unlinked, linked_in};

use crate::links::Change;

/// How a table keeps entries with links, by their names. It is a type of its own, since neither the table nor its
/// entries need to be known here.
pub trait Keeper {
    ghost use Rattle.lx_joints.specs.declared.links.Links.{Links};

    type Table;

    type Entry;

    type Error;

    /// The entry of each name, where there is one.
    ghost at: { Self.Table → ℕ → Option Self.Entry };

    /// How many entries more it takes without memory, where it tells.
    ghost room: { Self.Table → ℕ };

    /// The links of an entry.
    ghost links: { Self.Entry → Links };

    /// An entry with these links.
    ghost relinked: { Links → Self.Entry → Self.Entry };

    /// Changes the links of the entry of a name where it is, where there is one. The room stays.
    fn change(table: &mut Self::Table, name: u32, change: Change) -> Result<(), Self::Error>
        requires { (e : Self.Entry) → at table.old name ≡ Some e → Fits change (links e) }
        ensures differs { OnOk result (Differs (on_links links relinked (λ q. changed change (q == name))) (at table.old) (at table.new)) }
        ensures room { room table.new ≡ room table.old };

    ghost given: { (l : Links) (e : Self.Entry) → links (relinked l e) ≡ l };

    ghost again: { (l m : Links) (e : Self.Entry) → relinked m (relinked l e) ≡ relinked m e };

    ghost own: { (e : Self.Entry) → relinked (links e) e ≡ e };
}

/// A place among children: between these two, where they are.
#[derive(Drop)]
pub struct Gap {
    pub prev: Option<u32>,
    pub next: Option<u32>,
}

/// Changes the links of the entry of a name, where one is given and there is such an entry.
fn change_at<K: Keeper>(
    table: &mut K::Table,
    at: Option<u32>,
    change: Change,
) -> Result<(), K::Error>
    requires { (name : ℕ) (e : K.Entry) → at ≡ Some name → K.at table.old name ≡ Some e → Fits change (K.links e) }
    ensures differs { OnOk result (Differs (on_links K.links K.relinked (λ q. changed change (is_named at q))) (K.at table.old) (K.at table.new)) }
    ensures room { K.room table.new ≡ K.room table.old }
{
    match at {
        Some(name) => K::change(table, name, change),
        None => Ok(()),
    }
}

/// Takes the entry out from below its parent and from between its neighbours.
pub fn unlink<K: Keeper>(
    table: &mut K::Table,
    name: u32,
    parent: u32,
    gap: &Gap,
) -> Result<(), K::Error>
    ensures differs { OnOk result (Differs (on_links K.links K.relinked (unlinked name parent gap.now.prev gap.now.next)) (K.at table.old) (K.at table.new)) }
    ensures room { K.room table.new ≡ K.room table.old }
{
    let left = Change::Left {
        prev: gap.prev,
        next: gap.next,
    };
    let free = Change::Place {
        parent: None,
        prev: None,
        next: None,
    };
    K::change(table, parent, left)?;
    change_at::<K>(table, gap.prev, Change::Next(gap.next))?;
    change_at::<K>(table, gap.next, Change::Prev(gap.prev))?;
    K::change(table, name, free)
}

/// Puts the entry below a parent, into a gap among its children.
pub fn link_in<K: Keeper>(
    table: &mut K::Table,
    name: u32,
    parent: u32,
    gap: &Gap,
) -> Result<(), K::Error>
    requires { (e : K.Entry) → K.at table.old parent ≡ Some e → (K.links e).size + 1 < 2 ^ 32 }
    ensures differs { OnOk result (Differs (on_links K.links K.relinked (linked_in name parent gap.now.prev gap.now.next)) (K.at table.old) (K.at table.new)) }
    ensures room { K.room table.new ≡ K.room table.old }
{
    let joined = Change::Joined {
        name,
        behind: gap.prev,
        before: gap.next,
    };
    let place = Change::Place {
        parent: Some(parent),
        prev: gap.prev,
        next: gap.next,
    };
    K::change(table, parent, joined)?;
    change_at::<K>(table, gap.prev, Change::Next(Some(name)))?;
    change_at::<K>(table, gap.next, Change::Prev(Some(name)))?;
    K::change(table, name, place)
}
