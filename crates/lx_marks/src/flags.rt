ghost use Rattle.std.specs.Prelude.{◌≡◌, ◌==◌, ◌+◌, ◌<◌, ◌≤◌, [], length, take, IsOk, OnOk, OnErr};
ghost use Rattle.std.specs.Vec.{vec_capacity};
ghost use Rattle.std.specs.Map.{keys_of};
ghost use Rattle.std.specs.List.{position};
ghost use Rattle.lx_trees.specs.Siblings.{NoRepeats};
ghost use Rattle.lx_marks.specs.Marks.{flag_in, flagged, all_flagged};
ghost use Rattle.lx_marks.specs.Inside.{AreTabled};

use crate::names::FEW;
use indexmap::IndexSet;
use lx_node::{Key, NoMemory};
use std::alloc::Global;

/// Keys with flags, each key once, in the order of their first flags. The table is as that of names is.
#[derive(Drop)]
pub(crate) struct Flags {
    pub(crate) entries: Vec<(Key, bool)>,
    pub(crate) table: IndexSet<Key>,
}

/// No keys. It takes no memory.
pub(crate) fn no_flags(alloc: Global) -> Flags
    ensures none { result.entries.items ≡ [] }
    ensures tabled { AreTabled (keys_of result.entries.items) result.table.keys }
{
    Flags {
        entries: Vec::new(alloc),
        table: IndexSet::new(alloc),
    }
}

/// Where a key is among the entries, looked for from the front.
fn scanned(entries: &[(Key, bool)], key: Key) -> Option<usize>
    ensures { result ≡ position (λ e. e.0 == key) entries.now }
{
    entries.iter().position(|entry| entry.0 == key)
}

/// Where a key is among the entries.
pub(crate) fn place_of(flags: &Flags, key: Key) -> Option<usize>
    requires { AreTabled (keys_of flags.now.entries.items) flags.now.table.keys }
    ensures { result ≡ position (λ k. k == key) (keys_of flags.now.entries.items) }
{
    if flags.table.is_empty() {
        scanned(flags.entries.as_slice(), key)
    } else {
        flags.table.get_index_of(&key)
    }
}

/// The flag of a key, where it is there.
pub(crate) fn flag_of(flags: &Flags, key: Key) -> Option<bool>
    requires { AreTabled (keys_of flags.now.entries.items) flags.now.table.keys }
    ensures { result ≡ flag_in flags.now.entries.items key }
{
    match place_of(flags, key) {
        Some(at) => Some(flags.entries[at].1),
        None => None,
    }
}

/// Puts the keys into the table that aren't there yet, once they are no longer few. Without memory for them it has none.
pub(crate) fn fill(table: &mut IndexSet<Key>, entries: &[(Key, bool)])
    requires once { NoRepeats (keys_of entries.now) }
    requires begun { table.old.keys ≡ take (length table.old.keys) (keys_of entries.now) }
    ensures { AreTabled (keys_of entries.now) table.new.keys }
{
    if table.is_empty() && entries.len() <= FEW {
        return;
    }
    'entries: for at in table.len()..entries.len() {
        let Ok(_) = table.insert(entries[at].0) else {
            table.clear();
            return;
        };
    }
}

/// Puts a key after the others, or raises the flag of one that is there. With room to spare that can't fail, and it
/// takes up one place at most.
pub(crate) fn flag_element(flags: &mut Flags, key: Key, flag: bool) -> Result<(), NoMemory>
    requires once { NoRepeats (keys_of flags.old.entries.items) }
    requires tabled { AreTabled (keys_of flags.old.entries.items) flags.old.table.keys }
    ensures flagged { OnOk result (flags.new.entries.items ≡ flagged key flag flags.old.entries.items) }
    ensures unchanged { OnErr result (flags.new.entries.items ≡ flags.old.entries.items) }
    ensures once { NoRepeats (keys_of flags.new.entries.items) }
    ensures kept { AreTabled (keys_of flags.new.entries.items) flags.new.table.keys }
    ensures succeeds { length flags.old.entries.items < vec_capacity flags.old.entries → IsOk result }
    ensures room { vec_capacity flags.old.entries ≤ vec_capacity flags.new.entries }
{
    match place_of(flags, key) {
        Some(at) => {
            let before = flags.entries[at].1;
            flags.entries[at] = (key, before || flag);
        }
        None => {
            flags.entries.push((key, flag))?;
            fill(&mut flags.table, flags.entries.as_slice());
        }
    }
    Ok(())
}

/// Puts each of the others after the keys, or raises the flag of one that is there.
#[tactic(auto, unfolding(crate::specs::Marks::all_flagged))]
pub(crate) fn flag_all(flags: &mut Flags, others: &[(Key, bool)])
    requires once { NoRepeats (keys_of flags.old.entries.items) }
    requires tabled { AreTabled (keys_of flags.old.entries.items) flags.old.table.keys }
    requires room { length flags.old.entries.items + length others.now ≤ vec_capacity flags.old.entries }
    ensures flagged { flags.new.entries.items ≡ all_flagged others.now flags.old.entries.items }
    ensures once { NoRepeats (keys_of flags.new.entries.items) }
    ensures kept { AreTabled (keys_of flags.new.entries.items) flags.new.table.keys }
{
    'others: for (key, flag) in others {
        flag_element(flags, *key, *flag).unwrap();
    }
}
