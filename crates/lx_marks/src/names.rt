ghost use Rattle.std.specs.Prelude.{◌≡◌, ◌==◌, ◌+◌, ◌<◌, ◌≤◌, [], length, take, IsOk, OnOk, OnErr, IfOk};
ghost use Rattle.std.specs.Vec.{vec_capacity};
ghost use Rattle.std.specs.List.{position};
ghost use Rattle.lx_trees.specs.Siblings.{NoRepeats, is_among};
ghost use Rattle.lx_marks.specs.Marks.{with_name, with_names};
ghost use Rattle.lx_marks.specs.Inside.{AreTabled};

use indexmap::IndexSet;
use lx_node::{Key, NoMemory};
use std::alloc::Global;

/// So many keys, or fewer, are searched from the front.
pub(crate) const FEW: usize = 8;

/// Keys, each once, in the order of their first naming. Where they are more than a few, a table has them too; it has
/// none where they are few, or where there was no memory for it.
#[derive(Drop)]
pub(crate) struct Names {
    pub(crate) keys: Vec<Key>,
    pub(crate) table: IndexSet<Key>,
}

/// No keys. It takes no memory.
pub(crate) fn no_names(alloc: Global) -> Names
    ensures none { result.keys.items ≡ [] }
    ensures tabled { AreTabled result.keys.items result.table.keys }
{
    Names {
        keys: Vec::new(alloc),
        table: IndexSet::new(alloc),
    }
}

/// Whether a key is there.
pub(crate) fn has_name(names: &Names, key: Key) -> bool
    requires { AreTabled names.now.keys.items names.now.table.keys }
    ensures { result ≡ is_among key names.now.keys.items }
{
    if names.table.is_empty() {
        names.keys.contains(&key)
    } else {
        names.table.contains(&key)
    }
}

/// Puts the keys into the table that aren't there yet, once they are no longer few. Without memory for them it has none.
pub(crate) fn fill(table: &mut IndexSet<Key>, keys: &[Key])
    requires once { NoRepeats keys.now }
    requires begun { table.old.keys ≡ take (length table.old.keys) keys.now }
    ensures { AreTabled keys.now table.new.keys }
{
    if table.is_empty() && keys.len() <= FEW {
        return;
    }
    'keys: for at in table.len()..keys.len() {
        let Ok(_) = table.insert(keys[at]) else {
            table.clear();
            return;
        };
    }
}

/// Puts a key after the others unless it is there. With room to spare that can't fail, and it takes up one place at
/// most.
#[tactic(auto, unfolding(crate::specs::Marks::with_name))]
pub(crate) fn name_leaf(names: &mut Names, key: Key) -> Result<(), NoMemory>
    requires once { NoRepeats names.old.keys.items }
    requires tabled { AreTabled names.old.keys.items names.old.table.keys }
    ensures named { OnOk result (names.new.keys.items ≡ with_name key names.old.keys.items) }
    ensures unchanged { OnErr result (names.new.keys.items ≡ names.old.keys.items) }
    ensures once { NoRepeats names.new.keys.items }
    ensures kept { AreTabled names.new.keys.items names.new.table.keys }
    ensures succeeds { length names.old.keys.items < vec_capacity names.old.keys → IsOk result }
    ensures room { vec_capacity names.old.keys ≤ vec_capacity names.new.keys }
{
    if !has_name(names, key) {
        names.keys.push(key)?;
        fill(&mut names.table, names.keys.as_slice());
    }
    Ok(())
}

/// Puts each of the others after the keys unless it is there.
#[tactic(auto, unfolding(crate::specs::Marks::with_names))]
pub(crate) fn name_all(names: &mut Names, others: &[Key])
    requires once { NoRepeats names.old.keys.items }
    requires tabled { AreTabled names.old.keys.items names.old.table.keys }
    requires room { length names.old.keys.items + length others.now ≤ vec_capacity names.old.keys }
    ensures named { names.new.keys.items ≡ with_names others.now names.old.keys.items }
    ensures once { NoRepeats names.new.keys.items }
    ensures kept { AreTabled names.new.keys.items names.new.table.keys }
{
    'others: for key in others {
        name_leaf(names, *key).unwrap();
    }
}
