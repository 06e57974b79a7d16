//! What events change of the headings of an outline.

ghost use Rattle.std.specs.Prelude.{◌≡◌, ◌+◌, ◌*◌, ◌≤◌, ℕ, nat_eq, None, length, sum_by, if◌then◌else◌, IfOk, OnOk};
ghost use Rattle.std.specs.Map.{lookup};
ghost use Rattle.lx_trees.specs.Siblings.{is_among};
ghost use Rattle.lx_links.specs.Stands.{Sound};
ghost use Rattle.lx_outline.specs.Outline.{heading_at};
ghost use Rattle.lx_outline.specs.Reading.{is_named_in, is_over_one, heading_reads};

use crate::above::heading_over;
use crate::event::Event;
use crate::headings::{Headings, read_heading};
use crate::keys::Keys;
use lx_links::Records;
use lx_node::{Key, NoMemory};
use std::alloc::Global;

/// Reads the root of a tree, and so shows that the tree is in order.
pub(crate) fn look<'a, R: Records<'a>>(records: &mut R)
    ensures sound { Sound (R.forest records.old) }
    ensures same { R.forest records.new ≡ R.forest records.old }
    ensures reads { R.count records.new ≤ R.count records.old + 1 }
{
    let _root = records.read(Key::root());
}

/// The headings of a tree that have one of the nodes at or below them that events are about.
pub(crate) fn touched_by<'a, R: Records<'a>>(
    alloc: Global,
    events: &[Event],
    records: &mut R,
) -> Result<Keys, NoMemory>
    ensures keys { IfOk result (λ keys. (q : ℕ) → is_among q keys ≡ is_over_one (R.forest records.old) events.now q) }
    ensures same { R.forest records.new ≡ R.forest records.old }
    ensures reads { R.count records.new ≤ R.count records.old + 3 * length events.now }
{
    let mut keys = Keys::new(alloc);
    for event in events {
        let heading = heading_over(records, event.key());
        keys.insert_optional(heading)?;
    }
    Ok(keys)
}

/// Takes out the headings that events are about.
pub(crate) fn forget(headings: &mut Headings, events: &[Event])
    ensures { (q : ℕ) → lookup (nat_eq q) headings.new ≡ (if is_named_in events.now q then None else lookup (nat_eq q) headings.old) }
{
    for event in events {
        headings.remove(event.key());
    }
}

/// Reads headings anew.
pub(crate) fn renew<'a, R: Records<'a>>(
    alloc: Global,
    headings: &mut Headings,
    keys: &[Key],
    records: &mut R,
) -> Result<(), NoMemory>
    ensures headings { OnOk result ((q : ℕ) → lookup (nat_eq q) headings.new ≡ (if is_among q keys.now then heading_at (R.forest records.old) q else lookup (nat_eq q) headings.old)) }
    ensures same { R.forest records.new ≡ R.forest records.old }
    ensures reads { R.count records.new ≤ R.count records.old + sum_by (heading_reads (R.forest records.old)) keys.now }
{
    for key in keys {
        let heading = read_heading(alloc, records, *key)?;
        headings.put(*key, heading)?;
    }
    Ok(())
}
