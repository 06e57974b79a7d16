//! Which heading has a node at or below it.

ghost use Rattle.std.specs.Prelude.{◌≡◌, ◌+◌, ◌≤◌, Some, option_map};
ghost use Rattle.lx_forest.specs.Records.{record_at};
ghost use Rattle.lx_links.specs.Stands.{node_of};
ghost use Rattle.lx_outline.specs.Reading as reading;

use lx_links::Records;
use lx_node::{Key, Kind, Node};

/// The heading right above a node, or above the link in which it is. A heading holds inline nodes, and a link no other
/// link, so there is none further up.
fn heading_above<'a, R: Records<'a>>(records: &mut R, node: &Node) -> Option<Key>
    ensures heading { result ≡ reading.heading_over (R.forest records.old) node.now.parent }
    ensures same { R.forest records.new ≡ R.forest records.old }
    ensures reads { R.count records.new ≤ R.count records.old + 2 }
{
    let parent = node.parent?;
    let above = records.read(parent)?;
    match above.kind {
        Kind::Heading(_) => Some(parent),
        Kind::Link => {
            let outer = above.parent?;
            let holder = records.read(outer)?;
            match holder.kind {
                Kind::Heading(_) => Some(outer),
                _ => None,
            }
        }
        _ => None,
    }
}

/// The heading that has a node at or below it, with what the node says.
fn heading_of<'a, R: Records<'a>>(records: &mut R, key: Key, node: &Node) -> Option<Key>
    requires { option_map node_of (record_at (R.forest records.old) key) ≡ Some node.now }
    ensures heading { result ≡ reading.heading_of (R.forest records.old) key }
    ensures same { R.forest records.new ≡ R.forest records.old }
    ensures reads { R.count records.new ≤ R.count records.old + 2 }
{
    match node.kind {
        Kind::Heading(_) => Some(key),
        _ => heading_above(records, node),
    }
}

/// The heading that has the node of a key at or below it.
pub(crate) fn heading_over<'a, R: Records<'a>>(records: &mut R, key: Key) -> Option<Key>
    ensures heading { result ≡ reading.heading_of (R.forest records.old) key }
    ensures same { R.forest records.new ≡ R.forest records.old }
    ensures reads { R.count records.new ≤ R.count records.old + 3 }
{
    match records.read(key) {
        Some(node) => heading_of(records, key, node),
        None => None,
    }
}
