ghost use Rattle.std.specs.Prelude.{◌≡◌, ◌↔◌, IsTrue};
ghost use Rattle.lx_compare.specs.Differing.{IsSameNode};
ghost use Rattle.lx_compare.specs.Places.{IsAsBefore};

use lx_links::Links;
use lx_node::{Key, Node};

/// Whether neither tree has a node, or both have it with the same fields, the same parent and the same neighbours. It
/// looks at the node once in each tree.
pub(crate) fn is_as_before(old: &Links, new: &Links, key: Key) -> bool
    ensures { IsTrue result ↔ IsAsBefore old.now new.now key }
{
    match (old.node(key), new.node(key)) {
        (Some(before), Some(after)) => is_same_node(before, after),
        (None, None) => true,
        _ => false,
    }
}

/// Whether the fields are the same, the parent and the neighbours. Texts are compared last.
fn is_same_node(a: &Node, b: &Node) -> bool
    ensures { IsTrue result ↔ IsSameNode a.now b.now }
{
    is_same_key(a.parent, b.parent)
        && is_same_key(a.prev, b.prev)
        && is_same_key(a.next, b.next)
        && a.fields.is_equal(&b.fields)
}

fn is_same_key(a: Option<Key>, b: Option<Key>) -> bool
    ensures { IsTrue result ↔ (a ≡ b) }
{
    a == b
}
