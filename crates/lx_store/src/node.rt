ghost use Rattle.std.specs.Prelude.{◌≡◌, ◌↔◌, IsTrue};
ghost use Rattle.lx_store.specs.Parts.{HasEqualParts};

use crate::copies::Copies;
use crate::item::Item;
use lx_node::{Key, Kind, NoMemory, Node};
use std::alloc::Global;

impl Item for Node {
    type Count = Copies;

    fn twin(&self, alloc: Global, count: &mut Copies) -> Result<Node, NoMemory> {
        count.raise();
        self.copy(alloc)
    }

    fn is_equal(&self, other: &Node) -> bool {
        has_equal_parts(self, other)
    }
}

// Texts are compared last.
fn has_equal_parts(a: &Node, b: &Node) -> bool
    ensures { IsTrue result ↔ HasEqualParts a.now b.now }
{
    is_same_key(a.parent, b.parent)
        && is_same_key(a.prev, b.prev)
        && is_same_key(a.next, b.next)
        && is_same_key(a.first, b.first)
        && is_same_key(a.last, b.last)
        && a.size == b.size
        && is_same_kind(a.kind, b.kind)
        && a.fields.is_equal(&b.fields)
}

fn is_same_key(a: Option<Key>, b: Option<Key>) -> bool
    ensures { IsTrue result ↔ (a ≡ b) }
{
    a == b
}

fn is_same_kind(a: Kind, b: Kind) -> bool
    ensures { IsTrue result ↔ (a ≡ b) }
{
    a == b
}
