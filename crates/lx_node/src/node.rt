ghost use Rattle.std.specs.Prelude.{◌≡◌, IfOk};

use crate::fields::Fields;
use crate::key::Key;
use crate::kind::{Kind, Kinds};
use crate::memory::NoMemory;
use std::alloc::Global;

/// A node with its links: its parent and its neighbours among that one's children, where it has them, and
/// its first and its last child and their number. A leaf has no children.
#[derive(Debug, Drop)]
pub struct Node {
    pub kind: Kind,
    pub fields: Fields,
    pub parent: Option<Key>,
    pub prev: Option<Key>,
    pub next: Option<Key>,
    pub first: Option<Key>,
    pub last: Option<Key>,
    pub size: u32,
}

impl Node {
    /// An equal node. It takes memory for the texts in the fields.
    pub fn copy(&self, alloc: Global) -> Result<Node, NoMemory>
        ensures { IfOk result (λ made. made ≡ self.now) }
    {
        let fields = self.fields.copy(alloc)?;
        Ok(Node {
            kind: self.kind,
            fields,
            parent: self.parent,
            prev: self.prev,
            next: self.next,
            first: self.first,
            last: self.last,
            size: self.size,
        })
    }
}

/// What a rule sees of a node: the node without its place, and the kinds of those around it.
#[derive(Debug, Drop)]
pub struct View {
    pub kind: Kind,
    pub fields: Fields,
    pub parent: Option<Kind>,
    pub prev: Option<Kind>,
    pub next: Option<Kind>,
    pub children: Kinds,
}
