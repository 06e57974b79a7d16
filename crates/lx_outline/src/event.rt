ghost use Rattle.std.specs.Prelude.{◌≡◌};
ghost use Rattle.lx_outline.specs.Reading.{key_in};

use lx_node::Key;

/// What a commit did to a node.
#[derive(Clone, Copy, Debug, PartialEq, Eq, Hash)]
pub enum Event {
    /// The node was in the tree before, and isn't any more.
    Destroyed(Key),
    /// The node is in the tree, and was not before.
    Created(Key),
    /// The node was there and is, with other fields, below another parent, or with another list of children.
    Updated(Key),
}

impl Event {
    /// The key of the node.
    pub fn key(self) -> Key
        ensures { result ≡ key_in self }
    {
        match self {
            Event::Destroyed(key) => key,
            Event::Created(key) => key,
            Event::Updated(key) => key,
        }
    }
}
