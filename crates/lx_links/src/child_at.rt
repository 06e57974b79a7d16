use crate::links::Links;
use lx_node::Key;

impl Links {
    ghost use Rattle.std.specs.Prelude.{◌≡◌, ◌<◌, ◌-◌, slice_get};
    ghost use Rattle.lx_forest.specs.Lookups as lookups;
    ghost use Rattle.lx_links.specs.Stands.{Sound};

    /// The node's child at an index, counted from 0, where there is one. It walks from the nearer end, past
    /// at most half of the children.
    pub fn child_at(&self, parent: Key, index: u32) -> Option<Key>
        ensures child { result ≡ slice_get (lookups.children_of self.now parent) index }
        ensures sound { Sound self.now }
    {
        let size = self.size(parent);
        if index >= size {
            return None;
        }
        let behind = size - 1 - index;
        if index <= behind {
            self.child_from_front(parent, index)
        } else {
            self.child_from_back(parent, behind)
        }
    }

    /// The child with so many before it.
    fn child_from_front(&self, parent: Key, before: u32) -> Option<Key>
        ensures { result ≡ slice_get (lookups.children_of self.now parent) before }
    {
        let mut at = self.first(parent);
        let mut passed = 0;
        while passed < before {
            let key = at?;
            at = self.next(key);
            passed += 1;
        }
        at
    }

    /// The child with so many after it.
    fn child_from_back(&self, parent: Key, behind: u32) -> Option<Key>
        requires { behind < lookups.size_of self.now parent }
        ensures { result ≡ slice_get (lookups.children_of self.now parent) (lookups.size_of self.now parent - 1 - behind) }
    {
        let mut at = self.last(parent);
        let mut passed = 0;
        while passed < behind {
            let key = at?;
            at = self.previous(key);
            passed += 1;
        }
        at
    }
}
