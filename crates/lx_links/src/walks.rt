use crate::links::Links;
use lx_node::Key;

impl Links {
    ghost use Rattle.std.specs.Prelude.{◌≡◌, ◌==◌, ◌&&◌, None, length};
    ghost use Rattle.lx_forest.specs.Lookups as lookups;
    ghost use Rattle.lx_links.specs.Stands.{Sound};

    /// The last key on the way up from this one, and how many steps up it is.
    fn top(&self, key: Key) -> (Key, u32)
        ensures top { lookups.parent_of self.now result.0 ≡ None }
        ensures attached { lookups.is_attached self.now key ≡ lookups.is_attached self.now result.0 }
        ensures steps { result.1 ≡ length (lookups.ancestors self.now key) }
        ensures sound { Sound self.now }
    {
        let mut at = key;
        let mut steps = 0;
        while let Some(parent) = self.parent(at) {
            at = parent;
            steps += 1;
        }
        (at, steps)
    }

    /// Whether there is a node of the key, and the top above it is the root.
    fn is_there_and_root(&self, key: Key, top: Key) -> bool
        ensures both { result ≡ (lookups.has key self.now && (top == 0)) }
        ensures sound { Sound self.now }
    {
        self.has(key) && top == Key::root()
    }

    /// Whether the key is in the root's tree.
    pub fn is_attached(&self, key: Key) -> bool
        ensures attached { result ≡ lookups.is_attached self.now key }
        ensures sound { Sound self.now }
    {
        let (top, _) = self.top(key);
        self.is_there_and_root(key, top)
    }

    /// How many nodes are above the key, where it is in the root's tree.
    pub fn depth(&self, key: Key) -> Option<u32>
        ensures depth { result ≡ lookups.depth self.now key }
        ensures sound { Sound self.now }
    {
        let (top, steps) = self.top(key);
        if self.is_there_and_root(key, top) {
            Some(steps)
        } else {
            None
        }
    }

    /// Whether the key is in the tree of the outer one: that one itself, or below it. Where the outer one has no
    /// children it doesn't walk.
    #[tactic(auto, using(crate::proofs::InTree::within_leaf))]
    pub fn is_within(&self, outer: Key, key: Key) -> bool
        ensures within { result ≡ lookups.is_within self.now outer key }
        ensures sound { Sound self.now }
    {
        match self.first(outer) {
            Some(_) => self.reaches(outer, key),
            None => key == outer && self.has(outer),
        }
    }

    /// Whether the way up from the key meets the outer one.
    fn reaches(&self, outer: Key, key: Key) -> bool
        ensures within { result ≡ lookups.is_within self.now outer key }
        ensures sound { Sound self.now }
    {
        let mut at = key;
        while at != outer {
            match self.parent(at) {
                Some(parent) => at = parent,
                None => return false,
            }
        }
        self.has(outer)
    }

    /// How many siblings come before the node, where it is below one. It walks the previous siblings.
    pub fn index_of(&self, key: Key) -> Option<u32>
        ensures index { result ≡ lookups.index_of self.now key }
        ensures sound { Sound self.now }
    {
        let Some(_) = self.parent(key) else {
            return None;
        };
        let mut at = key;
        let mut index = 0;
        while let Some(previous) = self.previous(at) {
            at = previous;
            index += 1;
        }
        Some(index)
    }
}
