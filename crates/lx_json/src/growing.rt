//! Links that grow while a document is read.

ghost use Rattle.std.specs.Prelude.{◌≡◌, None, OnOk};
ghost use Rattle.lx_forest.specs.Edits.{put_in};
ghost use Rattle.lx_links.specs.Faults.{place_fault};

use lx_links::Links;
use lx_node::{Fields, Key, Kind, NoMemory};
use std::alloc::Global;

/// Links, and the key that the next node gets.
#[derive(Drop)]
pub(crate) struct Growth {
    pub(crate) links: Links,
    pub(crate) next: u32,
}

/// Puts a node that is below nothing after the children of a parent. Where the links refuse it, which they don't
/// below a parent that may hold it, the answer is that memory ran out.
fn place_last(links: &mut Links, parent: Key, key: Key) -> Result<(), NoMemory>
    ensures { OnOk result ((place_fault parent None key links.old ≡ None) × (links.new ≡ put_in parent None key links.old)) }
{
    match links.place(parent, None, key) {
        Ok(()) => Ok(()),
        Err(_) => Err(NoMemory),
    }
}

impl Growth {
    ghost use Rattle.std.specs.Prelude.{◌≡◌, ◌≢◌, ◌<◌, IfOk, OnOk};
    ghost use Rattle.lx_node.specs.Limits.{most_key};
    ghost use Rattle.lx_trees.specs.Trees.{tree, nil};
    ghost use Rattle.lx_node.specs.OfKind.{IsOfKind};
    ghost use Rattle.lx_node.specs.declared.kind.Kind.TheVariants.{Root};
    ghost use Rattle.lx_json.specs.Growing.{grown, rooted_growth, IsGrowing};

    /// The root alone, with these fields. Where they aren't a root's, the answer is that memory ran out.
    pub(crate) fn new(alloc: Global, fields: Fields, next: u32) -> Result<Growth, NoMemory>
        requires { 0 < next }
        ensures grown { IfOk result (λ growth. growth ≡ rooted_growth next (tree (record { kind = Root; fields = fields }) nil nil)) }
        ensures growing { IfOk result (IsGrowing) }
    {
        let mut links = Links::new(alloc)?;
        match links.set(Key::root(), fields) {
            Ok(()) => Ok(Growth { links, next }),
            Err(_) => Err(NoMemory),
        }
    }

    /// Adds a node without children after the children of a parent, and answers its key. Where the keys have run out,
    /// memory has.
    pub(crate) fn add(&mut self, parent: Key, kind: Kind, fields: Fields) -> Result<Key, NoMemory>
        requires growing { IsGrowing self.old }
        requires other { kind ≢ Root }
        requires of_kind { IsOfKind kind fields }
        ensures grown { OnOk result (self.new ≡ grown parent (tree (record { kind = kind; fields = fields }) nil nil) self.old) }
        ensures key { IfOk result (λ key. key ≡ self.old.next) }
        ensures growing { OnOk result (IsGrowing self.new) }
    {
        if self.next == u32::MAX {
            return Err(NoMemory);
        }
        let key = Key(self.next);
        self.links.insert_new(key, kind, fields)?;
        place_last(&mut self.links, parent, key)?;
        self.next += 1;
        Ok(key)
    }
}
