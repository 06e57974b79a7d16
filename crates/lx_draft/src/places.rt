use crate::draft::Draft;
use lx_links::misfit;
use lx_node::{Cause, Key};

impl Draft {
    ghost use Rattle.std.specs.Prelude.{◌≡◌};
    ghost use Rattle.lx_links.specs.Faults as faults;
    ghost use Rattle.lx_draft.specs.Faults as refusals;

    /// The node can't be taken: there is none, or it is below nothing.
    pub(crate) fn take_fault(&self, key: Key) -> Option<Cause>
        ensures { result ≡ faults.detach_fault key self.now.forest }
    {
        if let Some(cause) = self.links.missing(key) {
            return Some(cause);
        }
        self.links.not_below(key)
    }

    /// The node can't be put there: one of the two isn't there; it is the root, or is below a node
    /// already, or the parent is in its tree; the parent may not hold it; or the parent has fewer
    /// children.
    pub(crate) fn put_fault(&self, key: Key, parent: Key, index: u32) -> Option<Cause>
        ensures { result ≡ refusals.put_fault key parent index self.now.forest }
    {
        if let Some(cause) = self.links.missing(key) {
            return Some(cause);
        }
        if let Some(cause) = self.links.missing(parent) {
            return Some(cause);
        }
        if let Some(cause) = self.links.bound(parent, key) {
            return Some(cause);
        }
        if let Some(cause) = misfit(self.links.kind(parent), self.links.kind(key)) {
            return Some(cause);
        }
        self.beyond(parent, index)
    }

    fn beyond(&self, parent: Key, index: u32) -> Option<Cause>
        ensures { result ≡ refusals.beyond self.now.forest parent index }
    {
        if index > self.links.size(parent) {
            Some(Cause::BadPlace(index as u64))
        } else {
            None
        }
    }
}
