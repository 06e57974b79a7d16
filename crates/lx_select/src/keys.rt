use lx_node::{Key, Sequence};

/// A list of keys.
pub type Keys = Sequence<Key>;

ghost use Rattle.std.specs.Prelude.{◌≡◌, ◌↔◌, IsTrue};

/// Whether they are the same keys in the same order.
pub(crate) fn are_equal(keys: &Keys, others: &Keys) -> bool
    ensures { IsTrue result ↔ (keys.now ≡ others.now) }
{
    keys.items() == others.items()
}
