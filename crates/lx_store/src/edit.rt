ghost use Rattle.std.specs.Prelude.{◌≡◌, OnOk, OnErr};

use lx_node::NoMemory;

/// An edit of an item, made where the item is.
pub trait Edit<V>: Sized + Drop {
    /// Whether the edit can be made of the item.
    ghost fits: { Self → V → Type 0 };

    /// The item after the edit.
    ghost edited: { Self → V → V };

    /// Makes the edit. Where memory ran out the item is as it was.
    fn edit(self, item: &mut V) -> Result<(), NoMemory>
        requires { fits self item.old }
        ensures edited { OnOk result (item.new ≡ edited self item.old) }
        ensures unchanged { OnErr result (item.new ≡ item.old) };
}
