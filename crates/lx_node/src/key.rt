use std::marker::Model;

/// The name of a node in an editor state: 0 for the root, and 1, 2, 3 and so on in the order in which
/// nodes are made. Contracts see a key as its number.
#[derive(Clone, Copy, Debug, PartialEq, Eq, Hash)]
pub struct Key(pub u32);

impl Model for Key {
    ghost use Rattle.std.specs.Prelude.{ℕ};

    ghost Value = { ℕ };

    ghost view = { λ k. k.0 };

    ghost inverse = { λ n. record { 0 = n } };
}

impl Key {
    ghost use Rattle.std.specs.Prelude.{◌≡◌};
    /// The root's key.
    pub fn root() -> Key
        ensures { result ≡ 0 }
    {
        Key(0)
    }

    pub fn number(self) -> u32
        ensures { result ≡ self }
    {
        self.0
    }
}
