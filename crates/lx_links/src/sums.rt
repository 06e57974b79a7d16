ghost use Rattle.std.specs.Prelude.{◌≡◌};
ghost use Rattle.lx_links.specs.Sums.{AreFew, IsPart, own_sums, plus, less};

use lx_node::{Fields, Kind};

/// What nodes hold together: the scalar values in their strings, for each node what `characters` answers,
/// how many of them are items, and the scalar values in the strings of these.
#[derive(Clone, Copy)]
pub struct Sums {
    pub(crate) characters: u128,
    pub(crate) items: u64,
    pub(crate) item_characters: u128,
}

impl Sums {
    /// Those of one node.
    #[tactic(auto, unfolding(lx_node::specs::Kinds::is_item))]
    pub fn of(kind: Kind, fields: &Fields) -> Sums
        ensures { result ≡ own_sums kind fields.now }
    {
        let characters = fields.characters() as u128;
        match kind {
            Kind::Item => Sums {
                characters,
                items: 1,
                item_characters: characters,
            },
            _ => Sums {
                characters,
                items: 0,
                item_characters: 0,
            },
        }
    }

    /// Those of both together.
    pub fn plus(self, more: Sums) -> Sums
        requires few { AreFew self }
        requires few_more { AreFew more }
        ensures { result ≡ plus self more }
    {
        Sums {
            characters: self.characters + more.characters,
            items: self.items + more.items,
            item_characters: self.item_characters + more.item_characters,
        }
    }

    /// Those without a part of them.
    pub fn less(self, gone: Sums) -> Sums
        requires { IsPart gone self }
        ensures { result ≡ less self gone }
    {
        Sums {
            characters: self.characters - gone.characters,
            items: self.items - gone.items,
            item_characters: self.item_characters - gone.item_characters,
        }
    }
}
