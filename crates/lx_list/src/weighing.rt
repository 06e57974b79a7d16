//! What items take that get their numbers again.

ghost use Rattle.std.specs.Prelude.{◌≡◌, ◌+◌, IfSome, sum_by};
ghost use Rattle.lx_node.specs.Kinds as kinds;
ghost use Rattle.lx_node.specs.Strings as strings;
ghost use Rattle.lx_forest.specs.Weights.{own_weight};
ghost use Rattle.lx_links.specs.Sums.{items_in, item_characters_in};
ghost use Rattle.lx_list.specs.Parts as weights;

use crate::parts::Part;
use lx_links::Links;
use lx_node::limits::MOST_WRITTEN;
use lx_node::{Fields, Key, Kind};

/// How many items there are, each of which takes a count, and how many scalar values are in their strings.
#[derive(Clone, Copy)]
pub(crate) struct Weighed {
    pub(crate) items: u64,
    pub(crate) characters: u64,
}

#[tactic(auto, unfolding(lx_node::specs::Kinds::is_item))]
fn is_item(kind: Kind) -> bool
    ensures { result ≡ kinds.is_item kind }
{
    matches!(kind, Kind::Item)
}

/// How many scalar values are in the strings of fields. None, where they are more than an update may write.
#[tactic(auto, using(crate::proofs::Weights::exactly))]
fn characters_of(fields: &Fields) -> Option<u64>
    ensures { IfSome result (λ characters. characters ≡ strings.characters_of fields.now) }
{
    let characters = fields.characters();
    if characters > MOST_WRITTEN {
        None
    } else {
        Some(characters)
    }
}

impl Weighed {
    fn none() -> Weighed
        ensures items { result.items ≡ 0 }
        ensures characters { result.characters ≡ 0 }
    {
        Weighed {
            items: 0,
            characters: 0,
        }
    }

    /// Those with one more item, of so many scalar values.
    fn with_item(self, characters: u64) -> Option<Weighed>
        ensures items { IfSome result (λ more. more.items ≡ self.items + 1) }
        ensures characters { IfSome result (λ more. more.characters ≡ self.characters + characters) }
    {
        Some(Weighed {
            items: self.items.checked_add(1)?,
            characters: self.characters.checked_add(characters)?,
        })
    }

    /// Those with a node, where it is an item. None, where it has more scalar values than an update may write.
    fn with_node(self, links: &Links, key: Key) -> Option<Weighed>
        ensures items { IfSome result (λ more. more.items ≡ self.items + own_weight items_in links.now key) }
        ensures characters { IfSome result (λ more. more.characters ≡ self.characters + own_weight item_characters_in links.now key) }
    {
        match links.node(key) {
            Some(node) => {
                if is_item(node.kind) {
                    self.with_item(characters_of(&node.fields)?)
                } else {
                    Some(self)
                }
            }
            None => Some(self),
        }
    }

    /// Those with these items.
    fn with_nodes(self, links: &Links, keys: &[Key]) -> Option<Weighed>
        ensures items { IfSome result (λ more. more.items ≡ self.items + sum_by (own_weight items_in links.now) keys.now) }
        ensures characters { IfSome result (λ more. more.characters ≡ self.characters + sum_by (own_weight item_characters_in links.now) keys.now) }
    {
        let mut weighed = self;
        for key in keys {
            weighed = weighed.with_node(links, *key)?;
        }
        Some(weighed)
    }
}

/// What the items of parts take. None, where it is more than an update may take.
pub(crate) fn weigh_parts(links: &Links, parts: &[Part]) -> Option<Weighed>
    ensures items { IfSome result (λ weighed. weighed.items ≡ sum_by (weights.items_of links.now) parts.now) }
    ensures characters { IfSome result (λ weighed. weighed.characters ≡ sum_by (weights.part_characters links.now) parts.now) }
{
    let mut weighed = Weighed::none();
    for part in parts {
        weighed = weighed.with_nodes(links, &part.keys)?;
    }
    Some(weighed)
}
