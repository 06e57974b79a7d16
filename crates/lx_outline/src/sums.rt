//! How many nodes and characters the nodes have that events are about.

ghost use Rattle.std.specs.Prelude.{◌≡◌, ◌+◌, ◌<◌, ◌≤◌, ◌^◌, length};
ghost use Rattle.lx_node.specs.Limits.{most_nodes, most_characters};
ghost use Rattle.lx_forest.specs.Weights.{own_weight};
ghost use Rattle.lx_outline.specs.Outline.{characters_in as text_in};
ghost use Rattle.lx_outline.specs.Reading.{one_in, weight_among};

use crate::event::Event;
use crate::reading::characters_in;
use lx_links::Records;
use lx_node::Key;

/// How many nodes and characters there are.
#[derive(Clone, Copy, Debug, PartialEq, Eq)]
pub(crate) struct Sums {
    pub(crate) nodes: u32,
    pub(crate) characters: u32,
}

impl Sums {
    /// Both together.
    fn with(self, other: Sums) -> Sums
        requires nodes { self.nodes + other.nodes < 2 ^ 32 }
        requires characters { self.characters + other.characters < 2 ^ 32 }
        ensures nodes { result.nodes ≡ self.nodes + other.nodes }
        ensures characters { result.characters ≡ self.characters + other.characters }
    {
        Sums {
            nodes: self.nodes + other.nodes,
            characters: self.characters + other.characters,
        }
    }
}

/// What one node counts for, where there is one of that key.
fn node_sums<'a, R: Records<'a>>(records: &mut R, key: Key) -> Sums
    requires { own_weight text_in (R.forest records.old) key ≤ most_characters }
    ensures nodes { result.nodes ≡ own_weight one_in (R.forest records.old) key }
    ensures characters { result.characters ≡ own_weight text_in (R.forest records.old) key }
    ensures same { R.forest records.new ≡ R.forest records.old }
    ensures reads { R.count records.new ≤ R.count records.old + 1 }
{
    match records.read(key) {
        Some(node) => Sums {
            nodes: 1,
            characters: characters_in(node),
        },
        None => Sums {
            nodes: 0,
            characters: 0,
        },
    }
}

/// What all of them count for that are in the tree.
pub(crate) fn sums_of<'a, R: Records<'a>>(records: &mut R, events: &[Event]) -> Sums
    requires few { weight_among one_in (R.forest records.old) events.now ≤ most_nodes }
    requires short { weight_among text_in (R.forest records.old) events.now ≤ most_characters }
    ensures nodes { result.nodes ≡ weight_among one_in (R.forest records.old) events.now }
    ensures characters { result.characters ≡ weight_among text_in (R.forest records.old) events.now }
    ensures same { R.forest records.new ≡ R.forest records.old }
    ensures reads { R.count records.new ≤ R.count records.old + length events.now }
{
    let mut sums = Sums {
        nodes: 0,
        characters: 0,
    };
    for event in events {
        sums = sums.with(node_sums(records, event.key()));
    }
    sums
}
