use crate::draft::Draft;
use lx_node::{Key, NoMemory, Sequence};
use lx_select::Keys;

/// A list of elements, each with its flag.
pub type Flags = Sequence<(Key, bool)>;

/// What is to be handled next: leaves, or elements with their flags, or nothing any more.
#[derive(Drop)]
pub enum Round {
    Leaves(Keys),
    Elements(Flags),
    Rest,
}

impl Draft {
    ghost use Rattle.std.specs.Prelude.{◌≡◌, ◌≢◌, IfOk, OnOk, OnErr};
    ghost use Rattle.lx_trees.specs.Trees.{nil};
    ghost use Rattle.lx_draft.specs.Rounds.{round_of, rounded};

    /// Takes what is to be handled next, which is then handled: the marked leaves, if there are any, or
    /// else the marked elements.
    pub fn take_round(&mut self) -> Result<Round, NoMemory>
        ensures round { IfOk result (λ round. round ≡ round_of self.old.fresh) }
        ensures taken { OnOk result (self.new ≡ record self.old { fresh = rounded self.old.fresh }) }
        ensures living { OnOk result (self.old.forest ≢ nil) }
        ensures failed { OnErr result (self.new.forest ≡ nil) }
    {
        self.living()?;
        match self.next_round() {
            Ok(round) => Ok(round),
            Err(error) => {
                self.links.fail();
                Err(error)
            }
        }
    }

    fn next_round(&mut self) -> Result<Round, NoMemory>
        ensures round { IfOk result (λ round. round ≡ round_of self.old.fresh) }
        ensures taken { OnOk result (self.new ≡ record self.old { fresh = rounded self.old.fresh }) }
    {
        let leaves = self.fresh.take_leaves()?;
        if !leaves.is_empty() {
            return Ok(Round::Leaves(Keys::of(leaves)));
        }
        let elements = self.fresh.take_elements()?;
        if !elements.is_empty() {
            return Ok(Round::Elements(Flags::of(elements)));
        }
        Ok(Round::Rest)
    }
}
