ghost use Rattle.std.specs.Prelude.{◌≡◌, IfOk};
ghost use Rattle.lx_select.specs.declared.selection.Selection.TheVariants.{Nothing};
ghost use Rattle.lx_forest.specs.Forest.{root_alone};
ghost use Rattle.lx_draft.specs.Working.{MayStart};

use lx_links::Links;
use lx_marks::Marks;
use lx_node::NoMemory;
use lx_select::Selection;
use std::alloc::Global;

/// An editor state: nodes that stand for a forest, and a selection.
pub struct State {
    pub links: Links,
    pub selection: Selection,
}

// Written out, so that who drops one calls this: how each part is dropped is proved here alone.
impl Drop for State {
    fn drop(self) {
        let State { links, selection } = self;
        drop(links);
        drop(selection);
    }
}

/// What a draft leaves for a commit: the new state, what the update marked, and the key that the next new
/// node gets.
#[derive(Drop)]
pub struct Frozen {
    pub state: State,
    pub marks: Marks,
    pub next_key: u32,
}

impl State {
    ghost use Rattle.std.specs.Prelude.{min};
    ghost use Rattle.lx_node.specs.Limits.{last_u32};
    ghost use Rattle.lx_forest.specs.Weights.{weight};
    ghost use Rattle.lx_links.specs.Characters.{characters_in};

    /// The state of a new editor: the root alone, and nothing selected. An update may start from it with
    /// the key 1.
    pub fn new(alloc: Global) -> Result<State, NoMemory>
        ensures links { IfOk result (λ made. made.links ≡ root_alone) }
        ensures selection { IfOk result (λ made. made.selection ≡ Nothing) }
        ensures start { IfOk result (λ made. MayStart made.links 1) }
    {
        let links = Links::new(alloc)?;
        Ok(State {
            links,
            selection: Selection::Nothing,
        })
    }

    /// How many scalar values are in the strings of all nodes, up to 4,294,967,295.
    #[tactic(auto, unfolding(lx_node::specs::Strings::capped))]
    pub fn characters(&self) -> u32
        ensures { result ≡ min (weight characters_in self.now.links) last_u32 }
    {
        self.links.characters().min(u32::MAX as u64) as u32
    }

    /// An equal state. What is done to either of the two afterwards leaves the other as it was.
    pub fn copy(&self, alloc: Global) -> Result<State, NoMemory>
        ensures links { IfOk result (λ made. made.links ≡ self.now.links) }
        ensures selection { IfOk result (λ made. made.selection ≡ self.now.selection) }
    {
        let links = self.links.fork()?;
        let selection = self.selection.copy(alloc)?;
        Ok(State { links, selection })
    }
}
