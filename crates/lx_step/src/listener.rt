ghost use Rattle.std.specs.Prelude.{◌≡◌, IfOk};

use crate::step::Steps;
use lx_node::{NoMemory, Txt, copy_optional};
use std::alloc::Global;

/// What has to hold for a listener to run its steps: each of these that it has. A word that names no kind of selection,
/// or no type of nodes, never holds.
#[derive(Debug, Drop)]
pub struct When {
    /// The payload is this text.
    pub payload: Option<Txt>,
    /// The selection is of this kind: `none`, `range`, `nodes` or `cells`.
    pub selection: Option<Txt>,
    /// The text block in which the anchor lies is of this type.
    pub block: Option<Txt>,
}

/// Steps that run where a command of a name is dispatched.
#[derive(Debug, Drop)]
pub struct Listener {
    /// From 4, critical, to 0, editor.
    pub priority: u8,
    /// The name of the commands that it is offered.
    pub on: Txt,
    pub when: When,
    pub steps: Steps,
    /// Whether no listener after this one is offered the command.
    pub handled: bool,
}

impl When {
    /// An equal one. It takes memory for its texts.
    pub fn copy(&self, alloc: Global) -> Result<When, NoMemory>
        ensures { IfOk result (λ made. made ≡ self.now) }
    {
        Ok(When {
            payload: copy_optional(alloc, &self.payload)?,
            selection: copy_optional(alloc, &self.selection)?,
            block: copy_optional(alloc, &self.block)?,
        })
    }
}

impl Listener {
    /// An equal listener. It takes memory for its texts and its steps.
    pub fn copy(&self, alloc: Global) -> Result<Listener, NoMemory>
        ensures { IfOk result (λ made. made ≡ self.now) }
    {
        Ok(Listener {
            priority: self.priority,
            on: self.on.copy(alloc)?,
            when: self.when.copy(alloc)?,
            steps: self.steps.copy(alloc)?,
            handled: self.handled,
        })
    }
}
