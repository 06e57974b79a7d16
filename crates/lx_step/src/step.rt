ghost use Rattle.std.specs.Prelude.{◌≡◌, IfOk};

use crate::command::Command;
use crate::patch::Patch;
use crate::reference::{Reference, SelectionRef};
use lx_node::{Copied, Fields, Kind, NoMemory, Sequence, Txt, copy_optional};
use std::alloc::Global;
use std::marker::Model;

/// A list of offsets in a text.
pub type Offsets = Sequence<u64>;

/// One step of a script.
#[cycle(step)]
#[derive(Debug, Drop)]
pub enum Step {
    /// A new paragraph at the root's end, with a text in it where this one isn't empty.
    Append(Txt),
    /// A new node without a parent, which later steps may call by the name.
    New {
        kind: Kind,
        fields: Fields,
        name: Option<Txt>,
    },
    /// Puts a node among the children of another, at the index, counted from 0 without the node itself, or
    /// at their end.
    Put {
        node: Reference,
        into: Reference,
        index: Option<u64>,
    },
    Remove(Reference),
    /// Puts the node `with` in a node's place. With `keep` it gets that node's children.
    Replace {
        node: Reference,
        with: Reference,
        keep: bool,
    },
    /// Writes the patch into a node's fields.
    Set {
        node: Reference,
        patch: Patch,
    },
    Mark(Reference),
    /// Splits a text at the offsets. Later steps may call the first new text by the name.
    Split {
        node: Reference,
        offsets: Offsets,
        name: Option<Txt>,
    },
    /// Joins a text with the one after it.
    Join {
        node: Reference,
        with: Reference,
    },
    /// Puts the node `outer` in a node's place, and that node into it.
    Wrap {
        node: Reference,
        outer: Reference,
    },
    /// Puts an element's children in its place.
    Unwrap(Reference),
    /// Moves the children of an element to the end of another.
    Children {
        from: Reference,
        into: Reference,
    },
    Select(SelectionRef),
    /// Does what the built-in command of a name does. No listener is offered it.
    Do(Command),
    /// Offers a command to the listeners of its name.
    Dispatch(Command),
    /// Queues steps, which run when all others of the line have run.
    Later(Steps),
}

/// A list of steps. It isn't a `Sequence`, since a step may hold such a list: contracts see it as a script.
#[cycle(step)]
#[derive(Debug, Drop)]
pub struct Steps {
    steps: Vec<Step>,
}

impl Model for Steps {
    ghost use Rattle.std.specs.Coded.{codes};
    ghost use Rattle.lx_trees.specs.Trees.{trees_code};
    ghost use Rattle.lx_step.specs.Script.{Script, script_size};

    ghost Value = { Script };

    ghost coded = { Prim.hlevel (codes, trees_code) };

    ghost use Rattle.lx_step.specs.Spelled.{script_of};

    ghost view = { λ a. script_of a.steps.items };

    ghost size = { script_size };

    ghost use Rattle.lx_step.specs.Falls.{most_le-script_size};

    ghost size_decreases = { λ a h. most_le-script_size a.steps.items };
}

impl Steps {
    ghost use Rattle.std.specs.Prelude.{◌≡◌, IfOk, All};
    ghost use Rattle.lx_step.specs.Sound.{IsSound, IsSoundScript};
    ghost use Rattle.lx_step.specs.Spelled.{script_of, steps_of};

    /// An equal list. It takes memory for itself and for what its steps hold.
    #[cycle(copy)]
    pub fn copy(&self, alloc: Global) -> Result<Steps, NoMemory>
        ensures { IfOk result (λ made. made ≡ self.now) }
    {
        match copy_steps(alloc, self.steps.as_slice()) {
            Ok(steps) => Ok(Steps { steps }),
            Err(error) => Err(error),
        }
    }

    /// The list of these steps. It takes no memory.
    pub fn of(items: Vec<Step>) -> Steps
        ensures steps { result ≡ script_of items.items }
        ensures sound { All IsSound items.items → IsSoundScript result }
    {
        Steps { steps: items }
    }

    /// The steps, in their order.
    pub fn items(&self) -> &[Step]
        ensures steps { result.now ≡ steps_of self.now }
        ensures sound { IsSoundScript self.now → All IsSound result.now }
    {
        self.steps.as_slice()
    }

    /// The steps themselves. It takes no memory.
    pub fn into_vec(self) -> Vec<Step>
        ensures { result.items ≡ steps_of self }
    {
        self.steps
    }
}

impl Step {
    /// An equal step. It takes memory for what the step holds.
    #[cycle(copy)]
    pub fn copy(&self, alloc: Global) -> Result<Step, NoMemory>
        ensures { IfOk result (λ made. made ≡ self.now) }
    {
        match self {
            Step::Append(text) => Ok(Step::Append(text.copy(alloc)?)),
            Step::New { kind, fields, name } => Ok(Step::New {
                kind: *kind,
                fields: fields.copy(alloc)?,
                name: copy_optional(alloc, name)?,
            }),
            Step::Put { node, into, index } => Ok(Step::Put {
                node: node.copy(alloc)?,
                into: into.copy(alloc)?,
                index: *index,
            }),
            Step::Remove(node) => Ok(Step::Remove(node.copy(alloc)?)),
            Step::Replace { node, with, keep } => Ok(Step::Replace {
                node: node.copy(alloc)?,
                with: with.copy(alloc)?,
                keep: *keep,
            }),
            Step::Set { node, patch } => Ok(Step::Set {
                node: node.copy(alloc)?,
                patch: patch.copy(alloc)?,
            }),
            Step::Mark(node) => Ok(Step::Mark(node.copy(alloc)?)),
            Step::Split {
                node,
                offsets,
                name,
            } => Ok(Step::Split {
                node: node.copy(alloc)?,
                offsets: Offsets::of(Vec::from_slice(alloc, offsets.items())?),
                name: copy_optional(alloc, name)?,
            }),
            Step::Join { node, with } => Ok(Step::Join {
                node: node.copy(alloc)?,
                with: with.copy(alloc)?,
            }),
            Step::Wrap { node, outer } => Ok(Step::Wrap {
                node: node.copy(alloc)?,
                outer: outer.copy(alloc)?,
            }),
            Step::Unwrap(node) => Ok(Step::Unwrap(node.copy(alloc)?)),
            Step::Children { from, into } => Ok(Step::Children {
                from: from.copy(alloc)?,
                into: into.copy(alloc)?,
            }),
            Step::Select(selection) => Ok(Step::Select(selection.copy(alloc)?)),
            Step::Do(command) => Ok(Step::Do(command.copy(alloc)?)),
            Step::Dispatch(command) => Ok(Step::Dispatch(command.copy(alloc)?)),
            Step::Later(steps) => match steps.copy(alloc) {
                Ok(steps) => Ok(Step::Later(steps)),
                Err(error) => Err(error),
            },
        }
    }
}

/// Equal steps.
#[cycle(copy)]
fn copy_steps(alloc: Global, steps: &[Step]) -> Result<Vec<Step>, NoMemory>
    ensures { IfOk result (λ made. made.items ≡ steps.now) }
{
    let mut made = Vec::new(alloc);
    for step in steps {
        match step.copy(alloc) {
            Ok(step) => made.push(step)?,
            Err(error) => return Err(error),
        }
    }
    Ok(made)
}
