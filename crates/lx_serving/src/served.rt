use crate::layer::Layer;
use crate::noting::answer_beside_outline;
use crate::passing::answer_beside;
use crate::setup::Setup;
use lx_editor::{Editor, answer_line};
use lx_node::NoMemory;
use lx_value::Room;
use std::alloc::Global;
use std::marker::Model;

/// An editor, and what is beside it: nothing; a hub, whose tip is the editor's view and which has taken a batch for
/// each commit; or an outline, which is that of the committed tree.
pub struct Served {
    editor: Editor,
    layer: Layer,
}

// Written out, so that who drops one calls this.
impl Drop for Served {
    fn drop(self) {
        let Served { editor, layer } = self;
        drop(editor);
        drop(layer);
    }
}

impl Model for Served {
    ghost use Rattle.std.specs.Coded.{codes};
    ghost use Rattle.lx_trees.specs.Trees.{trees_code};
    ghost use Rattle.lx_step.specs.contracts.step.Steps as steps;
    ghost use Rattle.lx_serving.specs.Served.{Served, IsBeside};

    ghost Value = { Served };

    ghost coded = { Prim.hlevel (codes, trees_code, steps.the_row.coded) };

    ghost view = { λ s. record { editor = s.editor; layer = s.layer } };

    ghost invariant = { λ s. IsBeside s.editor s.layer };
}

impl Served {
    ghost use Rattle.std.specs.Prelude.{◌≡◌, ◌+◌, ◌<◌, ◌≤◌, IfOk, OnErr};
    ghost use Rattle.lx_node.specs.Limits.{last_u32};
    ghost use Rattle.lx_serving.specs.Served.{AnswersIn, IsLeftIn, new_served, spent};

    /// A new editor, and what is to be kept beside it: a new hub, the outline of the new editor's tree, or nothing.
    pub fn new(alloc: Global, setup: Setup) -> Result<Served, NoMemory>
        ensures { IfOk result (λ made. made ≡ new_served setup) }
    {
        let layer = Layer::new(alloc, setup.beside)?;
        let editor = Editor::new(alloc, setup.view, setup.delay as u64)?;
        Ok(Served { editor, layer })
    }

    /// Answers a line of bytes, without its end, with the bytes of a reply. Beside a hub a line whose value is an object with
    /// the one member `hub` is the hub's own, and beside an outline one with the one member `ask` is about that: the editor stays
    /// as it is, its time too. Any other line is the editor's, and where it commits, its operations are published, or
    /// the outline follows. Where memory runs out an editor with nothing beside it is as `answer_line` leaves it, and
    /// beside a hub or an outline each later line is out of memory too. The room is lent to any number of lines, one
    /// after another.
    pub fn answer(
        &mut self,
        alloc: Global,
        line: &[u8],
        room: &mut Room,
    ) -> Result<Vec<u8>, NoMemory>
        requires { spent self.old < last_u32 }
        ensures answer { IfOk result (λ reply. AnswersIn self.old line.now reply.items self.new) }
        ensures spent { spent self.new ≤ spent self.old + 1 }
        ensures left { OnErr result (IsLeftIn self.old line.now self.new) }
    {
        let answer = match &mut self.layer {
            Layer::Plain => return answer_line(alloc, &mut self.editor, line, room),
            Layer::Hub(hub) => answer_beside(alloc, &mut self.editor, hub, line, room),
            Layer::Outline(outlined) => {
                answer_beside_outline(alloc, &mut self.editor, outlined, line, room)
            }
            Layer::Gone => return Err(NoMemory),
        };
        match answer {
            Ok(reply) => Ok(reply),
            Err(NoMemory) => {
                self.layer.let_go();
                Err(NoMemory)
            }
        }
    }
}
