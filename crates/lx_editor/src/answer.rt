ghost use Rattle.lx_node.specs.Limits.{last_u32};
ghost use Rattle.std.specs.Prelude.{◌≡◌, ◌+◌, ◌<◌, ◌≤◌, IfOk, OnErr};
ghost use Rattle.lx_editor.specs.Follows.{AnswersLine, IsLeftWithout};

use crate::editor::Editor;
use lx_node::{Fault, NoMemory};
use lx_script::{Reply, read_line, write_reply};
use lx_value::Room;
use std::alloc::Global;

/// Answers a line of bytes, without its end, with the bytes of a reply. A line that is refused changes
/// nothing that is committed. Where memory runs out while the bytes are read or refused, the editor is as it was.
/// Where it runs out behind that, the editor is as `Editor::line` leaves it then. The room is lent to any number of
/// lines, one after another.
#[tactic(auto, using(crate::proofs::Waiting::left_as_it_was), unfolding(crate::specs::Follows::AnswersLine))]
pub fn answer_line(
    alloc: Global,
    editor: &mut Editor,
    line: &[u8],
    room: &mut Room,
) -> Result<Vec<u8>, NoMemory>
    requires { editor.old.commits < last_u32 }
    ensures answer { IfOk result (λ reply. AnswersLine editor.old line.now reply.items editor.new) }
    ensures commits { editor.new.commits ≤ editor.old.commits + 1 }
    ensures unchanged { OnErr result (IsLeftWithout editor.old line.now editor.new) }
{
    match read_line(alloc, line, room) {
        Ok(line) => editor.line(alloc, line),
        Err(Fault::Cause(cause)) => write_reply(alloc, &Reply::Refused { cause, step: None }),
        Err(Fault::Memory) => Err(NoMemory),
    }
}
