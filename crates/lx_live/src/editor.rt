//! An editor with the reply to its last line, and how it answers the next one. It knows neither slots nor pointers.
ghost use Rattle.std.specs.Prelude.{◌≡◌, ◌<◌, [], IfOk, OnOk, OnErr};
ghost use Rattle.lx_node.specs.Limits.{last_u32};
ghost use Rattle.lx_editor.specs.Editor.{new_editor};
ghost use Rattle.lx_editor.specs.Follows.{AnswersLine, IsLeftWithout};
ghost use Rattle.lx_live.specs.Live.{number_of_end, IsCallOn, IsPiecePut};

use lx_editor::{Editor, answer_line};
use lx_node::NoMemory;
use lx_value::Room;
use std::alloc::Global;

/// The most bytes that a line may have: as many as an input of the program.
const LINE_LIMIT: usize = 16_777_216;

/// An editor, the room that its lines are read in, and the reply to the line that it answered last.
#[derive(Drop)]
pub struct LiveEditor {
    pub editor: Editor,
    room: Room,
    pub reply: Vec<u8>,
}

/// How a call ended.
#[derive(Clone, Copy)]
pub enum CallEnd {
    /// It was done.
    Done,
    /// There is no editor.
    Closed,
    /// Memory was wanting.
    Memory,
    /// The line is too long.
    TooLong,
    /// The editor has made as many commits as it can number.
    Spent,
}

impl CallEnd {
    /// The number that a caller gets. Those that the program ends with mean the same there.
    pub(crate) fn number(self) -> u8
        ensures { result ≡ number_of_end self }
    {
        match self {
            CallEnd::Done => 0,
            CallEnd::Closed => 1,
            CallEnd::Memory => 5,
            CallEnd::TooLong => 6,
            CallEnd::Spent => 7,
        }
    }
}

impl LiveEditor {
    /// A new editor, and an empty reply.
    pub(crate) fn new(alloc: Global, tells_view: bool, delay: u64) -> Result<LiveEditor, NoMemory>
        ensures { IfOk result (λ made. (made.editor ≡ new_editor tells_view delay) × (made.reply.items ≡ [])) }
    {
        let room = match Room::new(alloc) {
            Ok(room) => room,
            Err(_) => return Err(NoMemory),
        };
        Ok(LiveEditor {
            editor: Editor::new(alloc, tells_view, delay)?,
            room,
            reply: Vec::new(alloc),
        })
    }

    /// Answers a line, and keeps the reply.
    fn reply_to(&mut self, alloc: Global, line: &[u8]) -> Result<(), NoMemory>
        requires { self.old.editor.commits < last_u32 }
        ensures answers { OnOk result (AnswersLine self.old.editor line.now self.new.reply.items self.new.editor) }
        ensures unchanged { OnErr result (IsLeftWithout self.old.editor line.now self.new.editor) }
        ensures kept { OnErr result (self.new.reply ≡ self.old.reply) }
    {
        self.reply = answer_line(alloc, &mut self.editor, line, &mut self.room)?;
        Ok(())
    }
}

/// Answers a line, if it isn't too long and the editor can make one commit more, and puts the reply.
pub(crate) fn answer(
    alloc: Global,
    live: &mut LiveEditor,
    line: &[u8],
    output: &mut [u8],
    length: &mut usize,
) -> CallEnd
    ensures { IsCallOn result live.old live.new line.now output.old output.new length.new }
{
    *length = 0;
    if line.len() > LINE_LIMIT {
        return CallEnd::TooLong;
    }
    if live.editor.commits() == u32::MAX {
        return CallEnd::Spent;
    }
    match live.reply_to(alloc, line) {
        Ok(()) => {}
        Err(_) => return CallEnd::Memory,
    }
    put_reply(live, 0, output, length);
    CallEnd::Done
}

/// Tells how long the reply is, and puts in front of the output what goes in of it from a place on.
pub(crate) fn put_reply(live: &LiveEditor, from: usize, output: &mut [u8], length: &mut usize)
    ensures { IsPiecePut live.now.reply.items from output.old output.new length.new }
{
    let reply = live.reply.as_slice();
    *length = reply.len();
    if from < reply.len() {
        let count = (reply.len() - from).min(output.len());
        output[..count].copy_from_slice(&reply[from..from + count]);
    }
}
