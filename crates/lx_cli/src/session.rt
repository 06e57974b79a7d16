use crate::status::Status;
use crate::writing::write_all;
use lx_io::{Failed, Sink};
use lx_node::NoMemory;
use lx_serving::{Served, Setup};
use lx_value::Room;
use memchr::memchr;
use std::alloc::Global;

/// The byte that ends a line, and a reply.
pub(crate) const LINE_END: u8 = b'\n';

/// Why a line was not answered.
#[derive(Clone, Copy)]
pub(crate) enum Unanswered {
    /// A write failed. A front of the reply was written.
    WriteFault,
    /// Memory ran out.
    Memory,
}

impl Unanswered {
    ghost use Rattle.std.specs.Prelude.{◌≡◌};
    ghost use Rattle.lx_cli.specs.Steps.{unanswered_status};

    /// How the run ends.
    pub(crate) fn status(self) -> Status
        ensures { result ≡ unanswered_status self }
    {
        match self {
            Unanswered::WriteFault => Status::WriteFault,
            Unanswered::Memory => Status::Memory,
        }
    }
}

/// What is kept between two bytes of the input: the editor with what is beside it, the bytes that no line end has ended
/// yet, and the room that lines are read in.
#[derive(Drop)]
pub(crate) struct Session {
    alloc: Global,
    served: Served,
    pending: Vec<u8>,
    room: Room,
}

impl Session {
    ghost use Rattle.std.specs.Prelude.{◌≡◌, ◌+◌, ◌*◌, ◌<◌, [], ◌∷◌, ◌++◌, length, IfOk, OnOk};
    ghost use Rattle.lx_node.specs.Limits.{last_u32};
    ghost use Rattle.lx_serving.specs.Served.{spent};
    ghost use Rattle.lx_cli.specs.Lines.{last_line};
    ghost use Rattle.lx_cli.specs.Run.{sink_seen};
    ghost use Rattle.lx_cli.specs.Steps.{IsNew, LinesEnd, BytesEnd, IsUnended};

    /// A new editor with what is to be beside it, and no bytes.
    pub(crate) fn new(alloc: Global, setup: Setup) -> Result<Session, NoMemory>
        ensures { IfOk result (IsNew setup) }
    {
        let room = match Room::new(alloc) {
            Ok(room) => room,
            Err(_) => return Err(NoMemory),
        };
        match Served::new(alloc, setup) {
            Ok(served) => Ok(Session {
                alloc,
                served,
                pending: Vec::new(alloc),
                room,
            }),
            Err(no_memory) => Err(no_memory),
        }
    }

    /// Answers the line that waits.
    fn end_line<K: Sink>(&mut self, sink: &mut K) -> Result<(), Unanswered>
        requires { spent self.old.served < last_u32 }
        ensures lines { LinesEnd result (self.old.pending.items ∷ []) self.old.served self.new.served
            (sink_seen K.taken K.faults K.writes sink.old)
            (sink_seen K.taken K.faults K.writes sink.new) }
        ensures emptied { OnOk result (self.new.pending.items ≡ []) }
    {
        let answer = self
            .served
            .answer(self.alloc, &self.pending, &mut self.room);
        let mut reply = match answer {
            Ok(reply) => reply,
            Err(NoMemory) => return Err(Unanswered::Memory),
        };
        match reply.push(LINE_END) {
            Ok(()) => {}
            Err(_) => return Err(Unanswered::Memory),
        }
        match write_all(sink, &reply) {
            Ok(()) => {
                self.pending.clear();
                Ok(())
            }
            Err(Failed) => Err(Unanswered::WriteFault),
        }
    }

    /// Answers the line that these bytes end, after those that wait.
    fn end_line_with<K: Sink>(&mut self, bytes: &[u8], sink: &mut K) -> Result<(), Unanswered>
        requires { spent self.old.served < last_u32 }
        ensures lines { LinesEnd result ((self.old.pending.items ++ bytes.now) ∷ []) self.old.served self.new.served
            (sink_seen K.taken K.faults K.writes sink.old)
            (sink_seen K.taken K.faults K.writes sink.new) }
        ensures emptied { OnOk result (self.new.pending.items ≡ []) }
    {
        match self.pending.extend_from_slice(bytes) {
            Ok(()) => self.end_line(sink),
            Err(_) => Err(Unanswered::Memory),
        }
    }

    /// Takes bytes after those that wait, and answers the lines that they end.
    pub(crate) fn take_piece<K: Sink>(
        &mut self,
        piece: &[u8],
        sink: &mut K,
    ) -> Result<(), Unanswered>
        requires unended { IsUnended self.old.pending.items }
        requires room { spent self.old.served + length self.old.pending.items + length piece.now < last_u32 }
        ensures { BytesEnd result piece.now self.old self.new
            (sink_seen K.taken K.faults K.writes sink.old)
            (sink_seen K.taken K.faults K.writes sink.new) }
    {
        let mut rest = piece;
        'lines: while let Some(end) = memchr(LINE_END, rest) {
            match self.end_line_with(&rest[..end], sink) {
                Ok(()) => {}
                Err(unanswered) => return Err(unanswered),
            }
            rest = &rest[end + 1..];
        }
        match self.pending.extend_from_slice(rest) {
            Ok(()) => Ok(()),
            Err(_) => Err(Unanswered::Memory),
        }
    }

    /// Answers what waits at the end of the input, if that is anything.
    pub(crate) fn finish<K: Sink>(&mut self, sink: &mut K) -> Result<(), Unanswered>
        requires { spent self.old.served < last_u32 }
        ensures { LinesEnd result (last_line self.old.pending.items) self.old.served self.new.served
            (sink_seen K.taken K.faults K.writes sink.old)
            (sink_seen K.taken K.faults K.writes sink.new) }
    {
        if self.pending.is_empty() {
            return Ok(());
        }
        self.end_line(sink)
    }
}
