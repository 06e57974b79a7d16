use crate::lines::Session;
use anyhow::Result;
use lx_cli::run;
use lx_io::{MemorySink, MemorySource};
use std::alloc::Global;
use std::io::Write;

/// What begins a session.
const HEAD: &[u8] = b"=== ";

/// How many bytes of replies a session may have.
const ROOM: usize = 8_388_608;

/// How many bytes are read or written at a time.
const PIECE: usize = 65_536;

/// How many bytes a reply may have that comes out whole.
const LONGEST: usize = 4096;

/// How many bytes of a longer reply come out.
const SHOWN: usize = 60;

/// Runs each session of the input.
pub(crate) fn replay<W: Write>(alloc: Global, input: &[u8], out: &mut W) -> Result<()> {
    let mut session = Session::new(alloc);
    for line in input.split_inclusive(|byte| *byte == b'\n') {
        if line.starts_with(HEAD) {
            answer(alloc, session, out)?;
            session = Session::new(alloc);
            out.write_all(line)?;
        } else {
            session.add_line(alloc, line)?;
        }
    }
    answer(alloc, session, out)
}

/// Runs one session, and writes its replies, and how it ended where it isn't done.
fn answer<W: Write>(alloc: Global, session: Session, out: &mut W) -> Result<()> {
    let mut source = MemorySource::new(session.input, PIECE, Vec::new(alloc));
    let mut sink = MemorySink::new(alloc, ROOM, PIECE, Vec::new(alloc))?;
    let status = run(alloc, &session.words, &mut source, &mut sink);
    write_replies(sink.taken(), session.tells_last, out)?;
    match status.message() {
        Some(message) => Ok(writeln!(out, "*** {message}")?),
        None => Ok(()),
    }
}

/// Writes the replies, or the last of them alone.
fn write_replies<W: Write>(replies: &[u8], tells_last: bool, out: &mut W) -> Result<()> {
    let mut last: &[u8] = b"";
    for reply in replies.split_inclusive(|byte| *byte == b'\n') {
        if !tells_last {
            write_reply(reply, out)?;
        }
        last = reply;
    }
    if tells_last {
        write_reply(last, out)?;
    }
    Ok(())
}

/// Writes a reply, or where it is long its front and its length.
fn write_reply<W: Write>(reply: &[u8], out: &mut W) -> Result<()> {
    let text = reply.strip_suffix(b"\n").unwrap_or(reply);
    match text.get(..SHOWN) {
        Some(front) if LONGEST < text.len() => {
            out.write_all(front)?;
            writeln!(out, " .. {}", text.len())?;
        }
        _ => out.write_all(reply)?,
    }
    Ok(())
}
