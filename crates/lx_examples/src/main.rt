//! Shows what steps make of a state. Standard input holds sessions, one after another: a line `=== NAME` begins each, and
//! comes out again. Each other line is an update or a question in JSON, as the program `lexical` reads them. A session
//! begins with the state of a new editor, and each update runs on the state that the one before it left. The line `=> copy`
//! copies what is selected into a new document.
//!
//! An update comes out as one line with what it left: the HTML of the tree, its keys in preorder, the selection, the lines
//! that a range selects, the next key, and the leaves and the elements that it marked, in their order, with `!` after an
//! element that was marked itself.
//! One that is refused leaves the state as it was, and comes out as the reply that says its cause. A question comes out
//! as its reply. A copy comes out as an update does, with what the new document holds, and the session's state stays; where
//! nothing is covered it comes out as a slice does. Rules, listeners and dispatches are refused: nothing comes to rest
//! here, and nobody listens.
#![tactic(auto)]

mod copying;
mod session;
mod telling;

use anyhow::Result;
use session::Session;
use std::alloc::Global;
use std::io::{Read, Write};

/// What begins a session.
const HEAD: &[u8] = b"=== ";

fn main(rt: HostRuntime) -> Result<()> {
    let mut input = Vec::new(rt.alloc());
    rt.stdin().read_to_end(&mut input)?;
    run_all(rt.alloc(), &input, &mut rt.stdout())
}

/// Runs each session of the input.
fn run_all<W: Write>(alloc: Global, input: &[u8], out: &mut W) -> Result<()> {
    let mut session = Session::new(alloc)?;
    for line in input.split_inclusive(|byte| *byte == b'\n') {
        let line = line.strip_suffix(b"\n").unwrap_or(line);
        if line.starts_with(HEAD) {
            session = Session::new(alloc)?;
            out.write_all(line)?;
        } else {
            let answer = session.answer(alloc, line)?;
            out.write_all(answer.as_slice())?;
        }
        out.write_all(b"\n")?;
    }
    Ok(())
}
