//! Replays stored sessions, each on a new editor, as the program `lexical` answers them. So one stored run shows many replies.
//!
//! Standard input holds the sessions one after another. A line `=== NAME` begins each, and comes out again before its
//! replies. A line that is too long to be stored, or has no end, is made of one that stands for it:
//!
//! - `*** steps COUNT STEP`: an update with the step so many times,
//! - `*** times COUNT LINE`: the line so many times,
//! - `*** keys COUNT`: so many key presses: letters, and now and then a space, a deletion, a break, or bold on or off,
//! - `*** letters COUNT`: an update that appends a text of so many letters,
//! - `*** deep COUNT`: a load of so many lists and items, each below the one before it,
//! - `*** wide COUNT`: a load of so many paragraphs,
//! - `*** blocks COUNT`: a load of so many quotes, each of 99 paragraphs,
//! - `*** texts COUNT`: a load of a paragraph of so many texts, which come to be one,
//! - `*** long COUNT`: a load of one text of so many letters,
//! - `*** unended LINE`: the line without its end, at the end of a session.
//!
//! A line `*** words WORD WORD` gives the session arguments of the command line. A line `*** last` says that of its replies
//! the last alone comes out. Where a session isn't done, what is said of that comes out after its replies.
//!
//! Of a reply of more than 4,096 bytes the first 60 come out, and then its number of bytes.
#![tactic(auto)]

mod lines;
mod sessions;

use std::io::Read;

fn main(rt: HostRuntime) -> anyhow::Result<()> {
    let mut input = Vec::new(rt.alloc());
    rt.stdin().read_to_end(&mut input)?;
    sessions::replay(rt.alloc(), &input, &mut rt.stdout())
}
