//! A whole session: its lines run one after another, and what they lead to is summed up.

ghost use Rattle.std.specs.Prelude.{◌≡◌, ◌+◌, ◌<◌, ◌≤◌, IfOk, OnOk};
ghost use Rattle.lx_node.specs.Limits.{last_u32};
ghost use Rattle.lx_generator.specs.Sessions.{IsSession, IsSummary, LeadTo, commands_behind, summary_of};

use crate::lines::{command_drawn, first_steps, next_number};
use crate::summary::{Summary, write_summary};
use crate::tally::Tally;
use lx_arguments::Generated;
use lx_editor::Editor;
use lx_node::NoMemory;
use lx_step::Tags;
use std::alloc::Global;

/// Runs the session on a new editor whose history has this delay, in milliseconds, and sums it up: the bytes of a JSON
/// object, without a line end. The lines are an update, which makes a paragraph with the caret in it, and dispatches of
/// commands that its numbers give: a paragraph, bold, a deletion, an undo, or a letter. Each runs without tags and at
/// time 0.
pub fn tell_session(alloc: Global, session: Generated, delay: u64) -> Result<Vec<u8>, NoMemory>
    requires some { 1 ≤ session.lines }
    ensures { IfOk result (λ bytes. IsSummary session delay bytes.items) }
{
    let mut editor = Editor::new(alloc, false, delay)?;
    let tally = run_lines(alloc, session, &mut editor)?;
    let summary = summary_of(session.lines, &editor, tally)?;
    write_summary(alloc, summary)
}

/// Runs all lines of the session.
fn run_lines(alloc: Global, session: Generated, editor: &mut Editor) -> Result<Tally, NoMemory>
    requires some { 1 ≤ session.lines }
    requires room { editor.old.commits + session.lines ≤ last_u32 }
    ensures { IfOk result (λ tally. IsSession session editor.old editor.new tally) }
{
    let mut tally = Tally::none();
    let steps = first_steps(alloc)?;
    let outcome = editor.update(alloc, steps.as_slice(), Tags::none(), 0)?;
    tally.count(&outcome);
    let number = next_number(session.seed);
    dispatch_all(alloc, session.lines - 1, number, editor, &mut tally)?;
    Ok(tally)
}

/// Dispatches the commands of so many lines, the first of which is the next one to this number, and counts them.
fn dispatch_all(
    alloc: Global,
    count: u32,
    number: u32,
    editor: &mut Editor,
    tally: &mut Tally,
) -> Result<(), NoMemory>
    requires room { editor.old.commits + count ≤ last_u32 }
    requires counts { tally.old.commits + tally.old.idle + tally.old.refused + count ≤ last_u32 }
    ensures { OnOk result (LeadTo (commands_behind count number) editor.old tally.old editor.new tally.new) }
{
    let mut current = number;
    for line in 0..count {
        current = next_number(current);
        let command = command_drawn(alloc, current)?;
        let (_handled, outcome) = editor.dispatch(alloc, &command, Tags::none(), 0)?;
        tally.count(&outcome);
    }
    Ok(())
}

/// The summary of a session of so many lines that ended so.
fn summary_of(lines: u32, editor: &Editor, tally: Tally) -> Result<Summary, NoMemory>
    ensures { IfOk result (λ summary. summary ≡ summary_of lines editor.now tally) }
{
    let html = editor.hosts().print_html()?;
    let (undo, redo) = editor.depths();
    let state = editor.state();
    Ok(Summary {
        characters: state.characters(),
        commits: tally.commits,
        idle: tally.idle,
        lines,
        nodes: state.links.len(),
        redo,
        refused: tally.refused,
        undo,
        view: html.as_str().len() as u64,
    })
}
