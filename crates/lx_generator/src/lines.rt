//! The lines of a session: each has a number, which the number before it gives, and its upper half says what the line
//! does.

ghost use Rattle.std.specs.Prelude.{◌≡◌, ◌<◌, All, IfOk, chars};
ghost use Rattle.lx_step.specs.Sound.{IsSound};
ghost use Rattle.lx_generator.specs.Sessions as sessions;

use lx_node::{Key, NoMemory, PointKind, Txt};
use lx_step::{Command, Payload, PointRef, Reference, SelectionRef, Step};
use std::alloc::Global;

/// The number of the next line.
#[tactic(auto, unfolding(crate::specs::Sessions::next_number))]
pub(crate) fn next_number(number: u32) -> u32
    ensures { result ≡ sessions.next_number number }
{
    let next = (1_664_525 * number as u64 + 1_013_904_223) % 4_294_967_296;
    next as u32
}

/// The place of the caret as a session begins: the start of its first paragraph.
fn caret_place() -> PointRef
    ensures { result ≡ sessions.caret_place }
{
    PointRef {
        node: Reference::Key(Key(1)),
        offset: 0,
        kind: PointKind::Element,
    }
}

/// The steps of the first line: an empty paragraph, and the caret in it.
pub(crate) fn first_steps(alloc: Global) -> Result<Vec<Step>, NoMemory>
    ensures steps { IfOk result (λ steps. steps.items ≡ sessions.first_steps) }
    ensures sound { IfOk result (λ steps. All IsSound steps.items) }
{
    let selection = SelectionRef::Range {
        anchor: caret_place(),
        focus: caret_place(),
        format: None,
    };
    let append = Step::Append(Txt::empty(alloc));
    Ok(vec![in alloc; append, Step::Select(selection)]?)
}

/// The command of the line with this number.
#[tactic(auto, unfolding(crate::specs::Sessions::command_drawn))]
pub(crate) fn command_drawn(alloc: Global, number: u32) -> Result<Command, NoMemory>
    ensures { IfOk result (λ command. command ≡ sessions.command_drawn number) }
{
    command_by(alloc, number / 65_536)
}

fn command_by(alloc: Global, half: u32) -> Result<Command, NoMemory>
    ensures { IfOk result (λ command. command ≡ sessions.command_by half) }
{
    match half % 8 {
        0 => command_alone(alloc, "insert-paragraph"),
        1 => named_command(alloc, "format-text", Txt::new(alloc, "bold")?),
        2 => named_command(alloc, "delete-character", Txt::new(alloc, "back")?),
        3 => command_alone(alloc, "undo"),
        _ => named_command(alloc, "insert-text", letter(alloc, (half / 8) % 26)?),
    }
}

/// A command that nothing is sent with.
fn command_alone(alloc: Global, name: &str) -> Result<Command, NoMemory>
    ensures { IfOk result (λ command. command ≡ record { name = chars name.now; payload = Payload.Nothing }) }
{
    let name = Txt::new(alloc, name)?;
    let payload = Payload::Nothing;
    Ok(Command { name, payload })
}

/// A command that a text is sent with.
fn named_command(alloc: Global, name: &str, text: Txt) -> Result<Command, NoMemory>
    ensures { IfOk result (λ command. command ≡ record { name = chars name.now; payload = Payload.Text text }) }
{
    let name = Txt::new(alloc, name)?;
    let payload = Payload::Text(text);
    Ok(Command { name, payload })
}

/// The letter of `a` to `z` with this number, from 0, as a text.
fn letter(alloc: Global, number: u32) -> Result<Txt, NoMemory>
    requires { number < 26 }
    ensures { IfOk result (λ text. text ≡ sessions.letter number) }
{
    let mut text = String::new(alloc);
    text.push((b'a' + number as u8) as char)?;
    Ok(Txt::of(text))
}
