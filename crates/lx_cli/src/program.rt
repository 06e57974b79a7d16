ghost use Rattle.std.specs.Prelude.{◌≡◌, ◌<◌, ◌≤◌, true, ℕ, List, [], length, map, string_bytes};
ghost use Rattle.lx_arguments.specs.Arguments.{are_taken, asked_for, delay_asked};
ghost use Rattle.lx_serving.specs.declared.setup.Setup.{Setup as SetupOf};
ghost use Rattle.lx_cli.specs.Run.{SourceSeen, source_seen, setup_of, sink_seen, IsServedRun};
ghost use Rattle.lx_cli.specs.Generating.{IsGeneratedRun, RunsAsAsked};
ghost use Rattle.lx_cli.specs.Steps.{IsNew};

use crate::reading::{Stop, new_buffer, read_lines};
use crate::session::{LINE_END, Session};
use crate::status::Status;
use crate::writing::write_all;
use lx_arguments::{Generated, Mode, Options, Refused, options_of};
use lx_generator::tell_session;
use lx_io::{Failed, Sink, Source};
use lx_node::NoMemory;
use lx_serving::{Beside, Setup};
use std::alloc::Global;

/// Runs the program: answers each line of the source into the sink. The arguments are those of the command line after
/// the program's name: `--view`, under which replies to commits include the view, and `--delay` with a number of
/// milliseconds from 0 to 86,400,000, in which typing goes on in one entry of the history. With `--hub`, which may be
/// beside both, each commit is published to views that lag behind, and lines about views are answered too. With
/// `--outline`, likewise, an outline follows each commit, and lines that ask about it are answered too. With
/// `--generate`, a number of lines from 1 to 20,000, and `--seed`, a number up to 4,294,967,295, nothing is read: a
/// session is generated and run, and its summary is written. Other arguments are refused, and nothing is read or
/// written.
pub fn run<S: Source, K: Sink>(
    alloc: Global,
    words: &[String],
    source: &mut S,
    sink: &mut K,
) -> Status
    ensures { (read written : List ℕ) × RunsAsAsked result (record {
      words = map string_bytes words.now;
      read = read;
      written = written;
      source_before = source_seen S.left S.faults S.reads source.old;
      source_after = source_seen S.left S.faults S.reads source.new;
      sink_before = sink_seen K.taken K.faults K.writes sink.old;
      sink_after = sink_seen K.taken K.faults K.writes sink.new;
    }) }
{
    match options_of(alloc, words) {
        Ok(options) => match options.mode {
            Mode::Plain => serve(alloc, setup(options, Beside::Nothing), source, sink),
            Mode::Hub => serve(alloc, setup(options, Beside::Hub), source, sink),
            Mode::Outline => serve(alloc, setup(options, Beside::Outline), source, sink),
            Mode::Generate(session) => generate(alloc, session, options.delay, sink),
        },
        Err(Refused::Usage) => Status::Usage,
        Err(Refused::Memory) => Status::Memory,
    }
}

/// What the editor begins with, by what is asked for and what is to be beside it.
fn setup(options: Options, beside: Beside) -> Setup
    ensures { result ≡ record { beside = beside; view = options.view; delay = options.delay } }
{
    Setup {
        beside,
        view: options.view,
        delay: options.delay,
    }
}

/// Runs a session that is generated, and writes its summary and a line end.
fn generate<K: Sink>(alloc: Global, session: Generated, delay: u32, sink: &mut K) -> Status
    requires some { 1 ≤ session.lines }
    ensures { (words : List (List ℕ)) (source : SourceSeen) → delay ≡ delay_asked words → (written : List ℕ) × IsGeneratedRun result session (record {
      words = words;
      read = [];
      written = written;
      source_before = source;
      source_after = source;
      sink_before = sink_seen K.taken K.faults K.writes sink.old;
      sink_after = sink_seen K.taken K.faults K.writes sink.new;
    }) }
{
    let mut summary = match tell_session(alloc, session, delay as u64) {
        Ok(summary) => summary,
        Err(NoMemory) => return Status::Memory,
    };
    match summary.push(LINE_END) {
        Ok(()) => {}
        Err(_) => return Status::Memory,
    }
    match write_all(sink, &summary) {
        Ok(()) => Status::Done,
        Err(Failed) => Status::WriteFault,
    }
}

/// Answers the lines of the source, if there is memory to begin.
fn serve<S: Source, K: Sink>(alloc: Global, setup: Setup, source: &mut S, sink: &mut K) -> Status
    ensures { (words : List (List ℕ)) → are_taken words ≡ true → setup ≡ setup_of (asked_for words) → (read written : List ℕ) × IsServedRun result (record {
      words = words;
      read = read;
      written = written;
      source_before = source_seen S.left S.faults S.reads source.old;
      source_after = source_seen S.left S.faults S.reads source.new;
      sink_before = sink_seen K.taken K.faults K.writes sink.old;
      sink_after = sink_seen K.taken K.faults K.writes sink.new;
    }) }
{
    let mut session = match Session::new(alloc, setup) {
        Ok(session) => session,
        Err(_) => return Status::Memory,
    };
    let mut buffer = match new_buffer(alloc) {
        Ok(buffer) => buffer,
        Err(_) => return Status::Memory,
    };
    answer_all(&mut session, &mut buffer, source, sink)
}

/// Reads the input to its end, and answers its lines and what is after the last line end.
fn answer_all<S: Source, K: Sink>(
    session: &mut Session,
    buffer: &mut [u8],
    source: &mut S,
    sink: &mut K,
) -> Status
    requires session { (setup : SetupOf) × IsNew setup session.old }
    requires buffer { 0 < length buffer.old }
    ensures { (words : List (List ℕ)) → are_taken words ≡ true → IsNew (setup_of (asked_for words)) session.old → (read written : List ℕ) × IsServedRun result (record {
      words = words;
      read = read;
      written = written;
      source_before = source_seen S.left S.faults S.reads source.old;
      source_after = source_seen S.left S.faults S.reads source.new;
      sink_before = sink_seen K.taken K.faults K.writes sink.old;
      sink_after = sink_seen K.taken K.faults K.writes sink.new;
    }) }
{
    match read_lines(session, buffer, source, sink) {
        Stop::End => match session.finish(sink) {
            Ok(()) => Status::Done,
            Err(unanswered) => unanswered.status(),
        },
        stop => stop.status(),
    }
}
