use lx_cli::{Status, run, run_surely};
use lx_io::{MemorySink, MemorySource, SureSource};
use lx_node::NoMemory;
use std::alloc::Global;
use std::test::Fail;

/// How a run ended, and what took its replies.
#[derive(Drop)]
struct Outcome {
    status: Status,
    sink: MemorySink,
}

/// Runs over this input without arguments. A read gives at most `length` bytes and a write takes at most as many, and
/// those with the numbers in `failing_reads` and `failing_writes` fail.
fn ran(
    alloc: Global,
    input: Vec<u8>,
    length: usize,
    failing_reads: &[u64],
    failing_writes: &[u64],
) -> Result<Outcome, NoMemory> {
    let mut source = MemorySource::new(input, length, failing_reads.to_vec(alloc)?);
    let mut sink = MemorySink::new(alloc, 4096, length, failing_writes.to_vec(alloc)?)?;
    let status = run(alloc, &[], &mut source, &mut sink);
    Ok(Outcome { status, sink })
}

/// Two lines of 14 bytes.
const TWICE: &[u8] = b"{\"update\":[]}\n{\"update\":[]}\n";

const TWICE_REPLY: &[u8] = b"{\"idle\":true}\n{\"idle\":true}\n";

#[test]
fn answers_what_is_read_and_written_byte_by_byte(rt: HostRuntime) -> Result<(), Fail> {
    let ran = ran(rt.alloc(), TWICE.to_vec(rt.alloc())?, 1, &[], &[])?;
    assert!(rt; matches!(ran.status, Status::Done));
    assert_eq!(rt; ran.sink.taken(), TWICE_REPLY);
    Ok(())
}

#[test]
fn answers_all_of_a_source_that_never_fails(rt: HostRuntime) -> Result<(), Fail> {
    let mut source = SureSource::new(TWICE.to_vec(rt.alloc())?);
    let mut sink = MemorySink::new(rt.alloc(), 4096, 4096, Vec::new(rt.alloc()))?;
    let status = run_surely(rt.alloc(), &[], &mut source, &mut sink);
    assert!(rt; matches!(status, Status::Done));
    assert_eq!(rt; sink.taken(), TWICE_REPLY);
    Ok(())
}

/// The front of a text, up to and with so many line ends.
fn first_lines(text: &[u8], lines: usize) -> &[u8] {
    let mut left = lines;
    for (index, byte) in text.iter().enumerate() {
        if left == 0 {
            return &text[..index];
        }
        if *byte == b'\n' {
            left -= 1;
        }
    }
    text
}

fn line_ends(text: &[u8]) -> usize {
    text.iter().filter(|byte| **byte == b'\n').count()
}

/// Five paragraphs, the first of which goes after the others.
const MOVED: &[u8] =
    br#"{"update":[{"append":"a"},{"append":"b"},{"append":"c"},{"append":"d"},{"append":"e"}]}
{"update":[{"put":1,"into":0}]}
"#;

const MOVED_REPLY: &[u8] =
    br#"{"commit":1,"ops":[["create",1,1,"p",{},null,false],["create",2,2,"span",{"data-lexical-text":"true"},"a",false],["place",1,2,null],["place",0,1,null],["create",3,3,"p",{},null,false],["create",4,4,"span",{"data-lexical-text":"true"},"b",false],["place",3,4,null],["place",0,3,null],["create",5,5,"p",{},null,false],["create",6,6,"span",{"data-lexical-text":"true"},"c",false],["place",5,6,null],["place",0,5,null],["create",7,7,"p",{},null,false],["create",8,8,"span",{"data-lexical-text":"true"},"d",false],["place",7,8,null],["place",0,7,null],["create",9,9,"p",{},null,false],["create",10,10,"span",{"data-lexical-text":"true"},"e",false],["place",9,10,null],["place",0,9,null]]}
{"commit":2,"ops":[["place",0,3,1],["place",0,5,1],["place",0,7,1],["place",0,9,1]]}
"#;

/// The bytes that calls before this one moved, where each moves so many.
fn moved_before(text: &[u8], call: usize, each: usize) -> &[u8] {
    let length = call.saturating_sub(1).saturating_mul(each);
    &text[..length.min(text.len())]
}

/// A read gives 7 bytes, and each in turn is the one that fails, up to the one that would find the end.
#[test]
fn a_failing_read_leaves_the_replies_of_lines_that_had_ended(rt: HostRuntime) -> Result<(), Fail> {
    for call in 1..=MOVED.len().div_ceil(7) + 1 {
        let input = MOVED.to_vec(rt.alloc())?;
        let broken = ran(rt.alloc(), input, 7, &[call as u64], &[])?;
        let replies = first_lines(MOVED_REPLY, line_ends(moved_before(MOVED, call, 7)));
        assert_eq!(rt; broken.status.number(), 3, "at read {call}");
        assert_eq!(rt; broken.sink.taken(), replies, "at read {call}");
    }
    Ok(())
}

const GREETING: &[u8] = br#"{"update":[{"append":"Hi"}]}"#;

const GREETING_REPLY: &[u8] =
    br#"{"commit":1,"ops":[["create",1,1,"p",{},null,false],["create",2,2,"span",{"data-lexical-text":"true"},"Hi",false],["place",1,2,null],["place",0,1,null]]}
"#;

/// A write takes 3 bytes, and each in turn is the one that fails.
#[test]
fn a_failing_write_leaves_what_was_taken_before(rt: HostRuntime) -> Result<(), Fail> {
    for call in 1..=GREETING_REPLY.len().div_ceil(3) {
        let input = GREETING.to_vec(rt.alloc())?;
        let cut_off = ran(rt.alloc(), input, 3, &[], &[call as u64])?;
        let taken = moved_before(GREETING_REPLY, call, 3);
        assert_eq!(rt; cut_off.status.number(), 4, "at write {call}");
        assert_eq!(rt; cut_off.sink.taken(), taken, "at write {call}");
    }
    Ok(())
}

/// A read that fails and a write that fails, the number of the status that comes of both, and how many lines are
/// answered. A read gives a line of `TWICE`, and a write takes a reply.
const FIRST_FAILURES: [(u64, u64, u8, usize); 6] = [
    (1, 1, 3, 0),
    (2, 1, 4, 0),
    (2, 2, 3, 1),
    (3, 1, 4, 0),
    (3, 2, 4, 1),
    (3, 3, 3, 2),
];

#[test]
fn the_first_failure_decides(rt: HostRuntime) -> Result<(), Fail> {
    for (read, write, number, answered) in FIRST_FAILURES {
        let both = ran(rt.alloc(), TWICE.to_vec(rt.alloc())?, 14, &[read], &[write])?;
        let replies = first_lines(TWICE_REPLY, answered);
        assert_eq!(rt;
            both.status.number(),
            number,
            "at read {read} and write {write}"
        );
        assert_eq!(rt;
            both.sink.taken(),
            replies,
            "at read {read} and write {write}"
        );
    }
    Ok(())
}
/// So many spaces, and a line after them that has no end.
fn indented(alloc: Global, spaces: usize) -> Result<Vec<u8>, NoMemory> {
    let mut input = vec![in alloc; b' '; spaces]?;
    input.extend_from_slice(b"{}")?;
    Ok(input)
}

const BAD_COMMAND: &[u8] =
    b"{\"refused\":{\"cause\":\"BadCommand\",\"code\":2,\"detail\":null,\"step\":null}}\n";

#[test]
fn reads_no_more_than_the_limit(rt: HostRuntime) -> Result<(), Fail> {
    let input = indented(rt.alloc(), 16_777_214)?;
    let whole = ran(rt.alloc(), input, 65_536, &[], &[])?;
    assert!(rt; matches!(whole.status, Status::Done));
    assert_eq!(rt; whole.sink.taken(), BAD_COMMAND);
    let input = indented(rt.alloc(), 16_777_215)?;
    let longer = ran(rt.alloc(), input, 65_536, &[], &[])?;
    assert!(rt; matches!(longer.status, Status::InputTooLong));
    assert_eq!(rt; longer.sink.taken(), b"".as_slice());
    Ok(())
}

/// Runs with these arguments over `TWICE`.
fn ran_with(alloc: Global, words: &[&str]) -> Result<Outcome, NoMemory> {
    let mut source = MemorySource::new(TWICE.to_vec(alloc)?, 4096, Vec::new(alloc));
    let mut sink = MemorySink::new(alloc, 4096, 4096, Vec::new(alloc))?;
    let mut texts = Vec::new(alloc);
    for word in words {
        texts.push(String::from_str(alloc, word)?)?;
    }
    let status = run(alloc, &texts, &mut source, &mut sink);
    Ok(Outcome { status, sink })
}

#[test]
fn refuses_words(rt: HostRuntime) -> Result<(), Fail> {
    let refused = ran_with(rt.alloc(), &["--delay", "86400001"])?;
    assert_eq!(rt; refused.status.message(), Some("lexical: usage"));
    assert_eq!(rt; refused.sink.taken(), b"".as_slice());
    let taken = ran_with(rt.alloc(), &["--view", "--delay", "86400000"])?;
    assert!(rt; matches!(taken.status, Status::Done));
    assert_eq!(rt; taken.sink.taken(), TWICE_REPLY);
    Ok(())
}
