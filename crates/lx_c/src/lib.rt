//! A face for C: one call answers a session, from the bytes of its lines to the bytes of their replies. `examples/c/lx_c.h`
//! declares it.
#![tactic(auto)]

ghost use Rattle.std.specs.Prelude.{◌≡◌, ◌≤◌, ◌⊎◌, length, take, drop};
ghost use Rattle.lx_cli.specs.declared.status.Status.TheVariants.{Memory};
ghost use Rattle.lx_c.specs.Sessions.{IsAnswered};

mod session;

use lx_cli::Status;
use session::run_session;
use std::alloc::Global;

/// Answers a session as the program does without arguments: the input is lines, and the output begins with their replies, of
/// `written` bytes. What comes after them in the output stays. The number is that of the status with which the run ended:
/// 0 where all is answered, 4 where the output has no room for all replies, 5 where memory was wanting, and 6 where the input
/// has more than 16,777,216 bytes. Each call begins with a new editor. It takes memory for a copy of the input and for as
/// many bytes as the output has.
#[tactic(auto, using(crate::proofs::Sessions::answered, crate::proofs::Sessions::answered_none))]
#[unsafe(no_mangle)]
pub extern "C" fn lx_answer(
    alloc: Global,
    input: &[u8],
    output: &mut [u8],
    written: &mut usize,
) -> u8
    ensures within { written.new ≤ length output.new }
    ensures answered { IsAnswered result input.now (take written.new output.new) }
    ensures behind { drop written.new output.new ≡ drop written.new output.old }
{
    let (status, count) = match run_session(alloc, input, output.len()) {
        Ok((status, sink)) => put_replies(status, sink.taken(), output),
        Err(_) => (Status::Memory, 0),
    };
    *written = count;
    status.number()
}

/// Puts the replies at the front of the output, and answers the status and how many bytes they have. A sink never takes more
/// than it was given room for, though what is known of a run doesn't say so: where they didn't fit, memory would be said to be
/// wanting.
fn put_replies(status: Status, replies: &[u8], output: &mut [u8]) -> (Status, usize)
    ensures within { result.1 ≤ length output.new }
    ensures put { ((result.0 ≡ status) × (take result.1 output.new ≡ replies.now)) ⊎ ((result.0 ≡ Memory) × (result.1 ≡ 0)) }
    ensures behind { drop result.1 output.new ≡ drop result.1 output.old }
{
    let count = replies.len();
    if count > output.len() {
        return (Status::Memory, 0);
    }
    output[..count].copy_from_slice(replies);
    (status, count)
}
