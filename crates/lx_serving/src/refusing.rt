//! The replies to lines that ask for nothing.

ghost use Rattle.std.specs.Prelude.{◌≡◌, IfOk};
ghost use Rattle.lx_serving.specs.Passing.{IsReplyToFault};
ghost use Rattle.lx_serving.specs.Replies.{refused_text};

use lx_node::{Cause, Fault, NoMemory};
use lx_script::{Reply, write_reply};
use std::alloc::Global;

/// The reply to a value of a layer's own that asks for nothing: it is refused as no command, and for no step.
pub(crate) fn refuse(alloc: Global) -> Result<Vec<u8>, NoMemory>
    ensures { IfOk result (λ reply. reply.items ≡ refused_text) }
{
    refuse_for(alloc, Fault::Cause(Cause::BadCommand))
}

/// The reply to what is refused for a fault, and for no step. Where memory ran out there is none.
pub(crate) fn refuse_for(alloc: Global, fault: Fault) -> Result<Vec<u8>, NoMemory>
    ensures { IfOk result (λ reply. IsReplyToFault fault reply.items) }
{
    match fault {
        Fault::Cause(cause) => write_reply(alloc, &Reply::Refused { cause, step: None }),
        Fault::Memory => Err(NoMemory),
    }
}
