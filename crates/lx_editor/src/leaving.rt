//! What a draft leaves for a commit.

ghost use Rattle.std.specs.Prelude.{IfOk, IfErr};
ghost use Rattle.lx_update.specs.Refusals.{TellsRefusal};
ghost use Rattle.lx_editor.specs.Updated.{what_is_left, rested_by};
ghost use Rattle.lx_editor.specs.Judged.{IsLeftOf, IsLeftOfImport, LeavesAtRest, MayRest};

use lx_draft::{Draft, Frozen};
use lx_list::number;
use lx_node::Fault;
use lx_rules::AnyRule;
use lx_settle::settle;
use lx_update::Refusal;
use std::alloc::Global;

/// What a draft leaves for a commit: it comes to rest under the rules, its items get their numbers, and it is frozen. No step
/// is refused for it.
pub(crate) fn rest(
    alloc: Global,
    mut draft: Draft,
    rules: &[AnyRule],
) -> Result<Box<Frozen>, Refusal>
    requires may { MayRest draft }
    ensures left { IfOk result (λ frozen. LeavesAtRest draft (what_is_left rules.now frozen.value)) }
    ensures stands { IfOk result (λ frozen. IsLeftOf draft (what_is_left rules.now frozen.value)) }
    ensures imported { IfOk result (λ frozen. IsLeftOfImport draft (what_is_left rules.now frozen.value)) }
    ensures refused { IfErr result (λ e. TellsRefusal e (rested_by rules.now draft)) }
{
    match settle(alloc, &mut draft, rules) {
        Ok(()) => {}
        Err(Fault::Cause(cause)) => return Err(Refusal::Cause { cause, step: None }),
        Err(Fault::Memory) => return Err(Refusal::Memory),
    }
    match number(alloc, &mut draft) {
        Ok(()) => {}
        Err(Fault::Cause(cause)) => return Err(Refusal::Cause { cause, step: None }),
        Err(Fault::Memory) => return Err(Refusal::Memory),
    }
    match draft.freeze() {
        Ok(frozen) => match Box::new(alloc, frozen) {
            Ok(boxed) => Ok(boxed),
            Err(_) => Err(Refusal::Memory),
        },
        Err(Fault::Cause(cause)) => Err(Refusal::Cause { cause, step: None }),
        Err(Fault::Memory) => Err(Refusal::Memory),
    }
}
