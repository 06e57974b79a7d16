ghost use Rattle.std.specs.Prelude.{◌+◌, ◌-◌, ◌≤◌, IfErr};
ghost use Rattle.lx_draft.specs.Rounds.{round_of};
ghost use Rattle.lx_edit.specs.Standing.{Does, Gives};
ghost use Rattle.lx_settle.specs.Acting.{all_asked};
ghost use Rattle.lx_settle.specs.Exhausted.{IsExhausted};
ghost use Rattle.lx_settle.specs.Settling as settling;

use crate::passes::{element_pass, leaf_pass};
use lx_draft::{Draft, Round};
use lx_node::{Cause, Fault};
use lx_rules::Transform;
use std::alloc::Global;

/// A round, or the end of settling: true where nothing was left to handle.
#[tactic(auto, unfolding(crate::specs::Settling::round_step))]
fn round<T: Transform>(alloc: Global, draft: &mut Draft, rules: &[T]) -> Result<bool, Fault>
    ensures gives { Gives (settling.round_step (all_asked T.rows T.answers rules.now) draft.old) (λ rests. (rests, draft.new)) draft.new result }
    ensures refused { IfErr result IsExhausted }
{
    match draft.take_round() {
        Ok(Round::Leaves(leaves)) => {
            leaf_pass(alloc, draft, rules, leaves.items())?;
            Ok(false)
        }
        Ok(Round::Elements(elements)) => {
            element_pass(alloc, draft, rules, elements.items())?;
            Ok(false)
        }
        Ok(Round::Rest) => Ok(true),
        Err(_) => Err(Fault::Memory),
    }
}

/// Rules and joins, round after round, until nothing is left to handle. A round takes the marked leaves, and
/// joins each with what is around it before the rules are asked there; or, where there are none, the
/// marked elements, and the root last. Rules are asked in their order, and an edit that is idle is passed
/// over. It is refused as `NoRest` exactly where a 101st round would begin; where 100,000 counts were taken;
/// where the edits would bring what was written above 16,777,216 scalar values; and for nothing else. A draft
/// on which it was refused is only fit to be dropped.
#[tactic(auto, unfolding(crate::specs::Settling::settle_step), using(crate::proofs::Rounds::stops, crate::proofs::Rounds::goes, crate::proofs::Rounds::tells, crate::proofs::Rounds::last))]
pub fn settle<T: Transform>(alloc: Global, draft: &mut Draft, rules: &[T]) -> Result<(), Fault>
    ensures does { Does (settling.settle_step (all_asked T.rows T.answers rules.now) draft.old) draft.new result }
    ensures refused { IfErr result IsExhausted }
{
    for passed in 0..100u32 {
        if round(alloc, draft, rules)? {
            return Ok(());
        }
    }
    end(draft)
}

/// Settling ends where nothing is left to handle; otherwise a round more would begin than there may be.
#[tactic(auto, using(crate::proofs::Rounds::rest_taken, crate::proofs::Rounds::ended_rest))]
fn end(draft: &mut Draft) -> Result<(), Fault>
    ensures does { Does (settling.ended (round_of draft.old.fresh) draft.old) draft.new result }
    ensures refused { IfErr result IsExhausted }
{
    match draft.take_round() {
        Ok(Round::Rest) => Ok(()),
        Ok(Round::Leaves(_)) => Err(Fault::Cause(Cause::NoRest)),
        Ok(Round::Elements(_)) => Err(Fault::Cause(Cause::NoRest)),
        Err(_) => Err(Fault::Memory),
    }
}
