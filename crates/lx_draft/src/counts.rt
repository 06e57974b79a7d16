ghost use Rattle.std.specs.Prelude.{◌≡◌};
ghost use Rattle.lx_draft.specs.Faults.{over_at};

use crate::draft::Draft;
use lx_node::limits::{MOST_COUNTS, MOST_WRITTEN};
use lx_node::{Cause, Limit};

/// What was reached is beyond the limit: `TooLarge` with both exactly where it is above `most`.
pub fn over(limit: Limit, most: u64, reached: u64) -> Option<Cause>
    ensures { result ≡ over_at limit most reached }
{
    if reached > most {
        Some(Cause::TooLarge(limit, reached))
    } else {
        None
    }
}

impl Draft {
    ghost use Rattle.std.specs.Prelude.{◌+◌, ◌≤◌, ◌<◌, None, Some, Ok, Err, OnOk, IfOk, IfErr, IfNone};
    ghost use Rattle.lx_node.specs.Limits.{most_counts, most_written};
    ghost use Rattle.lx_draft.specs.Working.{HasRoom};
    ghost use Rattle.lx_draft.specs.Faults.{over_counts, over_limits, IsAdmitted};
    ghost use Rattle.lx_draft.specs.Steps.{count_step, wrote};

    /// Takes a count, as a step of a script does that begins, or a listener that is offered a command. It
    /// is refused where 100,000 counts were taken.
    #[tactic(auto, unfolding(crate::specs::Steps::count_step))]
    pub fn count(&mut self) -> Result<(), Cause>
        ensures ok { OnOk result (count_step self.old ≡ Ok self.new) }
        ensures err { IfErr result (λ cause. count_step self.old ≡ Err cause) }
        ensures left { IfErr result (λ cause. self.new ≡ self.old) }
    {
        if let Some(cause) = self.over_counts() {
            return Err(cause);
        }
        self.counted += 1;
        Ok(())
    }

    /// Another count would be one too many.
    pub(crate) fn over_counts(&self) -> Option<Cause>
        ensures over { result ≡ over_counts self.now }
        ensures room { IfNone result (self.now.counted < most_counts) }
        ensures written { self.now.written ≤ most_written }
    {
        if self.counted == MOST_COUNTS {
            Some(Cause::StepLimit)
        } else {
            None
        }
    }

    /// So many scalar values, if the update may write them and take another count.
    #[tactic(auto, using(crate::proofs::Capped::capped_sum))]
    pub(crate) fn admit(&self, more: u64) -> Result<u32, Cause>
        ensures ok { IfOk result (λ n. IsAdmitted n more self.now) }
        ensures err { IfErr result (λ cause. over_limits more self.now ≡ Some cause) }
    {
        if let Some(cause) = self.over_counts() {
            return Err(cause);
        }
        let reached = more.saturating_add(self.written as u64);
        if let Some(cause) = over(Limit::Written, MOST_WRITTEN, reached) {
            return Err(cause);
        }
        Ok(more as u32)
    }

    /// Notes a primitive edit that wrote so many scalar values.
    pub(crate) fn note_edit(&mut self, more: u32)
        requires counts { self.old.counted < most_counts }
        requires written { self.old.written + more ≤ most_written }
        ensures noted { self.new ≡ wrote more self.old }
        ensures room { HasRoom self.new }
    {
        self.counted += 1;
        self.edits += 1;
        self.written += more;
    }
}
