//! The steps that a line has queued.

ghost use Rattle.std.specs.Prelude.{◌≡◌, Ok, OnOk, IfErr};
ghost use Rattle.lx_node.specs.Limits.{most_counts};
ghost use Rattle.lx_draft.specs.Faults.{TellsStep};
ghost use Rattle.lx_update.specs.Running.{emptied};

use crate::dispatching::{Dispatcher, MOST_NESTED, run_all};
use crate::running::Running;
use lx_bus::Bus;
use lx_node::Fault;
use lx_node::limits::MOST_COUNTS;

/// Runs all that is queued, first in, first out, also what is queued meanwhile: at most 100,000 lists of steps, since
/// each of them came with a count.
#[tactic(auto, using(crate::proofs::Emptied::emptied_step, crate::proofs::Emptied::emptied_done, crate::proofs::Emptied::emptied_none))]
pub(crate) fn run_queue<'a>(bus: &'a Bus, running: &mut Running<'a>) -> Result<(), Fault>
    ensures ok { OnOk result (emptied most_counts bus.now running.old ≡ Ok running.new) }
    ensures err { IfErr result (λ e. TellsStep e (emptied most_counts bus.now running.old)) }
{
    let dispatcher = Dispatcher {
        bus,
        left: MOST_NESTED,
    };
    for _turn in 0..MOST_COUNTS {
        let Some(first) = running.next() else {
            return Ok(());
        };
        run_all(dispatcher, running, first.steps, first.sent)?;
    }
    Ok(())
}
