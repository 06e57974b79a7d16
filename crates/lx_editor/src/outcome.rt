use lx_draft::{Frozen, State};
use lx_host::Ops;
use lx_marks::Marks;
use lx_node::Cause;
use lx_reconcile::Batch;
use lx_step::Turn;
use lx_update::Refusal;

/// What a call made of an editor.
#[derive(Debug, Drop)]
pub enum Outcome {
    /// It made commit `number`, from 1, and these operations bring a view up to date.
    Committed { number: u32, ops: Ops },
    /// It was refused for a cause and changed nothing. The step, from 0, is the one that was refused, where
    /// it was one.
    Refused { cause: Cause, step: Option<u32> },
    /// It asked for nothing that isn't so already.
    Idle,
    /// It is gathered: it waits for a call that commits it. So many updates wait, with this one, from 1 to 100,000.
    Gathered { count: u32 },
}

impl Outcome {
    ghost use Rattle.std.specs.Prelude.{◌≡◌};
    ghost use Rattle.lx_editor.specs.Dispatched as dispatched;

    /// Whether a command is said to be handled that has this outcome: not where it is refused.
    pub(crate) fn unless_refused(&self, handled: bool) -> bool
        ensures { result ≡ dispatched.unless_refused self.now handled }
    {
        match self {
            Outcome::Refused { .. } => false,
            _ => handled,
        }
    }
}

/// What steps, a dispatch or a rule come to, before anything is changed. What is large lies in a box, so that a verdict is
/// handed on without being copied whole.
#[derive(Drop)]
pub(crate) enum Verdict {
    /// What they left is committed, with these operations. The marks that cover the trees before and after are those that are
    /// shown, where a document was loaded, and else those of what is frozen.
    Commit {
        frozen: Box<Frozen>,
        batch: Batch,
        shown: Option<Box<Marks>>,
    },
    /// The history goes to its next entry, a copy of which is this state, with these operations. The marks cover the trees
    /// before and after.
    Turned {
        turn: Turn,
        state: Box<State>,
        batch: Batch,
        marks: Box<Marks>,
    },
    /// They are refused for a cause. The step, from 0, is the one that was refused, where it was one.
    Refused {
        cause: Cause,
        step: Option<u32>,
    },
    /// They ask for nothing that isn't so already.
    Idle,
}

impl Verdict {
    ghost use Rattle.std.specs.Prelude.{◌≡◌, ℕ, false, Option, IfOk, IfErr};
    ghost use Rattle.lx_node.specs.declared.cause.Cause.{Cause as CauseOf};
    ghost use Rattle.lx_update.specs.declared.refusal.Refusal.TheVariants as why;
    ghost use Rattle.lx_editor.specs.declared.outcome.Verdict.TheVariants as verdicts;
    ghost use Rattle.lx_editor.specs.Judged.{is_refused};

    /// The verdict, or the refusal that it is.
    pub(crate) fn or_refusal(self) -> Result<Verdict, Refusal>
        ensures ok { IfOk result (λ verdict. (verdict ≡ self) × (is_refused verdict ≡ false)) }
        ensures err { IfErr result (λ e. (cause : CauseOf) × (step : Option ℕ) × (e ≡ why.Cause cause step) × (self ≡ verdicts.Refused cause step)) }
    {
        match self {
            Verdict::Refused { cause, step } => Err(Refusal::Cause { cause, step }),
            verdict => Ok(verdict),
        }
    }
}
