use lx_draft::Draft;
use lx_step::Turn;

/// What a dispatch that is a line comes to.
#[derive(Drop)]
pub enum Ending {
    /// It leaves a draft, and says whether the command was handled.
    Left { draft: Draft, handled: bool },
    /// The history goes to another state, and nothing is left of the draft.
    Turned(Turn),
}

/// What it comes to before what is queued has run. What is worked on is beside it.
#[derive(Clone, Copy)]
pub(crate) enum Ended {
    Ran { handled: bool },
    Turned(Turn),
}
