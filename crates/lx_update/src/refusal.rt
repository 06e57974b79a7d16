use lx_node::Cause;

/// Why nothing is left of a draft.
#[derive(Drop)]
pub enum Refusal {
    /// It is refused for a cause. The step, from 0, is the one of the line's own steps that was running, where it
    /// was one.
    Cause { cause: Cause, step: Option<u32> },
    /// Memory ran out.
    Memory,
}
