//! What holds of the caret's commands as they are dispatched, for the crates above.

ghost use Rattle.lx_update.specs.Laws.{CaretCommandsLie};

/// A command at the caret that isn't refused leaves a selection that lies in the root's tree, with whatever is sent: so does
/// `insert-paragraph` where an item without children ends its list. It is claimed of a draft in order, whose nodes hold what
/// they may and whose texts are short. This function does nothing, and its contract is this law.
pub fn caret_commands_lie()
    ensures { CaretCommandsLie }
{}
