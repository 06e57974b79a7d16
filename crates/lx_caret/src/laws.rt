//! What holds of every command, for the crates above.

ghost use Rattle.lx_caret.specs.Laws.{CommandsAreCovered, SelectionsLie};

/// Marks show whatever a command changes, as they do of the edits that commands are made of. This function does nothing,
/// and its contract is these laws.
pub fn commands_are_covered()
    ensures { CommandsAreCovered }
{}

/// A command that isn't refused leaves a selection that lies in the root's tree: each point is on a node below the root, or
/// on the root, at a place of its text or between its children. That is claimed of a draft whose texts are short: none has more
/// UTF-16 code units than twice the 1,048,576 scalar values of a committed state and those that the update has written. Beyond
/// 4,294,967,295 code units the last offset may be inside a surrogate pair. This function does nothing, and its contract is
/// these laws.
pub fn selections_lie()
    ensures { SelectionsLie }
{}
