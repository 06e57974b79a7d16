//! What holds of every slice that is put into a draft, for the crates above.

ghost use Rattle.lx_clip.specs.Laws.{PastesAreCovered, PastesLie};

/// Marks show whatever a slice changes that is put into a draft, as they do of the edits that this is made of. This
/// function does nothing, and its contract is these laws.
pub fn pastes_are_covered()
    ensures { PastesAreCovered }
{}

/// A slice that is put into a draft leaves a selection that lies in the root's tree: what is pasted does so always, and what is
/// inserted where the selection lay there before. That is claimed of a draft whose texts are short, as `selections_lie` of
/// `lx_caret` claims it of the caret's commands. This function does nothing, and its contract is these laws.
pub fn pastes_lie()
    ensures { PastesLie }
{}
