ghost use Rattle.lx_draft.specs.Laws.{DraftsAreCovered};

/// Marks show what the steps of a draft change: a node that isn't marked itself is as it was, and above each
/// marked node all are marked. This function does nothing, and its contract is these laws.
pub fn drafts_are_covered()
    ensures { DraftsAreCovered }
{}
