ghost use Rattle.lx_edit.specs.Laws.{EditsAreCovered};
ghost use Rattle.lx_edit.specs.Homed.{EditsAreHomed};

/// Marks show what composite edits change, as they do for the steps that these are made of. This function does
/// nothing, and its contract is these laws.
pub fn edits_are_covered()
    ensures { EditsAreCovered }
{}

/// An edit that puts no other keys than some brings nothing else into the trees of those that it doesn't mark. This
/// function does nothing, and its contract is these laws.
pub fn edits_are_homed()
    ensures { EditsAreHomed }
{}
