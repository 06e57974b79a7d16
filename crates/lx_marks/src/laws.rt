ghost use Rattle.lx_marks.specs.Laws.{MarksAreTold};

/// What is marked after each mark, as equations for all keys: this function does nothing, and its contract
/// is the laws of marks.
pub fn marks_are_told()
    ensures { MarksAreTold }
{}
