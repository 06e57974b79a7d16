ghost use Rattle.lx_edit_laws.specs.Joins.{JoinsAreTold};

/// What a join leaves, and that it undoes a split. This function does nothing, and its contract is these laws.
pub fn joins_are_told()
    ensures { JoinsAreTold }
{}
