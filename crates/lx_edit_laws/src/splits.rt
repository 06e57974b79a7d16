ghost use Rattle.lx_edit_laws.specs.Splits.{SplitsAreTold};

/// What a split leaves. This function does nothing, and its contract is these laws.
pub fn splits_are_told()
    ensures { SplitsAreTold }
{}
