ghost use Rattle.lx_edit_laws.specs.Wraps.{WrapsAreTold};

/// What wrapping, unwrapping, moving children and replacing leave, and that the second undoes the first. This function
/// does nothing, and its contract is these laws.
pub fn wraps_are_told()
    ensures { WrapsAreTold }
{}
