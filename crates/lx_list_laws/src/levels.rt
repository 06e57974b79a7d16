//! What holds of an item that goes a level deeper and comes up again.

ghost use Rattle.lx_list_laws.specs.Levels.{LevelsComeAndGo};

/// An item that is indented and then outdented is where it was, unless the items before it and after it are both
/// nesting. This function does nothing, and its contract is this law.
pub fn levels_come_and_go()
    ensures { LevelsComeAndGo }
{}
