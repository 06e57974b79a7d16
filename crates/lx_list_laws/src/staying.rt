//! Where points may be, so that commands of lists leave them in the tree.

ghost use Rattle.lx_list_laws.specs.Staying.{SelectionsStay};

/// A selection stays in the tree as lists are removed, where in these no point is on a list in an item, nor on an item without a
/// line of its own. It does as lines go a level deeper, where no point is in what an item has behind the list with which it
/// begins. This function does nothing, and its contract is these laws.
pub fn selections_stay()
    ensures { SelectionsStay }
{}
