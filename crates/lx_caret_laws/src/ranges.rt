ghost use Rattle.lx_caret_laws.specs.Ranges.{RangesGiveWay};

/// What is selected from one text to another of the same parent goes, or gives way to what is typed or to a new
/// paragraph: what was before it and what was after it is read still, and each node that holds neither text stays as it
/// was. This function does nothing, and its contract is these laws.
pub fn ranges_give_way()
    ensures { RangesGiveWay }
{}
