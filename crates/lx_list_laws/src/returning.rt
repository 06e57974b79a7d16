//! What a block is that was made an item, once its list is removed.

ghost use Rattle.lx_list_laws.specs.Returning.{BlocksComeBack};

/// A block with inline children alone becomes the one item of a new list, and comes back when the list is removed. It is a new
/// paragraph then, in its place and with its children, and nothing else is changed. Points on it go to the paragraph's start, and
/// all others stay. This function does nothing, and its contract is this law.
pub fn blocks_come_back()
    ensures { BlocksComeBack }
{}
