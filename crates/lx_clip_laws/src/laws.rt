//! What holds of slices that are copied and put in again.

ghost use Rattle.lx_clip_laws.specs.Between.{PastedStandBetween};
ghost use Rattle.lx_clip_laws.specs.Copies.{SlicesAreReadBack};
ghost use Rattle.lx_clip_laws.specs.Pastes.{CopiesArePasted};

/// A slice is read back: the new nodes have the trees that the selection covered, but for their keys. It is only refused by
/// limits. `slice` says of what it covers that it is a copy. This function does nothing, and its contract is these laws.
pub fn slices_are_read_back()
    ensures { SlicesAreReadBack }
{}

/// Nodes that are put in at a point, around a block or after one stand in order between what stood before the place and what
/// stood after it, each with its tree as it was made. This function does nothing, and its contract is these laws.
pub fn pasted_stand_between()
    ensures { PastedStandBetween }
{}

/// A slice of a document that is inserted or pasted has in the end the trees that the selection covered, whichever way it goes:
/// at a point, between the parts of a block or after a node, also where a text or a link was split for it. This function does
/// nothing, and its contract is these laws.
pub fn copies_are_pasted()
    ensures { CopiesArePasted }
{}
