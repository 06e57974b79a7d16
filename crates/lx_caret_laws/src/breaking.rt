ghost use Rattle.lx_caret_laws.specs.Breaking.{BreakingPartsText};

/// A paragraph that is inserted parts what is read in the block of the caret: the block keeps what was read before the
/// caret, and a new block right after it has the rest. The caret is at the start of the new block. This function does
/// nothing, and its contract is these laws.
pub fn breaking_parts_text()
    ensures { BreakingPartsText }
{}
