ghost use Rattle.lx_caret_laws.specs.Following.{CaretFollows};

/// The caret is right after what is typed at it, after a tab and after a line break, as one reads the document. What is
/// typed next goes into the same text. This function does nothing, and its contract is these laws.
pub fn caret_follows()
    ensures { CaretFollows }
{}
