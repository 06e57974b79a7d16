ghost use Rattle.lx_caret_laws.specs.Spans.{SpansGiveWay};

/// What is selected from one text to another goes wherever the two are, in one block or in two, or gives way to what is
/// typed or to a new paragraph. What was before it and what was after it is read still, and each node that holds neither
/// text stays as it was.
/// Where the blocks are joined, the first reads its front and then the rest of the last. This function does nothing, and
/// its contract is these laws.
pub fn spans_give_way()
    ensures { SpansGiveWay }
{}
