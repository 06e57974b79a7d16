ghost use Rattle.lx_text.specs.Laws.{TextsAreTold};

/// How lengths, offsets and pieces of a text go together: this function does nothing, and its contract is the laws.
pub fn texts_are_told()
    ensures { TextsAreTold }
{}
