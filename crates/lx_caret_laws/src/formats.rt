ghost use Rattle.lx_caret_laws.specs.Formats.{FormattingIsExact};

/// What is selected in a normal text gets the format if the text didn't have it, and loses it otherwise. No other
/// character's format changes. A whole text that is formatted twice is as before. This function does nothing, and its
/// contract is these laws.
pub fn formatting_is_exact()
    ensures { FormattingIsExact }
{}
