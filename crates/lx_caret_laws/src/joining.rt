ghost use Rattle.lx_caret_laws.specs.Joining.{JoiningKeepsText};

/// What is deleted back at the start of a line, or forward at the end of one, joins it with the line before or after it:
/// the first reads what both read, and the same is read around them. The caret is between the two. This function does
/// nothing, and its contract is these laws.
pub fn joining_keeps_text()
    ensures { JoiningKeepsText }
{}
