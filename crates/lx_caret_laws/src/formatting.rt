ghost use Rattle.lx_caret_laws.specs.Formatting.{FormattingKeepsText};

/// Formatting changes no character: whatever is selected, the same is read in every block, and in the document. Each node
/// but the covered texts and their parents stays as it was. This function does nothing, and its contract is these laws.
pub fn formatting_keeps_text()
    ensures { FormattingKeepsText }
{}
