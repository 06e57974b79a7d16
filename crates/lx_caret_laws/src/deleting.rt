ghost use Rattle.lx_caret_laws.specs.Deleting.{DeletingIsExact};

/// What is deleted is exactly what is selected in a text, or the cluster or word beside the caret: the text reads what
/// was before it and what was after it, the caret stands between, and nothing else changes. This function does
/// nothing, and its contract is these laws.
pub fn deleting_is_exact()
    ensures { DeletingIsExact }
{}
