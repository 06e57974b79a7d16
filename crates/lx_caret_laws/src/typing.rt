ghost use Rattle.lx_caret_laws.specs.Typing.{TypingIsRead};

/// What is typed at a caret is read there, between what was before the caret and what was after it. The caret stands
/// after it, and nothing else changes. This function does nothing, and its contract is these laws.
pub fn typing_is_read()
    ensures { TypingIsRead }
{}
