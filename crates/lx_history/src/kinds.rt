/// What a commit does to the history, where the state that it led to becomes current unless it is discarded.
#[derive(Clone, Copy)]
pub enum Action {
    /// The state that was current becomes the newest entry, and there is nothing to go forth to any more.
    Push,
    /// The new state takes the place of the one that was current.
    Merge,
    /// The history stays as it is.
    Discard,
}

/// What kind of typing a commit was. Typing of one kind that goes on in time is one entry.
#[derive(Clone, Copy)]
pub enum Change {
    /// No typing of a single character.
    Other,
    /// A character was written, and the caret is after it.
    Insert,
    /// The character before the caret was taken out.
    DeleteBefore,
    /// The character after the caret was taken out.
    DeleteAfter,
}
