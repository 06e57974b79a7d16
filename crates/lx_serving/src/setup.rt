/// What is kept beside an editor.
#[derive(Clone, Copy)]
pub enum Beside {
    /// Nothing.
    Nothing,
    /// Views that lag behind commits.
    Hub,
    /// An outline that is kept by the events of commits.
    Outline,
}

/// What an editor begins with.
#[derive(Clone, Copy)]
pub struct Setup {
    /// What is kept beside it.
    pub beside: Beside,
    /// Whether the reply to each commit also tells the view.
    pub view: bool,
    /// The delay of the history in milliseconds.
    pub delay: u32,
}
