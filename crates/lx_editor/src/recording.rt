use lx_step::Tags;

/// How a commit is recorded in the history: by what its line's tags say, and at which time, in milliseconds.
#[derive(Clone, Copy)]
pub(crate) struct Recording {
    pub(crate) tags: Tags,
    pub(crate) moment: u64,
}
