//! The numbers that an editor doesn't go beyond.

/// How many counts one update takes, at most: one for each step that begins, and one for each edit.
pub const MOST_COUNTS: u32 = 100_000;

/// How many Unicode scalar values the edits of one update write, at most.
pub const MOST_WRITTEN: u64 = 16_777_216;

/// How many nodes are above another in a committed state, at most.
pub const MOST_DEPTH: u32 = 48;

/// How many nodes a committed state has, at most, with the root.
pub const MOST_NODES: u64 = 16_384;

/// How many Unicode scalar values are in all strings of a committed state, at most.
pub const MOST_CHARACTERS: u64 = 1_048_576;

/// The greatest key that the next new node of a committed state may get.
pub const MOST_KEY: u64 = 1_048_576;
