use lx_node::Key;

/// What is done with a child of an element whose children change.
#[derive(Clone, Copy)]
pub enum Move {
    /// It is among the children before and after, and stays where it is.
    Stay(Key),
    /// It is no child any more.
    Leave(Key),
    /// It is new, and comes before this child, or to the end where none is named.
    Make {
        /// The child that is made.
        key: Key,
        /// The child right after it.
        before: Option<Key>,
    },
    /// It was a child and is one, and comes before this child, or to the end where none is named.
    Place {
        /// The child that is placed.
        key: Key,
        /// The child right after it.
        before: Option<Key>,
    },
}
