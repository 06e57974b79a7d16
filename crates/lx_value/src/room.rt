use json::Scratch;
use std::alloc::{AllocError, Global};

/// Room for reading: one is made, and lent to each read. It is never cleared between two reads, which costs more than
/// reading a short text does.
#[derive(Drop)]
pub struct Room {
    scratch: Box<Scratch>,
}

impl Room {
    /// Room for texts that have no strings with escapes; a text that is longer than those before takes as much as it has bytes.
    pub fn new(alloc: Global) -> Result<Room, AllocError> {
        Ok(Room {
            scratch: Box::new(alloc, Scratch::new(alloc))?,
        })
    }

    pub(crate) fn scratch(&mut self) -> &mut Scratch {
        &mut self.scratch
    }
}
