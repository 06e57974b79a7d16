use lx_node::{NoMemory, Txt};
use std::alloc::Global;

/// What a command is given.
#[derive(Debug, Drop)]
pub enum Payload {
    Nothing,
    Text(Txt),
    /// The size of a table, in rows and columns, each from 1 to 50, and whether it has headers.
    Grid {
        rows: u16,
        columns: u16,
        headers: bool,
    },
    /// What the dispatch was given that offers the command to the listener in whose steps this is.
    Given,
}

/// A command: a name, by which listeners are found, and what it is given.
#[derive(Debug, Drop)]
pub struct Command {
    pub name: Txt,
    pub payload: Payload,
}

impl Payload {
    ghost use Rattle.std.specs.Prelude.{◌≡◌, IfOk};

    /// An equal one.
    pub fn copy(&self, alloc: Global) -> Result<Payload, NoMemory>
        ensures { IfOk result (λ made. made ≡ self.now) }
    {
        match self {
            Payload::Nothing => Ok(Payload::Nothing),
            Payload::Text(text) => Ok(Payload::Text(text.copy(alloc)?)),
            Payload::Grid {
                rows,
                columns,
                headers,
            } => Ok(Payload::Grid {
                rows: *rows,
                columns: *columns,
                headers: *headers,
            }),
            Payload::Given => Ok(Payload::Given),
        }
    }
}

impl Command {
    ghost use Rattle.std.specs.Prelude.{◌≡◌, IfOk};

    /// An equal one.
    pub fn copy(&self, alloc: Global) -> Result<Command, NoMemory>
        ensures { IfOk result (λ made. made ≡ self.now) }
    {
        let name = self.name.copy(alloc)?;
        let payload = self.payload.copy(alloc)?;
        Ok(Command { name, payload })
    }
}
