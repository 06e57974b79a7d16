use lx_host::Ops;
use lx_node::{Cause, Txt};
use lx_select::Selection;

/// The answer to a line.
#[derive(Drop)]
pub enum Reply {
    /// The line made commit `number`, and these operations bring a view up to date. For a dispatch it says
    /// whether the command was handled. Where replies include the view, it is the HTML after the commit.
    Committed {
        number: u32,
        ops: Ops,
        handled: Option<bool>,
        view: Option<Txt>,
    },
    /// The line changed nothing, for this cause. The step is its index in the line's script, from 0.
    Refused {
        cause: Cause,
        step: Option<u32>,
    },
    /// The line asked for nothing that isn't so already. For a dispatch it says whether the command was handled.
    Idle {
        handled: Option<bool>,
    },
    /// The line waits for one that commits it, and with it so many do.
    Gathered(u32),
    /// The line registered a listener, and this is its number, from 1.
    Registered(u32),
    /// The line made the history forget its entries.
    Cleared,
    /// The HTML of the view, for a line that asked for it.
    View(Txt),
    /// The committed selection, for a line that asked for it.
    Selection(Selection),
    /// How many entries the history has to go forth to, and to go back to, for a line that asked for it.
    History {
        redo: u32,
        undo: u32,
    },
}
