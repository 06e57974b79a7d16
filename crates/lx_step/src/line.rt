use crate::command::Command;
use crate::listener::Listener;
use crate::rule::Rule;
use crate::step::Steps;
use serde_json::Value;

/// What a line of input asks for.
#[derive(Debug, Drop)]
pub struct Line {
    /// The time of the line in milliseconds, if it has one.
    pub at: Option<u64>,
    pub tags: Tags,
    pub form: Form,
}

/// What the tags of a line say of how its commit is recorded. Other tags say nothing.
#[derive(Clone, Copy, Debug)]
pub struct Tags {
    /// `historic`: the commit isn't recorded.
    pub historic: bool,
    /// `history-merge`: the commit goes into the entry that is current.
    pub merge: bool,
    /// `history-push`: the commit becomes an entry of its own.
    pub push: bool,
}

/// The form of a line, which says what is done with it.
#[derive(Debug, Drop)]
pub enum Form {
    /// An update by these steps, in their order.
    Update(Steps),
    /// An update by these steps that waits for a line which commits it.
    Defer(Steps),
    /// What waits is committed.
    Flush,
    /// A command that is dispatched.
    Dispatch(Command),
    /// A rule that is registered.
    Rule(Rule),
    /// A listener that is registered.
    Listener(Listener),
    /// A document that takes the place of what is committed.
    Load(Value),
    /// A question, which changes nothing.
    Show(Shown),
    /// The history forgets its entries.
    Clear,
}

impl Tags {
    ghost use Rattle.std.specs.Prelude.{◌≡◌};
    ghost use Rattle.lx_step.specs.Lines.{untagged, both_tags};

    /// No tags.
    pub fn none() -> Tags
        ensures { result ≡ untagged }
    {
        Tags {
            historic: false,
            merge: false,
            push: false,
        }
    }

    /// What these tags and others say together.
    pub fn with(self, others: Tags) -> Tags
        ensures { result ≡ both_tags self others }
    {
        Tags {
            historic: self.historic || others.historic,
            merge: self.merge || others.merge,
            push: self.push || others.push,
        }
    }
}

/// What a line asks to be shown.
#[derive(Clone, Copy, Debug)]
pub enum Shown {
    /// The document that is committed.
    State,
    /// The rendered document.
    View,
    /// What is selected.
    Selection,
    /// How many entries the history has to go back to, and forth to.
    History,
    /// What of the document the selection covers, as a slice.
    Slice,
}
