use crate::key::Key;
use crate::kind::Kind;
use crate::memory::NoMemory;
use crate::text::Txt;
use thiserror::Error;

/// What a point lies in: a text, or the children of an element.
#[derive(Clone, Copy, Debug, PartialEq, Eq)]
pub enum PointKind {
    Text,
    Element,
}

/// A place: a node, an offset in it (in UTF-16 code units of a text, in children of an element), and which
/// of the two the offset counts.
#[derive(Clone, Copy, Debug, PartialEq, Eq)]
pub struct Point {
    pub key: Key,
    pub offset: u32,
    pub kind: PointKind,
}

/// What a selection is, without its places.
#[derive(Clone, Copy, Debug)]
pub enum SelectionKind {
    Nothing,
    Range,
    Nodes,
    Cells,
}

/// What an editor bounds.
#[derive(Clone, Copy, Debug)]
pub enum Limit {
    Depth,
    Nodes,
    Characters,
    KeyCount,
    Written,
    Hosts,
}

/// What a step named in vain.
#[derive(Debug, Drop)]
pub enum Named {
    Key(Key),
    Name(Txt),
}

/// What of a selection isn't in the tree any more.
#[derive(Clone, Copy, Debug)]
pub enum Lost {
    Point(Point),
    Key(Key),
}

/// Why a line is refused.
#[derive(Debug, Drop)]
pub enum Cause {
    /// The line isn't JSON, or nests deeper than 127.
    BadLine,
    /// The line is JSON, and no command.
    BadCommand,
    UnknownNode(Named),
    WrongKind(Kind),
    BadPlace(u64),
    NoSelection(SelectionKind),
    SelectionLost(Lost),
    NoRest,
    StepLimit,
    DispatchDepth,
    TooLarge(Limit, u64),
    UnknownType(Txt),
    BadState(Txt),
    EmptyState,
    HistoryInside,
    TooManyRules,
}

/// Why a call did nothing: it was refused for a cause, or memory ran out.
#[derive(Debug, Drop, Error)]
pub enum Fault {
    #[error("refused: {0:?}")]
    Cause(Cause),
    #[error("out of memory")]
    Memory,
}

impl From<NoMemory> for Fault {
    ghost use Rattle.std.specs.Prelude.{◌≡◌};
    ghost use Rattle.lx_node.specs.declared.cause.Fault.TheVariants.{Memory};

    ghost from_gives = { λ _ e. e ≡ Memory };

    fn from(_error: NoMemory) -> Fault {
        Fault::Memory
    }
}

impl Cause {
    ghost use Rattle.std.specs.Prelude.{◌≡◌};
    ghost use Rattle.lx_node.specs.Causes.{code_of};

    /// The number of the cause, from 1 to 16.
    #[tactic(auto, unfolding(crate::specs::Causes::code_of))]
    pub fn code(&self) -> u8
        ensures { result ≡ code_of self.now }
    {
        match self {
            Cause::BadLine => 1,
            Cause::BadCommand => 2,
            Cause::UnknownNode(_) => 3,
            Cause::WrongKind(_) => 4,
            Cause::BadPlace(_) => 5,
            Cause::NoSelection(_) => 6,
            Cause::SelectionLost(_) => 7,
            Cause::NoRest => 8,
            Cause::StepLimit => 9,
            Cause::DispatchDepth => 10,
            Cause::TooLarge(_, _) => 11,
            Cause::UnknownType(_) => 12,
            Cause::BadState(_) => 13,
            Cause::EmptyState => 14,
            Cause::HistoryInside => 15,
            Cause::TooManyRules => 16,
        }
    }
}
