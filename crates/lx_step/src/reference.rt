ghost use Rattle.std.specs.Prelude.{◌≡◌, IfOk};

use lx_node::{Copied, Key, NoMemory, PointKind, Sequence, Txt};
use std::alloc::Global;

/// How a step names a node.
#[derive(Debug, Drop)]
pub enum Reference {
    Key(Key),
    /// The node of the anchor of the range that is selected when the step runs.
    Anchor,
    /// The node of that range's focus.
    Focus,
    /// The text block in which that range's anchor lies.
    Block,
    /// The node to which an earlier step of the line gave the name.
    Name(Txt),
}

/// A list of references.
pub type References = Sequence<Reference>;

/// How a step names a point: a node, an offset in it (in UTF-16 code units of a text, or in children of an
/// element), and which of the two the offset counts.
#[derive(Debug, Drop)]
pub struct PointRef {
    pub node: Reference,
    pub offset: u64,
    pub kind: PointKind,
}

/// How a step names what is to be selected.
#[derive(Debug, Drop)]
pub enum SelectionRef {
    Nothing,
    /// A range. Without a format it takes that of the anchor's text, or else 0.
    Range {
        anchor: PointRef,
        focus: PointRef,
        format: Option<u16>,
    },
    Nodes(References),
    Cells {
        table: Reference,
        anchor: Reference,
        focus: Reference,
    },
}

impl Copied for Reference {
    /// An equal reference. It takes memory for its name, where it is one.
    fn copy(&self, alloc: Global) -> Result<Reference, NoMemory> {
        match self {
            Reference::Key(key) => Ok(Reference::Key(*key)),
            Reference::Anchor => Ok(Reference::Anchor),
            Reference::Focus => Ok(Reference::Focus),
            Reference::Block => Ok(Reference::Block),
            Reference::Name(name) => Ok(Reference::Name(name.copy(alloc)?)),
        }
    }
}

impl PointRef {
    /// An equal one. It takes memory for the name of its node, where it has one.
    pub fn copy(&self, alloc: Global) -> Result<PointRef, NoMemory>
        ensures { IfOk result (λ made. made ≡ self.now) }
    {
        Ok(PointRef {
            node: self.node.copy(alloc)?,
            offset: self.offset,
            kind: self.kind,
        })
    }
}

impl SelectionRef {
    /// An equal one. It takes memory for the names in it, and for the list of nodes.
    pub fn copy(&self, alloc: Global) -> Result<SelectionRef, NoMemory>
        ensures { IfOk result (λ made. made ≡ self.now) }
    {
        match self {
            SelectionRef::Nothing => Ok(SelectionRef::Nothing),
            SelectionRef::Range {
                anchor,
                focus,
                format,
            } => Ok(SelectionRef::Range {
                anchor: anchor.copy(alloc)?,
                focus: focus.copy(alloc)?,
                format: *format,
            }),
            SelectionRef::Nodes(nodes) => Ok(SelectionRef::Nodes(nodes.copy(alloc)?)),
            SelectionRef::Cells {
                table,
                anchor,
                focus,
            } => Ok(SelectionRef::Cells {
                table: table.copy(alloc)?,
                anchor: anchor.copy(alloc)?,
                focus: focus.copy(alloc)?,
            }),
        }
    }
}
