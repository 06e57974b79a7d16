ghost use Rattle.std.specs.Prelude.{◌≡◌, IfOk};

use crate::patch::Patch;
use lx_node::{Copied, Fields, Kind, NoMemory, Sequence, Txt};
use std::alloc::Global;

/// A type of nodes, by its row in the table of kinds, from 0 to 14: root, paragraph, heading, quote, list, item, link,
/// table, row, cell, text, tab, break, rule, embed. Headings of all levels are one type, and so are all lists.
#[derive(Clone, Copy, Debug, PartialEq, Eq)]
pub struct TypeRow(pub u8);

impl TypeRow {
    ghost use Rattle.lx_step.specs.Types.{type_of};

    /// The type of a kind.
    #[tactic(auto, unfolding(crate::specs::Types::row_of))]
    pub fn of(kind: Kind) -> TypeRow
        ensures { result ≡ type_of kind }
    {
        TypeRow(match kind {
            Kind::Root => 0,
            Kind::Paragraph => 1,
            Kind::Heading(_) => 2,
            Kind::Quote => 3,
            Kind::List(_) => 4,
            Kind::Item => 5,
            Kind::Link => 6,
            Kind::Table => 7,
            Kind::Row => 8,
            Kind::Cell => 9,
            Kind::Text => 10,
            Kind::Tab => 11,
            Kind::Break => 12,
            Kind::Rule => 13,
            Kind::Embed => 14,
        })
    }
}

/// A rule of a script: at a node of its type where all conditions hold it answers its edits, and else none.
#[derive(Debug, Drop)]
pub struct Rule {
    pub on: TypeRow,
    pub conditions: Conditions,
    pub edits: SelfEdits,
}

/// What a rule asks of a node. The first four hold of texts alone.
#[derive(Debug, Drop)]
pub enum Condition {
    /// The text is this one.
    Text(Txt),
    /// This is a piece of the text.
    Contains(Txt),
    /// The text has a length below this, in UTF-16 code units.
    Shorter(u64),
    /// The format of the text is this one.
    Format(u64),
    /// The parent is of this type.
    Parent(TypeRow),
    /// The sibling right before is of this type, or there is none.
    Previous(Option<TypeRow>),
    /// The sibling right after is of this type, or there is none.
    Next(Option<TypeRow>),
    /// There are no children.
    Childless,
}

/// A list of conditions.
pub type Conditions = Sequence<Condition>;

/// A node that an edit of a rule makes.
#[derive(Debug, Drop)]
pub struct NewNode {
    pub kind: Kind,
    pub fields: Fields,
}

/// An edit of a rule, of the node at which the rule is asked.
#[derive(Debug, Drop)]
pub enum SelfEdit {
    /// Writes members of its fields.
    Set(Patch),
    /// A text grows at its end.
    Add(Txt),
    /// It is removed.
    Remove,
    /// A new node takes its place, and its children too where both are elements.
    Replace(NewNode),
    /// A new element comes around it.
    Wrap(NewNode),
    /// Its children take its place.
    Unwrap,
    /// A new sibling right before it.
    Before(NewNode),
    /// A new sibling right after it.
    After(NewNode),
    /// A new last child.
    Child(NewNode),
    /// The children of the next sibling come here, and that one is removed.
    MergeNext,
}

/// A list of edits.
pub type SelfEdits = Sequence<SelfEdit>;

impl NewNode {
    /// An equal one. It takes memory for the texts in its fields.
    pub fn copy(&self, alloc: Global) -> Result<NewNode, NoMemory>
        ensures { IfOk result (λ made. made ≡ self.now) }
    {
        Ok(NewNode {
            kind: self.kind,
            fields: self.fields.copy(alloc)?,
        })
    }
}

impl Copied for SelfEdit {
    /// An equal edit. It takes memory for the texts in it, and for the list of members of a patch.
    fn copy(&self, alloc: Global) -> Result<SelfEdit, NoMemory> {
        match self {
            SelfEdit::Set(patch) => Ok(SelfEdit::Set(patch.copy(alloc)?)),
            SelfEdit::Add(text) => Ok(SelfEdit::Add(text.copy(alloc)?)),
            SelfEdit::Remove => Ok(SelfEdit::Remove),
            SelfEdit::Replace(new) => Ok(SelfEdit::Replace(new.copy(alloc)?)),
            SelfEdit::Wrap(new) => Ok(SelfEdit::Wrap(new.copy(alloc)?)),
            SelfEdit::Unwrap => Ok(SelfEdit::Unwrap),
            SelfEdit::Before(new) => Ok(SelfEdit::Before(new.copy(alloc)?)),
            SelfEdit::After(new) => Ok(SelfEdit::After(new.copy(alloc)?)),
            SelfEdit::Child(new) => Ok(SelfEdit::Child(new.copy(alloc)?)),
            SelfEdit::MergeNext => Ok(SelfEdit::MergeNext),
        }
    }
}
