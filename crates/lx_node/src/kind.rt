use crate::sequence::Sequence;

/// How a list numbers its items.
#[derive(Clone, Copy, Debug, PartialEq, Eq)]
pub enum ListType {
    Bullet,
    Number,
    Check,
}

/// What a node is. A heading has a level from 1 to 6.
#[derive(Clone, Copy, Debug, PartialEq, Eq)]
pub enum Kind {
    Root,
    Paragraph,
    Heading(u8),
    Quote,
    List(ListType),
    Item,
    Link,
    Table,
    Row,
    Cell,
    Text,
    Tab,
    Break,
    Rule,
    Embed,
}

/// A list of kinds.
pub type Kinds = Sequence<Kind>;

impl Kinds {
    ghost use Rattle.std.specs.Prelude.{◌≡◌, length, min, slice_get};

    /// How many kinds there are: from 0 to 4,294,967,295, which also stands for any number above.
    pub fn len(&self) -> u32
        ensures { result ≡ min (length self.now) 4294967295 }
    {
        u32::try_from(self.items().len()).unwrap_or(u32::MAX)
    }

    /// The kind at a place, which counts from 0. None where the list has no such place.
    pub fn at(&self, place: u32) -> Option<Kind>
        ensures { result ≡ slice_get self.now place }
    {
        self.items().get(place as usize).copied()
    }
}

impl Kind {
    ghost use Rattle.std.specs.Prelude.{◌≡◌};
    ghost use Rattle.lx_node.specs.Kinds.{type_name as name_of_type};
    ghost use Rattle.lx_node.specs.Kinds as kinds;

    /// The type of the kind, as documents and replies write it.
    #[tactic(auto, unfolding(crate::specs::Kinds::type_name))]
    pub fn type_name(self) -> &'static str
        ensures { result.now ≡ name_of_type self }
    {
        match self {
            Kind::Root => "root",
            Kind::Paragraph => "paragraph",
            Kind::Heading(_) => "heading",
            Kind::Quote => "quote",
            Kind::List(_) => "list",
            Kind::Item => "listitem",
            Kind::Link => "link",
            Kind::Table => "table",
            Kind::Row => "tablerow",
            Kind::Cell => "tablecell",
            Kind::Text => "text",
            Kind::Tab => "tab",
            Kind::Break => "linebreak",
            Kind::Rule => "horizontalrule",
            Kind::Embed => "embed",
        }
    }

    /// Whether nodes of the kind may have children.
    #[tactic(auto, unfolding(crate::specs::Kinds::is_element))]
    pub fn is_element(self) -> bool
        ensures { result ≡ kinds.is_element self }
    {
        !matches!(
            self,
            Kind::Text | Kind::Tab | Kind::Break | Kind::Rule | Kind::Embed
        )
    }

    /// Whether nodes of the kind come in a line of text: texts, tabs, line breaks, links and embeds.
    #[tactic(auto, unfolding(crate::specs::Kinds::is_inline))]
    pub fn is_inline(self) -> bool
        ensures { result ≡ kinds.is_inline self }
    {
        matches!(
            self,
            Kind::Text | Kind::Tab | Kind::Break | Kind::Link | Kind::Embed
        )
    }

    /// Whether nodes of the kind come below the root and in cells: paragraphs, headings, quotes, lists,
    /// tables and rules.
    #[tactic(auto, unfolding(crate::specs::Kinds::is_block))]
    pub fn is_block(self) -> bool
        ensures { result ≡ kinds.is_block self }
    {
        matches!(
            self,
            Kind::Paragraph
                | Kind::Heading(_)
                | Kind::Quote
                | Kind::List(_)
                | Kind::Table
                | Kind::Rule
        )
    }

    /// Whether nodes of the kind hold a line of text of their own: paragraphs, headings, quotes and items.
    #[tactic(auto, unfolding(crate::specs::Kinds::is_text_block))]
    pub fn is_text_block(self) -> bool
        ensures { result ≡ kinds.is_text_block self }
    {
        matches!(
            self,
            Kind::Paragraph | Kind::Heading(_) | Kind::Quote | Kind::Item
        )
    }

    /// Whether nodes of the kind have characters: texts and tabs.
    #[tactic(auto, unfolding(crate::specs::Kinds::has_characters))]
    pub fn has_characters(self) -> bool
        ensures { result ≡ kinds.has_characters self }
    {
        matches!(self, Kind::Text | Kind::Tab)
    }

    /// Whether a node of the kind may have children of the other kind. A leaf may have none.
    #[tactic(auto, unfolding(crate::specs::Kinds::may_hold, crate::specs::Kinds::is_paragraph, crate::specs::Kinds::is_heading, crate::specs::Kinds::is_list, crate::specs::Kinds::is_item, crate::specs::Kinds::is_link, crate::specs::Kinds::is_row, crate::specs::Kinds::is_cell))]
    pub fn may_hold(self, child: Kind) -> bool
        ensures { result ≡ kinds.may_hold self child }
    {
        match self {
            Kind::Root | Kind::Cell => child.is_block(),
            Kind::Paragraph | Kind::Heading(_) => child.is_inline(),
            Kind::Quote => {
                child.is_inline()
                    || matches!(child, Kind::Paragraph | Kind::Heading(_) | Kind::List(_))
            }
            Kind::List(_) => matches!(child, Kind::Item),
            Kind::Item => child.is_inline() || matches!(child, Kind::List(_)),
            Kind::Link => child.is_inline() && !matches!(child, Kind::Link),
            Kind::Table => matches!(child, Kind::Row),
            Kind::Row => matches!(child, Kind::Cell),
            Kind::Text | Kind::Tab | Kind::Break | Kind::Rule | Kind::Embed => false,
        }
    }

    /// Whether nodes of the kind may be without children. A link, a list and a table may not.
    #[tactic(auto, unfolding(crate::specs::Kinds::may_be_empty))]
    pub fn may_be_empty(self) -> bool
        ensures { result ≡ kinds.may_be_empty self }
    {
        !matches!(self, Kind::Link | Kind::List(_) | Kind::Table)
    }

    /// Whether a node can be of the kind: not of a heading whose level isn't from 1 to 6.
    #[tactic(auto, unfolding(crate::specs::Kinds::is_possible))]
    pub fn is_possible(self) -> bool
        ensures { result ≡ kinds.is_possible self }
    {
        match self {
            Kind::Heading(level) => 1 <= level && level <= 6,
            _ => true,
        }
    }
}
