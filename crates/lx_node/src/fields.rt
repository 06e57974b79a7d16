ghost use Rattle.std.specs.Prelude.{◌≡◌, IfOk, chars};
ghost use Rattle.lx_node.specs.OfKind as of_kind;
ghost use Rattle.lx_node.specs.Plain as plain;

use crate::kind::Kind;
use crate::memory::NoMemory;
use crate::text::{Txt, copy_optional};
use std::alloc::Global;

/// How a text takes part in editing: as any text, as a whole, or word by word.
#[derive(Clone, Copy, Debug, PartialEq, Eq)]
pub enum Mode {
    Normal,
    Token,
    Segmented,
}

/// The direction of an element's text, where it is set.
#[derive(Clone, Copy, Debug, PartialEq, Eq)]
pub enum Direction {
    Unset,
    Ltr,
    Rtl,
}

/// The alignment of an element, where it is set.
#[derive(Clone, Copy, Debug, PartialEq, Eq)]
pub enum Align {
    Unset,
    Left,
    Center,
    Right,
    Justify,
    Start,
    End,
}

/// What a text has: its scalar values, its format bits (bold 1, italic 2, strikethrough 4, underline 8,
/// code 16, subscript 32, superscript 64, highlight 128), its detail bits (directionless 1,
/// unmergeable 2), its mode and its style.
#[derive(Debug, Drop)]
pub struct TextFields {
    pub text: Txt,
    pub format: u16,
    pub detail: u8,
    pub mode: Mode,
    pub style: Txt,
}

/// What only some kinds of elements have.
#[derive(Debug, Drop)]
pub enum Extra {
    Plain,
    List {
        start: u32,
    },
    Item {
        value: u32,
        checked: Option<bool>,
    },
    Link {
        rel: Option<Txt>,
        target: Option<Txt>,
        title: Option<Txt>,
        url: Txt,
    },
    /// The header is 0 for none, 1 for a row's, 2 for a column's and 3 for both.
    Cell {
        header: u8,
        row_span: u16,
        col_span: u16,
        background: Option<Txt>,
    },
}

/// What an element has, beside its children.
#[derive(Debug, Drop)]
pub struct ElementFields {
    pub direction: Direction,
    pub format: Align,
    pub indent: u16,
    pub text_format: u16,
    pub text_style: Txt,
    pub extra: Extra,
}

/// The fields of a node, by what it is: an element, a text or tab, an embed with its source, or a leaf
/// that has none.
#[derive(Debug, Drop)]
pub enum Fields {
    Element(ElementFields),
    Text(TextFields),
    Embed(Txt),
    Bare,
}

impl TextFields {
    /// Those of a text of which only its characters and its detail are set: no format, mode normal, no style.
    pub fn with(alloc: Global, text: Txt, detail: u8) -> TextFields
        ensures { result ≡ plain.text_with text detail }
    {
        TextFields {
            text,
            format: 0,
            detail,
            mode: Mode::Normal,
            style: Txt::empty(alloc),
        }
    }

    /// Equal fields.
    pub fn copy(&self, alloc: Global) -> Result<TextFields, NoMemory>
        ensures { IfOk result (λ made. made ≡ self.now) }
    {
        let text = self.text.copy(alloc)?;
        let style = self.style.copy(alloc)?;
        Ok(TextFields {
            text,
            format: self.format,
            detail: self.detail,
            mode: self.mode,
            style,
        })
    }

    /// Whether they are those of a tab: the one character U+0009, unmergeable, of normal mode.
    #[tactic(auto, unfolding(crate::specs::OfKind::are_tab_fields, crate::specs::OfKind::is_normal))]
    fn is_tab(&self) -> bool
        ensures { result ≡ of_kind.are_tab_fields self.now }
    {
        self.text.is_tab() && self.detail == 2 && matches!(self.mode, Mode::Normal)
    }
}

/// Whether a cell may span so many rows or columns.
#[tactic(auto, unfolding(crate::specs::OfKind::is_span))]
fn is_span(span: u16) -> bool
    ensures { result ≡ of_kind.is_span span }
{
    1 <= span && span <= 1000
}

impl Extra {
    /// An equal one.
    pub fn copy(&self, alloc: Global) -> Result<Extra, NoMemory>
        ensures { IfOk result (λ made. made ≡ self.now) }
    {
        match self {
            Extra::Plain => Ok(Extra::Plain),
            Extra::List { start } => Ok(Extra::List { start: *start }),
            Extra::Item { value, checked } => Ok(Extra::Item {
                value: *value,
                checked: *checked,
            }),
            Extra::Link {
                rel,
                target,
                title,
                url,
            } => Ok(Extra::Link {
                rel: copy_optional(alloc, rel)?,
                target: copy_optional(alloc, target)?,
                title: copy_optional(alloc, title)?,
                url: url.copy(alloc)?,
            }),
            Extra::Cell {
                header,
                row_span,
                col_span,
                background,
            } => Ok(Extra::Cell {
                header: *header,
                row_span: *row_span,
                col_span: *col_span,
                background: copy_optional(alloc, background)?,
            }),
        }
    }

    /// Whether elements of the kind have such an extra, with its numbers in their ranges. It doesn't say
    /// whether the kind is one of elements.
    #[tactic(auto, unfolding(crate::specs::OfKind::is_extra_of, crate::specs::OfKind::is_plain, crate::specs::OfKind::is_list_extra, crate::specs::OfKind::is_item_extra, crate::specs::OfKind::is_link_extra, crate::specs::OfKind::is_cell_extra))]
    fn is_of(&self, kind: Kind) -> bool
        ensures { result ≡ of_kind.is_extra_of kind self.now }
    {
        match self {
            Extra::Plain => !matches!(kind, Kind::List(_) | Kind::Item | Kind::Link | Kind::Cell),
            Extra::List { start } => matches!(kind, Kind::List(_)) && *start <= 1_000_000,
            Extra::Item { value, .. } => matches!(kind, Kind::Item) && *value <= 1_200_000,
            Extra::Link { .. } => matches!(kind, Kind::Link),
            Extra::Cell {
                header,
                row_span,
                col_span,
                ..
            } => {
                matches!(kind, Kind::Cell)
                    && *header <= 3
                    && is_span(*row_span)
                    && is_span(*col_span)
            }
        }
    }
}

impl ElementFields {
    /// Those of an element of which only this is set.
    pub fn with(alloc: Global, extra: Extra) -> ElementFields
        ensures { result ≡ plain.element_with extra }
    {
        ElementFields {
            direction: Direction::Unset,
            format: Align::Unset,
            indent: 0,
            text_format: 0,
            text_style: Txt::empty(alloc),
            extra,
        }
    }

    /// Equal fields.
    pub fn copy(&self, alloc: Global) -> Result<ElementFields, NoMemory>
        ensures { IfOk result (λ made. made ≡ self.now) }
    {
        let text_style = self.text_style.copy(alloc)?;
        let extra = self.extra.copy(alloc)?;
        Ok(ElementFields {
            direction: self.direction,
            format: self.format,
            indent: self.indent,
            text_format: self.text_format,
            text_style,
            extra,
        })
    }
}

impl Fields {
    /// Those of an element of which nothing is set. They take no memory.
    pub fn plain_element(alloc: Global) -> Fields
        ensures { result ≡ plain.plain_element }
    {
        Fields::Element(ElementFields::with(alloc, Extra::Plain))
    }

    /// Those of a text of which only its characters are set.
    pub fn plain_text(alloc: Global, text: &str) -> Result<Fields, NoMemory>
        ensures { IfOk result (λ made. made ≡ plain.plain_text (chars text.now)) }
    {
        let text = Txt::new(alloc, text)?;
        Ok(Fields::Text(TextFields::with(alloc, text, 0)))
    }

    /// Equal fields.
    pub fn copy(&self, alloc: Global) -> Result<Fields, NoMemory>
        ensures { IfOk result (λ made. made ≡ self.now) }
    {
        match self {
            Fields::Element(fields) => Ok(Fields::Element(fields.copy(alloc)?)),
            Fields::Text(fields) => Ok(Fields::Text(fields.copy(alloc)?)),
            Fields::Embed(source) => Ok(Fields::Embed(source.copy(alloc)?)),
            Fields::Bare => Ok(Fields::Bare),
        }
    }

    /// Whether these are fields of the kind: the kind is one that a node can be, and they are of its variant
    /// and within its ranges. A heading's level is from 1 to 6, a list's start at most 1,000,000, an item's
    /// value at most 1,200,000, a cell's header at most 3 and its spans from 1 to 1000, a text's detail at
    /// most 3; and a tab has the text U+0009, detail 2 and mode normal.
    #[tactic(auto, unfolding(crate::specs::OfKind::is_of_kind))]
    pub fn is_of_kind(&self, kind: Kind) -> bool
        ensures { result ≡ of_kind.is_of_kind kind self.now }
    {
        kind.is_possible() && self.fits_kind(kind)
    }

    #[tactic(auto, unfolding(crate::specs::OfKind::fits_kind, crate::specs::OfKind::is_element_of, crate::specs::OfKind::is_text_of, crate::specs::OfKind::are_text_fields, crate::specs::OfKind::are_embed_fields, crate::specs::OfKind::are_bare, crate::specs::Kinds::is_element))]
    fn fits_kind(&self, kind: Kind) -> bool
        ensures { result ≡ of_kind.fits_kind kind self.now }
    {
        match self {
            Fields::Element(fields) => kind.is_element() && fields.extra.is_of(kind),
            Fields::Text(fields) => match kind {
                Kind::Text => fields.detail <= 3,
                Kind::Tab => fields.is_tab(),
                _ => false,
            },
            Fields::Embed(_) => matches!(kind, Kind::Embed),
            Fields::Bare => matches!(kind, Kind::Break | Kind::Rule),
        }
    }
}
