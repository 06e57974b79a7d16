/// The inner element of a text.
#[derive(Clone, Copy, Debug, PartialEq, Eq)]
pub enum Inner {
    Strong,
    Em,
    Span,
}

/// The outer element of a text.
#[derive(Clone, Copy, Debug, PartialEq, Eq)]
pub enum Outer {
    Code,
    Mark,
    Sub,
    Sup,
}

impl Inner {
    ghost use Rattle.std.specs.Prelude.{◌≡◌};
    ghost use Rattle.lx_host.specs.Words.{inner_word};

    /// The word of the element.
    pub(crate) fn word(self) -> &'static str
        ensures { result.now ≡ inner_word self }
    {
        match self {
            Inner::Strong => "strong",
            Inner::Em => "em",
            Inner::Span => "span",
        }
    }
}

impl Outer {
    ghost use Rattle.std.specs.Prelude.{◌≡◌};
    ghost use Rattle.lx_host.specs.Words.{outer_word};

    /// The word of the element.
    pub(crate) fn word(self) -> &'static str
        ensures { result.now ≡ outer_word self }
    {
        match self {
            Outer::Code => "code",
            Outer::Mark => "mark",
            Outer::Sub => "sub",
            Outer::Sup => "sup",
        }
    }
}

ghost use Rattle.std.specs.Prelude.{◌≡◌};
ghost use Rattle.lx_host.specs.Words.{inline_word as word_of_inline};

/// The element that a host is. A text's may be two, one in the other.
#[derive(Clone, Copy, Debug, PartialEq, Eq)]
pub enum Tag {
    Div,
    P,
    H1,
    H2,
    H3,
    H4,
    H5,
    H6,
    Blockquote,
    Ul,
    Ol,
    Li,
    A,
    Table,
    Tr,
    Th,
    Td,
    Br,
    Hr,
    Inline(Option<Outer>, Inner),
}

/// The name of an attribute, in byte order of the words.
#[derive(Clone, Copy, Debug)]
pub enum Name {
    AriaChecked,
    Class,
    ColSpan,
    DataAlign,
    DataBg,
    DataIndent,
    DataLexicalDecorator,
    DataLexicalText,
    DataSrc,
    Dir,
    Href,
    Rel,
    Role,
    RowSpan,
    Start,
    Style,
    Target,
    Title,
    Value,
}

impl Name {
    ghost use Rattle.std.specs.Prelude.{◌≡◌};
    ghost use Rattle.lx_host.specs.Words.{name_word};

    /// The word of the name.
    #[tactic(auto, unfolding(crate::specs::Words::name_word))]
    pub fn word(self) -> &'static str
        ensures { result.now ≡ name_word self }
    {
        match self {
            Name::AriaChecked => "aria-checked",
            Name::Class => "class",
            Name::ColSpan => "colspan",
            Name::DataAlign => "data-align",
            Name::DataBg => "data-bg",
            Name::DataIndent => "data-indent",
            Name::DataLexicalDecorator => "data-lexical-decorator",
            Name::DataLexicalText => "data-lexical-text",
            Name::DataSrc => "data-src",
            Name::Dir => "dir",
            Name::Href => "href",
            Name::Rel => "rel",
            Name::Role => "role",
            Name::RowSpan => "rowspan",
            Name::Start => "start",
            Name::Style => "style",
            Name::Target => "target",
            Name::Title => "title",
            Name::Value => "value",
        }
    }
}

impl Tag {
    ghost use Rattle.std.specs.Prelude.{◌≡◌};
    ghost use Rattle.lx_host.specs.Words.{tag_word};

    /// The word of the tag. Of two elements, the outer one comes first, as in `code>strong`.
    #[tactic(auto, unfolding(crate::specs::Words::tag_word))]
    pub fn word(self) -> &'static str
        ensures { result.now ≡ tag_word self }
    {
        match self {
            Tag::Div => "div",
            Tag::P => "p",
            Tag::H1 => "h1",
            Tag::H2 => "h2",
            Tag::H3 => "h3",
            Tag::H4 => "h4",
            Tag::H5 => "h5",
            Tag::H6 => "h6",
            Tag::Blockquote => "blockquote",
            Tag::Ul => "ul",
            Tag::Ol => "ol",
            Tag::Li => "li",
            Tag::A => "a",
            Tag::Table => "table",
            Tag::Tr => "tr",
            Tag::Th => "th",
            Tag::Td => "td",
            Tag::Br => "br",
            Tag::Hr => "hr",
            Tag::Inline(outer, inner) => inline_word(outer, inner),
        }
    }

    ghost use Rattle.lx_host.specs.Pieces.{is_void};

    /// Whether it is a start alone, with nothing inside and no end.
    pub(crate) fn is_void(self) -> bool
        ensures { result ≡ is_void self }
    {
        matches!(self, Tag::Br | Tag::Hr)
    }
}

fn inline_word(outer: Option<Outer>, inner: Inner) -> &'static str
    ensures { result.now ≡ word_of_inline outer inner }
{
    match (outer, inner) {
        (None, Inner::Strong) => "strong",
        (None, Inner::Em) => "em",
        (None, Inner::Span) => "span",
        (Some(Outer::Code), Inner::Strong) => "code>strong",
        (Some(Outer::Code), Inner::Em) => "code>em",
        (Some(Outer::Code), Inner::Span) => "code>span",
        (Some(Outer::Mark), Inner::Strong) => "mark>strong",
        (Some(Outer::Mark), Inner::Em) => "mark>em",
        (Some(Outer::Mark), Inner::Span) => "mark>span",
        (Some(Outer::Sub), Inner::Strong) => "sub>strong",
        (Some(Outer::Sub), Inner::Em) => "sub>em",
        (Some(Outer::Sub), Inner::Span) => "sub>span",
        (Some(Outer::Sup), Inner::Strong) => "sup>strong",
        (Some(Outer::Sup), Inner::Em) => "sup>em",
        (Some(Outer::Sup), Inner::Span) => "sup>span",
    }
}
