ghost use Rattle.std.specs.Prelude.{◌≡◌, IfOk};
ghost use Rattle.lx_step.specs.Patches as patches;

use lx_node::{Align, Copied, Direction, Kind, Mode, NoMemory, Sequence, Txt, copy_optional};
use std::alloc::Global;

/// A member of a node's fields, with the value that it is to get. Which kinds have which members:
///
/// - elements: direction, align, indent (0 to 65,535), text format (bits, as those of a text) and text style
/// - lists: start (0 to 1,000,000)
/// - items: checked
/// - links: rel, target, title, URL
/// - cells: header state (0 none, 1 a row's, 2 a column's, 3 both), spans (1 to 1000), background
/// - texts: text, format, style, detail (0 to 3), mode; of these a tab has format and style
/// - embeds: source
#[derive(Debug, Drop)]
pub enum Member {
    Direction(Direction),
    Align(Align),
    Indent(u16),
    TextFormat(u16),
    TextStyle(Txt),
    Start(u32),
    Checked(Option<bool>),
    Rel(Option<Txt>),
    Target(Option<Txt>),
    Title(Option<Txt>),
    Url(Txt),
    HeaderState(u8),
    ColSpan(u16),
    RowSpan(u16),
    Background(Option<Txt>),
    Text(Txt),
    Format(u16),
    Style(Txt),
    Detail(u8),
    Mode(Mode),
    Src(Txt),
    /// A member of this name, which can be set on nodes of no kind.
    Other(Txt),
}

/// A list of members.
pub type Members = Sequence<Member>;

impl Copied for Member {
    /// An equal member. It takes memory for its text, where it has one.
    fn copy(&self, alloc: Global) -> Result<Member, NoMemory> {
        match self {
            Member::Direction(new) => Ok(Member::Direction(*new)),
            Member::Align(new) => Ok(Member::Align(*new)),
            Member::Indent(new) => Ok(Member::Indent(*new)),
            Member::TextFormat(new) => Ok(Member::TextFormat(*new)),
            Member::TextStyle(new) => Ok(Member::TextStyle(new.copy(alloc)?)),
            Member::Start(new) => Ok(Member::Start(*new)),
            Member::Checked(new) => Ok(Member::Checked(*new)),
            Member::Rel(new) => Ok(Member::Rel(copy_optional(alloc, new)?)),
            Member::Target(new) => Ok(Member::Target(copy_optional(alloc, new)?)),
            Member::Title(new) => Ok(Member::Title(copy_optional(alloc, new)?)),
            Member::Url(new) => Ok(Member::Url(new.copy(alloc)?)),
            Member::HeaderState(new) => Ok(Member::HeaderState(*new)),
            Member::ColSpan(new) => Ok(Member::ColSpan(*new)),
            Member::RowSpan(new) => Ok(Member::RowSpan(*new)),
            Member::Background(new) => Ok(Member::Background(copy_optional(alloc, new)?)),
            Member::Text(new) => Ok(Member::Text(new.copy(alloc)?)),
            Member::Format(new) => Ok(Member::Format(*new)),
            Member::Style(new) => Ok(Member::Style(new.copy(alloc)?)),
            Member::Detail(new) => Ok(Member::Detail(*new)),
            Member::Mode(new) => Ok(Member::Mode(*new)),
            Member::Src(new) => Ok(Member::Src(new.copy(alloc)?)),
            Member::Other(name) => Ok(Member::Other(name.copy(alloc)?)),
        }
    }
}

impl Member {
    /// Whether the member can be set on nodes of the kind.
    #[tactic(auto, unfolding(crate::specs::Patches::has, lx_node::specs::Kinds::is_text, lx_node::specs::Kinds::is_embed, lx_node::specs::Kinds::is_list, lx_node::specs::Kinds::is_item, lx_node::specs::Kinds::is_link, lx_node::specs::Kinds::is_cell))]
    pub fn is_of(&self, kind: Kind) -> bool
        ensures { result ≡ patches.has kind self.now }
    {
        match self {
            Member::Direction(_)
            | Member::Align(_)
            | Member::Indent(_)
            | Member::TextFormat(_)
            | Member::TextStyle(_) => kind.is_element(),
            Member::Start(_) => matches!(kind, Kind::List(_)),
            Member::Checked(_) => matches!(kind, Kind::Item),
            Member::Rel(_) | Member::Target(_) | Member::Title(_) | Member::Url(_) => {
                matches!(kind, Kind::Link)
            }
            Member::HeaderState(_)
            | Member::ColSpan(_)
            | Member::RowSpan(_)
            | Member::Background(_) => matches!(kind, Kind::Cell),
            Member::Text(_) | Member::Detail(_) | Member::Mode(_) => matches!(kind, Kind::Text),
            Member::Format(_) | Member::Style(_) => kind.has_characters(),
            Member::Src(_) => matches!(kind, Kind::Embed),
            Member::Other(_) => false,
        }
    }
}
