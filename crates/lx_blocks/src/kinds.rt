//! Tests of the node of a key by its kind. They say no where there is no such node.

ghost use Rattle.std.specs.Prelude.{◌≡◌};
ghost use Rattle.lx_node.specs.Kinds as kinds;
ghost use Rattle.lx_links.specs.Stands.{Sound};
ghost use Rattle.lx_blocks.specs.Blocks as blocks;

use lx_links::Links;
use lx_node::{Key, Kind};

/// Whether it is a text. A tab is none.
#[tactic(auto, unfolding(lx_node::specs::Kinds::is_text))]
pub fn is_text_at(links: &Links, key: Key) -> bool
    ensures { result ≡ blocks.is_at kinds.is_text links.now key }
{
    matches!(links.kind(key), Some(Kind::Text))
}

/// Whether it is a text or a tab, in which points count code units.
pub fn has_characters_at(links: &Links, key: Key) -> bool
    ensures { result ≡ blocks.is_at kinds.has_characters links.now key }
{
    match links.kind(key) {
        Some(kind) => kind.has_characters(),
        None => false,
    }
}

/// Whether it is a node that may have children.
pub fn is_element_at(links: &Links, key: Key) -> bool
    ensures test { result ≡ blocks.is_at kinds.is_element links.now key }
    ensures sound { Sound links.now }
{
    match links.kind(key) {
        Some(kind) => kind.is_element(),
        None => false,
    }
}

/// Whether it is a node that comes in a line of text.
pub fn is_inline_at(links: &Links, key: Key) -> bool
    ensures { result ≡ blocks.is_at kinds.is_inline links.now key }
{
    match links.kind(key) {
        Some(kind) => kind.is_inline(),
        None => false,
    }
}

/// Whether it is a link.
#[tactic(auto, unfolding(lx_node::specs::Kinds::is_link))]
pub fn is_link_at(links: &Links, key: Key) -> bool
    ensures { result ≡ blocks.is_at kinds.is_link links.now key }
{
    matches!(links.kind(key), Some(Kind::Link))
}

/// Whether it is an item of a list.
#[tactic(auto, unfolding(lx_node::specs::Kinds::is_item))]
pub fn is_item_at(links: &Links, key: Key) -> bool
    ensures { result ≡ blocks.is_at kinds.is_item links.now key }
{
    matches!(links.kind(key), Some(Kind::Item))
}

/// Whether it is a text block: a paragraph, a heading, a quote or an item.
pub(crate) fn is_block_at(links: &Links, key: Key) -> bool
    ensures test { result ≡ blocks.is_at kinds.is_text_block links.now key }
    ensures sound { Sound links.now }
{
    match links.kind(key) {
        Some(kind) => kind.is_text_block(),
        None => false,
    }
}

/// Whether it is a cell of a table.
#[tactic(auto, unfolding(lx_node::specs::Kinds::is_cell))]
pub(crate) fn is_cell_at(links: &Links, key: Key) -> bool
    ensures { result ≡ blocks.is_at kinds.is_cell links.now key }
{
    matches!(links.kind(key), Some(Kind::Cell))
}

/// Whether it is a horizontal rule or a table: what comes among lines, and is none.
pub fn is_rule_or_table_at(links: &Links, key: Key) -> bool
    ensures { result ≡ blocks.is_at blocks.is_rule_or_table links.now key }
{
    matches!(links.kind(key), Some(Kind::Table | Kind::Rule))
}
