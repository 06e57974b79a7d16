ghost use Rattle.std.specs.Prelude.{◌≡◌, ◌&&◌, nat_le};
ghost use Rattle.lx_node.specs.Kinds as kinds;
ghost use Rattle.lx_forest.specs.Lookups as lookups;
ghost use Rattle.lx_text.specs.Texts.{is_offset};
ghost use Rattle.lx_draft.specs.Selecting as selecting;

use crate::draft::Draft;
use lx_links::Links;
use lx_node::{Cause, Fields, Key, Kind, Lost, Point, PointKind};
use lx_select::Selection;

/// Whether a point of the kind counts something in nodes of the kind: code units in a text or tab,
/// children in an element.
fn counts_in(point: PointKind, kind: Kind) -> bool
    ensures { result ≡ selecting.counts_in point kind }
{
    match point {
        PointKind::Text => kind.has_characters(),
        PointKind::Element => kind.is_element(),
    }
}

/// Whether there is a place at the offset in the text of a text or tab. In any other node there is one at 0 alone.
#[tactic(auto, using(crate::proofs::TextPlaces::none_place, crate::proofs::TextPlaces::text_place))]
fn is_in_text(links: &Links, key: Key, offset: u32) -> bool
    ensures { result ≡ (nat_le offset (selecting.length_of (lookups.fields_of links.now key)) && is_offset offset (selecting.text_of (lookups.fields_of links.now key))) }
{
    match links.node(key) {
        Some(node) => match &node.fields {
            Fields::Text(text) => lx_text::has_offset(&text.text, offset),
            _ => offset == 0,
        },
        None => offset == 0,
    }
}

/// Whether the offset of a point is one of a place in its node: not after the end, nor inside a surrogate pair of a
/// text.
pub fn is_place(links: &Links, point: &Point) -> bool
    ensures { result ≡ selecting.is_place links.now point.now point.now.kind }
{
    match point.kind {
        PointKind::Text => is_in_text(links, point.key, point.offset),
        PointKind::Element => point.offset <= links.size(point.key),
    }
}

impl Draft {
    /// Why the selection can't be made, the first cause: a node isn't there, is of the wrong kind, or
    /// has no place at an offset, or a cell isn't below the table.
    pub(crate) fn select_fault(&self, selection: &Selection) -> Option<Cause>
        ensures { result ≡ selecting.select_fault selection.now self.now.forest }
    {
        match selection {
            Selection::Nothing => None,
            Selection::Range { anchor, focus, .. } => self.range_fault(anchor, focus),
            Selection::Nodes(keys) => self.unknown_among(keys.items()),
            Selection::Cells {
                table,
                anchor,
                focus,
            } => self.cells_fault(*table, *anchor, *focus),
        }
    }

    fn range_fault(&self, anchor: &Point, focus: &Point) -> Option<Cause>
        ensures { result ≡ selecting.range_fault self.now.forest anchor.now focus.now }
    {
        if let Some(cause) = self.links.missing(anchor.key) {
            return Some(cause);
        }
        if let Some(cause) = self.links.missing(focus.key) {
            return Some(cause);
        }
        if let Some(cause) = self.misfit_point(anchor) {
            return Some(cause);
        }
        if let Some(cause) = self.misfit_point(focus) {
            return Some(cause);
        }
        if let Some(cause) = self.outside_point(anchor) {
            return Some(cause);
        }
        self.outside_point(focus)
    }

    fn misfit_point(&self, point: &Point) -> Option<Cause>
        ensures { result ≡ selecting.misfit_point self.now.forest point.now }
    {
        let kind = self.links.kind(point.key)?;
        if counts_in(point.kind, kind) {
            None
        } else {
            Some(Cause::WrongKind(kind))
        }
    }

    fn outside_point(&self, point: &Point) -> Option<Cause>
        ensures { result ≡ selecting.outside_point self.now.forest point.now }
    {
        if is_place(&self.links, point) {
            None
        } else {
            Some(Cause::BadPlace(point.offset as u64))
        }
    }

    /// The length of the text of a text or tab, in the unit of `lx_text`, and 0 of any other node.
    pub fn text_length(&self, key: Key) -> u32
        ensures { result ≡ selecting.length_of (lookups.fields_of self.now.forest key) }
    {
        match self.links.node(key) {
            Some(node) => match &node.fields {
                Fields::Text(text) => lx_text::length_of(&text.text),
                _ => 0,
            },
            None => 0,
        }
    }

    fn unknown_among(&self, keys: &[Key]) -> Option<Cause>
        ensures { result ≡ selecting.unknown_among self.now.forest keys.now }
    {
        for key in keys {
            if let Some(cause) = self.links.missing(*key) {
                return Some(cause);
            }
        }
        None
    }

    /// The table, its cells, and whether they are below it.
    fn cells_fault(&self, table: Key, anchor: Key, focus: Key) -> Option<Cause>
        ensures { result ≡ selecting.cells_fault self.now.forest table anchor focus }
    {
        if let Some(cause) = self.links.missing(table) {
            return Some(cause);
        }
        if let Some(cause) = self.links.missing(anchor) {
            return Some(cause);
        }
        if let Some(cause) = self.links.missing(focus) {
            return Some(cause);
        }
        if let Some(cause) = self.no_table(table) {
            return Some(cause);
        }
        if let Some(cause) = self.no_cell(anchor) {
            return Some(cause);
        }
        if let Some(cause) = self.no_cell(focus) {
            return Some(cause);
        }
        if let Some(cause) = self.outside_table(table, anchor) {
            return Some(cause);
        }
        self.outside_table(table, focus)
    }

    #[tactic(auto, unfolding(lx_node::specs::Kinds::is_table))]
    fn no_table(&self, key: Key) -> Option<Cause>
        ensures { result ≡ selecting.unlike kinds.is_table (lookups.kind_of self.now.forest key) }
    {
        let kind = self.links.kind(key)?;
        match kind {
            Kind::Table => None,
            other => Some(Cause::WrongKind(other)),
        }
    }

    #[tactic(auto, unfolding(lx_node::specs::Kinds::is_cell))]
    fn no_cell(&self, key: Key) -> Option<Cause>
        ensures { result ≡ selecting.unlike kinds.is_cell (lookups.kind_of self.now.forest key) }
    {
        let kind = self.links.kind(key)?;
        match kind {
            Kind::Cell => None,
            other => Some(Cause::WrongKind(other)),
        }
    }

    fn outside_table(&self, table: Key, cell: Key) -> Option<Cause>
        ensures { result ≡ selecting.outside_table self.now.forest table cell }
    {
        if self.links.is_within(table, cell) {
            None
        } else {
            Some(Cause::BadPlace(cell.number() as u64))
        }
    }

    /// What of the selection isn't in the forest any more, the first: the anchor before the focus, and the
    /// table before both.
    pub(crate) fn selection_lost(&self) -> Option<Cause>
        ensures { result ≡ selecting.selection_lost self.now.selection self.now.forest }
    {
        match &self.selection {
            Selection::Range { anchor, focus, .. } => match self.lost_point(anchor) {
                Some(cause) => Some(cause),
                None => self.lost_point(focus),
            },
            Selection::Cells {
                table,
                anchor,
                focus,
            } => self.lost_cells(*table, *anchor, *focus),
            _ => None,
        }
    }

    fn lost_cells(&self, table: Key, anchor: Key, focus: Key) -> Option<Cause>
        ensures { result ≡ selecting.lost_cells self.now.forest table anchor focus }
    {
        if let Some(cause) = self.lost_key(table) {
            return Some(cause);
        }
        if let Some(cause) = self.lost_key(anchor) {
            return Some(cause);
        }
        self.lost_key(focus)
    }

    fn lost_key(&self, key: Key) -> Option<Cause>
        ensures { result ≡ selecting.lost_key self.now.forest key }
    {
        if self.links.has(key) {
            None
        } else {
            Some(Cause::SelectionLost(Lost::Key(key)))
        }
    }

    fn lost_point(&self, point: &Point) -> Option<Cause>
        ensures { result ≡ selecting.lost_point self.now.forest point.now }
    {
        if self.lies(point) {
            None
        } else {
            Some(Cause::SelectionLost(Lost::Point(*point)))
        }
    }

    /// Whether a point lies in the forest: its node is there and has characters or children, as the point's kind
    /// says, and the offset is one of a place there.
    pub fn lies(&self, point: &Point) -> bool
        ensures { result ≡ selecting.lies_in self.now.forest point.now }
    {
        match self.links.kind(point.key) {
            Some(kind) => counts_in(point.kind, kind) && is_place(&self.links, point),
            None => false,
        }
    }
}
