ghost use Rattle.std.specs.Prelude.{◌≡◌, chars};
ghost use Rattle.lx_select.specs.Rules as rules;
ghost use Rattle.lx_select.specs.Selection.{carried_point};

use lx_node::{Key, Point, PointKind};
use lx_text::within;

/// Whether a point lies among the children of the parent, after the child at the index.
#[tactic(auto, unfolding(crate::specs::Rules::is_behind, crate::specs::Rules::is_counting_children))]
fn is_behind(point: &Point, parent: Key, index: u32) -> bool
    ensures { result ≡ rules.is_behind parent index point.now }
{
    matches!(point.kind, PointKind::Element) && point.key == parent && index < point.offset
}

/// Where a point is after a child came to the index of the parent.
#[tactic(auto, unfolding(crate::specs::Rules::put_moves, crate::specs::Rules::offset_sum))]
pub fn put_moved(mut point: Point, parent: Key, index: u32) -> Point
    ensures { result ≡ rules.put_moves parent index point }
{
    if is_behind(&point, parent, index) {
        point.offset = point.offset.saturating_add(1);
    }
    point
}

/// Where a point is after the child at the index of the parent went.
#[tactic(auto, unfolding(crate::specs::Rules::take_moves, crate::specs::Rules::is_behind))]
pub fn take_moved(mut point: Point, parent: Key, index: u32) -> Point
    ensures { result ≡ rules.take_moves parent index point }
{
    if is_behind(&point, parent, index) {
        point.offset -= 1;
    }
    point
}

/// Where an offset is after a piece of that length replaced what was from `from` to `to`.
#[tactic(auto, unfolding(crate::specs::Rules::spliced_offset, crate::specs::Rules::offset_sum))]
fn spliced(offset: u32, from: u32, to: u32, len: u32) -> u32
    ensures { result ≡ rules.spliced_offset from to len offset }
{
    if offset <= from {
        offset
    } else if to <= offset {
        (offset - to.saturating_sub(from)).saturating_add(len)
    } else {
        from.saturating_add(len)
    }
}

/// Where a point is after a piece of that length replaced what was from `from` to `to` in the key.
#[tactic(auto, unfolding(crate::specs::Rules::splice_moves))]
pub fn splice_moved(mut point: Point, key: Key, from: u32, to: u32, len: u32) -> Point
    ensures { result ≡ rules.splice_moves key from to len point }
{
    if point.key == key {
        point.offset = spliced(point.offset, from, to, len);
    }
    point
}

/// Where a point is after the key got that text.
#[tactic(auto, unfolding(crate::specs::Rules::set_moves))]
pub fn set_moved(mut point: Point, key: Key, text: &str) -> Point
    ensures { result ≡ rules.set_moves key (chars text.now) point }
{
    if point.key == key {
        point.offset = within(text, point.offset);
    }
    point
}

/// Where a point is after what was from `at` on in the key came to a new key.
#[tactic(auto, unfolding(crate::specs::Rules::split_moves))]
pub fn split_moved(mut point: Point, key: Key, at: u32, new: Key) -> Point
    ensures { result ≡ rules.split_moves key at new point }
{
    if point.key == key && at < point.offset {
        point.key = new;
        point.offset -= at;
    }
    point
}

/// Where a point is after the key `new`, with that text, came in the place of the key `old`.
#[tactic(auto, unfolding(crate::specs::Rules::replace_moves))]
pub fn replace_moved(mut point: Point, old: Key, new: Key, new_text: &str) -> Point
    ensures { result ≡ rules.replace_moves old new (chars new_text.now) point }
{
    if point.key == old {
        point.key = new;
        point.offset = within(new_text, point.offset);
    }
    point
}

/// Where a point is after what was at 0 of the key `from` came to the offset `at` of the key `to`.
#[tactic(auto, unfolding(crate::specs::Rules::carry_moves, crate::specs::Rules::offset_sum))]
pub fn carry_moved(mut point: Point, from: Key, to: Key, at: u32) -> Point
    ensures { result ≡ rules.carry_moves from to at point }
{
    if point.key == from {
        point.key = to;
        point.offset = at.saturating_add(point.offset);
    }
    point
}

/// Where a point is that edits left at `now`: one that was on the key `from` before goes to the key `to`, with what
/// was at 0 of the one and is now at the offset `at` of the other.
#[tactic(auto, unfolding(crate::specs::Rules::carry_moves))]
pub fn carried(now: Point, before: Point, from: Key, to: Key, at: u32) -> Point
    ensures { result ≡ carried_point from (rules.carry_moves from to at) before now }
{
    if before.key == from {
        carry_moved(before, from, to, at)
    } else {
        now
    }
}

/// The point `to`, where a point is on the key.
#[tactic(auto, unfolding(crate::specs::Rules::moved_to))]
pub fn moved_to(point: Point, key: Key, to: Point) -> Point
    ensures { result ≡ rules.moved_to key to point }
{
    if point.key == key { to } else { point }
}
