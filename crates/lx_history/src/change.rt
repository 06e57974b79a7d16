//! What kind of typing a commit was.

ghost use Rattle.std.specs.Prelude.{◌≡◌, ◌<◌, ◌^◌, Some};
ghost use Rattle.lx_history.specs.Changes as changes;
ghost use Rattle.lx_history.specs.Few.{typed_few};
ghost use Rattle.lx_node.specs.Same.{same_mode};
ghost use Rattle.lx_select.specs.Same.{same_point, same_point_kind};

use crate::few::{Few, few_changed};
use crate::kinds::Change;
use crate::texts::{length_at, text_at};
use lx_draft::State;
use lx_links::Links;
use lx_marks::Marks;
use lx_node::{Key, Mode, Point, PointKind, TextFields};
use lx_select::Selection;
use lx_text::length_of;

/// The place of a range whose ends are the same.
fn caret(selection: &Selection) -> Option<Point>
    ensures { result ≡ changes.caret_of selection.now }
{
    match selection {
        Selection::Range { anchor, focus, .. } => {
            if is_same_point(*anchor, *focus) {
                Some(*anchor)
            } else {
                None
            }
        }
        _ => None,
    }
}

fn is_same_point(a: Point, b: Point) -> bool
    ensures { result ≡ same_point a b }
{
    a.key == b.key && a.offset == b.offset && is_same_kind(a.kind, b.kind)
}

fn is_same_kind(a: PointKind, b: PointKind) -> bool
    ensures { result ≡ same_point_kind a b }
{
    match (a, b) {
        (PointKind::Text, PointKind::Text) => true,
        (PointKind::Element, PointKind::Element) => true,
        _ => false,
    }
}

fn is_in_text(point: &Point) -> bool
    ensures { result ≡ changes.is_in_text point.now }
{
    match point.kind {
        PointKind::Text => true,
        PointKind::Element => false,
    }
}

/// The typing from a text's length and the caret's place in it to others.
fn grown(m: u64, n: u64, a: u64, b: u64) -> Change
    requires { (m < 2 ^ 63) × (n < 2 ^ 63) × (a < 2 ^ 63) × (b < 2 ^ 63) }
    ensures { result ≡ changes.length_typing m n a b }
{
    if n == m + 1 && b == a + 1 {
        Change::Insert
    } else if n + 1 == m && a == b + 1 {
        Change::DeleteBefore
    } else if n + 1 == m && a == b {
        Change::DeleteAfter
    } else {
        Change::Other
    }
}

pub(crate) fn is_typing(a: Change, b: Change) -> bool
    ensures { result ≡ changes.is_typing a b }
{
    match (a, b) {
        (Change::Insert, Change::Insert) => true,
        (Change::DeleteBefore, Change::DeleteBefore) => true,
        (Change::DeleteAfter, Change::DeleteAfter) => true,
        _ => false,
    }
}

/// The typing of a first letter: the text of the caret is new, and the caret is after its one character.
fn starts(old: &Links, new: &Links, caret: Point) -> Change
    ensures { result ≡ changes.starts old.now new.now caret }
{
    if !old.has(caret.key) && length_at(new, caret.key) == 1 && caret.offset == 1 {
        Change::Insert
    } else {
        Change::Other
    }
}

#[tactic(auto, unfolding(lx_node::specs::Same::same_mode))]
fn is_same_mode(a: Mode, b: Mode) -> bool
    ensures { result ≡ same_mode a b }
{
    match (a, b) {
        (Mode::Normal, Mode::Normal) => true,
        (Mode::Token, Mode::Token) => true,
        (Mode::Segmented, Mode::Segmented) => true,
        _ => false,
    }
}

/// The typing in a text that is in both states.
fn edited(old: &TextFields, new: &TextFields, a: Point, b: Point) -> Change
    ensures { result ≡ changes.text_typing (Some old.now) (Some new.now) a b }
{
    if is_same_mode(old.mode, new.mode) && is_in_text(&a) && a.key == b.key {
        grown(
            length_of(&old.text) as u64,
            length_of(&new.text) as u64,
            a.offset as u64,
            b.offset as u64,
        )
    } else {
        Change::Other
    }
}

/// The typing in a text, where it is in both states.
fn edited_at(old: &Links, new: &Links, key: Key, a: Point, b: Point) -> Change
    ensures { result ≡ changes.text_typing (changes.text_fields_at old.now key) (changes.text_fields_at new.now key) a b }
{
    match (text_at(old, key), text_at(new, key)) {
        (Some(old), Some(new)) => edited(old, new, a, b),
        _ => Change::Other,
    }
}

/// The typing where these few changed.
fn typed(few: Few, old: &Links, new: &Links, a: Point, b: Point) -> Change
    ensures { result ≡ typed_few few old.now new.now a b }
{
    match few {
        Few::Empty => Change::Other,
        Few::One(key) => edited_at(old, new, key, a, b),
        Few::Several => starts(old, new, b),
    }
}

/// The typing between two carets.
#[tactic(auto, using(crate::proofs::Finding::few_typed))]
fn typed_between(a: Point, b: Point, before: &State, after: &State, marks: &Marks) -> Change
    ensures { result ≡ changes.typed_between (Some a) (Some b) before.now after.now marks.now }
{
    if !is_in_text(&b) {
        return Change::Other;
    }
    let few = few_changed(&after.links, marks);
    typed(few, &before.links, &after.links, a, b)
}

/// What kind of typing led from one state to the other, of which the marks say what changed.
#[tactic(auto, unfolding(crate::specs::Changes::typing_of))]
pub(crate) fn change_of(before: &State, after: &State, marks: &Marks) -> Change
    ensures { result ≡ changes.typing_of before.now after.now marks.now }
{
    match (caret(&before.selection), caret(&after.selection)) {
        (Some(a), Some(b)) => typed_between(a, b, before, after, marks),
        _ => Change::Other,
    }
}
