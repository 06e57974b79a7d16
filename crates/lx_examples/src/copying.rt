//! What is selected in a state, copied into a new document.

ghost use Rattle.std.specs.Prelude.{◌≡◌, true, None, is_some, OnOk, IfOk, IfErr, IfSome, IfNone};
ghost use Rattle.lx_forest.specs.Lookups.{has, is_attached};
ghost use Rattle.lx_draft.specs.Faults.{TellsStep};
ghost use Rattle.lx_caret.specs.Lying.{EachPoint};
ghost use Rattle.lx_clip.specs.Slices.{sliced, slice_data};
ghost use Rattle.lx_clip.specs.Pasting.{insert_step};
ghost use Rattle.lx_clip_laws.specs.Pastes.{IsInserted};

use lx_blocks::ready;
use lx_clip::{insert, slice};
use lx_clip_laws::copies_are_pasted;
use lx_draft::{Draft, Frozen, State};
use lx_links::Links;
use lx_node::{Fault, Fields, Key, Kind, Point, PointKind};
use lx_select::Selection;
use std::alloc::Global;

/// The first point of a range that isn't at a node of the tree. No state that was frozen has one.
pub(crate) fn lost_point(state: &State) -> Option<Point>
    ensures { IfNone result (EachPoint (λ p. is_attached state.now.links p.key ≡ true) state.now.selection) }
{
    match &state.selection {
        Selection::Range { anchor, focus, .. } => lost_of(&state.links, *anchor, *focus),
        _ => None,
    }
}

/// The first of two points that isn't at a node of the tree.
fn lost_of(links: &Links, anchor: Point, focus: Point) -> Option<Point>
    ensures anchor { IfNone result (is_attached links.now anchor.key ≡ true) }
    ensures focus { IfNone result (is_attached links.now focus.key ≡ true) }
{
    if !links.is_attached(anchor.key) {
        Some(anchor)
    } else if !links.is_attached(focus.key) {
        Some(focus)
    } else {
        None
    }
}

/// Puts a copy of what is selected in a state into a draft, at its caret. What stands there then has the trees that were
/// covered, but for their keys. Answers false where nothing is covered, and leaves the draft as it was.
pub(crate) fn copy_into(alloc: Global, from: &State, draft: &mut Draft) -> Result<bool, Fault>
    requires attached { EachPoint (λ p. is_attached from.now.links p.key ≡ true) from.now.selection }
    requires there { EachPoint (λ p. has p.key draft.old.forest ≡ true) draft.old.selection }
    ensures copied { IfOk result (λ any. IfSome (sliced from.now.links from.now.selection) (λ c. IsInserted c draft.old draft.new)) }
    ensures answered { IfOk result (λ any. any ≡ is_some (sliced from.now.links from.now.selection)) }
    ensures nothing { IfOk result (λ any. IfNone (sliced from.now.links from.now.selection) (draft.new ≡ draft.old)) }
    ensures err { IfErr result (λ e. IfSome (sliced from.now.links from.now.selection) (λ c. TellsStep e (insert_step (slice_data c) draft.old))) }
{
    copies_are_pasted();
    ready(draft)?;
    match slice(alloc, from)? {
        Some(slice) => {
            insert(alloc, draft, &slice)?;
            Ok(true)
        }
        None => Ok(false),
    }
}

/// Puts the caret into an element before its children.
#[tactic(auto, unfolding(lx_draft::specs::Steps::select_step))]
fn put_caret(draft: &mut Draft, key: Key) -> Result<(), Fault>
    ensures there { OnOk result (EachPoint (λ p. has p.key draft.new.forest ≡ true) draft.new.selection) }
{
    let anchor = Point {
        key,
        offset: 0,
        kind: PointKind::Element,
    };
    let focus = anchor;
    draft.select(Selection::Range {
        anchor,
        focus,
        format: 0,
    })
}

/// A draft of a new document: one empty paragraph, and the caret in it.
#[tactic(auto, using(lx_update::proofs::Composed::element_suits))]
fn new_document(alloc: Global) -> Result<Draft, Fault>
    ensures there { IfOk result (λ draft. EachPoint (λ p. has p.key draft.forest ≡ true) draft.selection) }
{
    let state = State::new(alloc)?;
    let mut draft = Draft::start(alloc, &state, 1)?;
    let paragraph = draft.new_node(Kind::Paragraph, Fields::plain_element(alloc))?;
    draft.put(paragraph, Key::root(), 0)?;
    put_caret(&mut draft, paragraph)?;
    Ok(draft)
}

/// A new document with a copy of what is selected in a state, if anything is covered.
pub(crate) fn copied(alloc: Global, from: &State) -> Result<Option<Frozen>, Fault>
    requires { EachPoint (λ p. is_attached from.now.links p.key ≡ true) from.now.selection }
{
    let mut draft = new_document(alloc)?;
    if copy_into(alloc, from, &mut draft)? {
        Ok(Some(draft.freeze()?))
    } else {
        Ok(None)
    }
}
