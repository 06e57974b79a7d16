//! Text, a line break or a tab at the caret.

ghost use Rattle.std.specs.Prelude.{◌≡◌, ℕ, Ok, Result, OnOk, IfOk, IfErr, chars};
ghost use Rattle.lx_node.specs.declared.cause.Cause.{Cause as CauseOf};
ghost use Rattle.lx_node.specs.declared.cause.Point.{Point as PointIn};
ghost use Rattle.lx_draft.specs.Working.{Working};
ghost use Rattle.lx_draft.specs.Faults.{after, TellsStep};
ghost use Rattle.lx_edit.specs.Standing.{Does, StillStands};
ghost use Rattle.lx_edit.specs.Texts as texts;
ghost use Rattle.lx_blocks.specs.Ranges as ranges;
ghost use Rattle.lx_caret.specs.Removing.{remove_text_step};
ghost use Rattle.lx_caret.specs.Inserting as inserting;
ghost use Rattle.lx_caret.specs.Inserting.{insert_text_step, insert_line_break_step, insert_tab_step};

use crate::adding::add;
use crate::removing::remove_selected;
use lx_blocks::{Ranged, no_range, normal_at, place_caret, shown_range};
use lx_draft::Draft;
use lx_edit::{admitted, element_point, text_point};
use lx_links::Links;
use lx_node::{Fault, Fields, Key, Kind, Mode, NoMemory, Point, TextFields, Txt};
use std::alloc::Global;

/// The range that is selected after what it covered was removed, for a step at its anchor. It is refused with `NoSelection`
/// where no range is selected any more.
pub fn anchored(draft: &Draft) -> Result<Ranged, Fault>
    ensures ok { IfOk result (λ range. (step : PointIn → ℕ → Working → Result Working CauseOf) → ranges.at_anchor step draft.now ≡ step range.anchor range.format draft.now) }
    ensures err { IfErr result (λ e. (step : PointIn → ℕ → Working → Result Working CauseOf) → TellsStep e (ranges.at_anchor step draft.now)) }
    ensures standing { IfErr result (λ e. StillStands e draft.now) }
{
    admitted(draft, None)?;
    match shown_range(draft.selection()) {
        Some(range) => Ok(range),
        None => Err(no_range(draft.selection().kind())),
    }
}

/// Whether it is a normal text of the format.
fn is_of_format(draft: &Draft, key: Key, format: u16) -> bool
    ensures { result ≡ inserting.is_of_format format (ranges.normal_at draft.now.forest key) }
{
    match normal_at(draft, key) {
        Some(text) => text.format == format,
        None => false,
    }
}

/// The style of a normal text, and none for any other node.
fn style_at(alloc: Global, draft: &Draft, key: Key) -> Result<Txt, NoMemory>
    ensures { IfOk result (λ style. style ≡ inserting.style_in (ranges.normal_at draft.now.forest key)) }
{
    match normal_at(draft, key) {
        Some(text) => text.style.copy(alloc),
        None => Ok(Txt::empty(alloc)),
    }
}

/// The fields of a new text.
fn typed_fields(alloc: Global, text: &str, format: u16, style: Txt) -> Result<Fields, NoMemory>
    ensures { IfOk result (λ made. made ≡ inserting.typed_fields (chars text.now) format style) }
{
    match Txt::new(alloc, text) {
        Ok(text) => Ok(Fields::Text(TextFields {
            text,
            format,
            detail: 0,
            mode: Mode::Normal,
            style,
        })),
        Err(NoMemory) => {
            drop(style);
            Err(NoMemory)
        }
    }
}

/// Types into the text of the point itself.
#[tactic(auto, unfolding(crate::specs::Inserting::typed_into, lx_select::specs::Rules::offset_sum))]
fn type_into(draft: &mut Draft, text: &str, point: &Point) -> Result<(), Fault>
    ensures { Does (inserting.typed_into (chars text.now) point.now draft.old) draft.new result }
{
    draft.splice(point.key, point.offset, point.offset, text)?;
    let end = point.offset.saturating_add(lx_text::length(text));
    place_caret(draft, &text_point(point.key, end));
    Ok(())
}

/// Types into a new text at the point, in the style of the text there.
#[tactic(auto, unfolding(crate::specs::Inserting::typed_new), using(crate::proofs::Made::text_suits, crate::proofs::Made::newest_is))]
fn type_new(
    alloc: Global,
    draft: &mut Draft,
    text: &str,
    point: &Point,
    format: u16,
) -> Result<(), Fault>
    ensures { Does (inserting.typed_new (chars text.now) format point.now draft.old) draft.new result }
{
    let style = style_at(alloc, draft, point.key)?;
    let fields = typed_fields(alloc, text, format, style)?;
    let key = add(alloc, draft, point, Kind::Text, fields)?;
    place_caret(draft, &text_point(key, lx_text::length(text)));
    Ok(())
}

/// Types at a point.
#[tactic(auto, unfolding(crate::specs::Inserting::typed))]
fn type_at(
    alloc: Global,
    draft: &mut Draft,
    text: &str,
    point: &Point,
    format: u16,
) -> Result<(), Fault>
    ensures { Does (inserting.typed (chars text.now) point.now format draft.old) draft.new result }
{
    if is_of_format(draft, point.key, format) {
        type_into(draft, text, point)
    } else {
        type_new(alloc, draft, text, point, format)
    }
}

fn has_no_text(text: &str) -> bool
    ensures { result ≡ texts.has_no_text (chars text.now) }
{
    text.chars().next().is_none()
}

/// Removes what is selected, for a step at the anchor of the range after that, which it answers.
fn cleared(alloc: Global, draft: &mut Draft) -> Result<Ranged, Fault>
    ensures ok { IfOk result (λ range. (step : PointIn → ℕ → Working → Result Working CauseOf) → after (remove_text_step draft.old) (ranges.at_anchor step) ≡ step range.anchor range.format draft.new) }
    ensures err { IfErr result (λ e. (step : PointIn → ℕ → Working → Result Working CauseOf) → TellsStep e (after (remove_text_step draft.old) (ranges.at_anchor step))) }
    ensures standing { IfErr result (λ e. StillStands e draft.new) }
{
    remove_selected(alloc, draft)?;
    anchored(draft)
}

/// The text in the place of what is selected.
#[tactic(auto, unfolding(crate::specs::Inserting::insert_text_step))]
pub(crate) fn put_text(alloc: Global, draft: &mut Draft, text: &str) -> Result<(), Fault>
    ensures { Does (insert_text_step (chars text.now) draft.old) draft.new result }
{
    remove_selected(alloc, draft)?;
    if has_no_text(text) {
        return Ok(());
    }
    let range = anchored(draft)?;
    type_at(alloc, draft, text, &range.anchor, range.format)
}

/// The place after a node in its parent.
pub fn place_behind(links: &Links, key: Key) -> Point
    ensures { result ≡ inserting.place_behind links.now key }
{
    match (links.parent(key), links.index_of(key)) {
        (Some(parent), Some(index)) => element_point(parent, index + 1),
        _ => element_point(key, 0),
    }
}

/// Puts a line break at a point, and the caret after it.
#[tactic(auto, unfolding(crate::specs::Inserting::broken), using(crate::proofs::Made::break_suits, crate::proofs::Made::newest_is))]
fn break_at(alloc: Global, draft: &mut Draft, point: &Point) -> Result<(), Fault>
    ensures ok { OnOk result ((format : ℕ) → inserting.broken point.now format draft.old ≡ Ok draft.new) }
    ensures err { IfErr result (λ e. (format : ℕ) → TellsStep e (inserting.broken point.now format draft.old)) }
    ensures standing { IfErr result (λ e. StillStands e draft.new) }
{
    let key = add(alloc, draft, point, Kind::Break, Fields::Bare)?;
    let behind = place_behind(draft.links(), key);
    place_caret(draft, &behind);
    Ok(())
}

/// A line break in the place of what is selected.
#[tactic(auto, unfolding(crate::specs::Inserting::insert_line_break_step))]
pub(crate) fn put_line_break(alloc: Global, draft: &mut Draft) -> Result<(), Fault>
    ensures { Does (insert_line_break_step draft.old) draft.new result }
{
    let range = cleared(alloc, draft)?;
    break_at(alloc, draft, &range.anchor)
}

/// The fields of a tab.
#[tactic(auto, using(crate::proofs::Made::one_tab))]
fn tab_fields(alloc: Global, format: u16) -> Result<Fields, NoMemory>
    ensures { IfOk result (λ made. made ≡ inserting.tab_fields format) }
{
    Ok(Fields::Text(TextFields {
        text: Txt::new(alloc, "\t")?,
        format,
        detail: 2,
        mode: Mode::Normal,
        style: Txt::empty(alloc),
    }))
}

/// Puts a tab at a point, and the caret after its character.
#[tactic(auto, unfolding(crate::specs::Inserting::tabbed), using(crate::proofs::Made::tab_suits, crate::proofs::Made::newest_is))]
fn tab_at(alloc: Global, draft: &mut Draft, point: &Point, format: u16) -> Result<(), Fault>
    ensures { Does (inserting.tabbed point.now format draft.old) draft.new result }
{
    let fields = tab_fields(alloc, format)?;
    let key = add(alloc, draft, point, Kind::Tab, fields)?;
    place_caret(draft, &text_point(key, 1));
    Ok(())
}

/// A tab in the place of what is selected.
#[tactic(auto, unfolding(crate::specs::Inserting::insert_tab_step))]
pub(crate) fn put_tab(alloc: Global, draft: &mut Draft) -> Result<(), Fault>
    ensures { Does (insert_tab_step draft.old) draft.new result }
{
    let range = cleared(alloc, draft)?;
    tab_at(alloc, draft, &range.anchor, range.format)
}
