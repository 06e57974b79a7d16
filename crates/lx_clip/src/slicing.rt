//! The slice of a selection.

ghost use Rattle.std.specs.Prelude.{◌≡◌, true, false, option_map, Some, IfOk, IfSome};
ghost use Rattle.serde_json.specs.Data.{Data};
ghost use Rattle.serde_json.specs.View.{view, items_view};
ghost use Rattle.serde_json.specs.Written.{has_float};
ghost use Rattle.lx_forest.specs.Lookups.{is_attached};
ghost use Rattle.lx_caret.specs.Lying.{EachPoint};
ghost use Rattle.lx_links.specs.Stands.{Sound};
ghost use Rattle.lx_json.specs.Exporting.{trees_data};
ghost use Rattle.lx_json.specs.GivenBack.{AreGivenBack};
ghost use Rattle.lx_clip.specs.Copies.{IsCopy};
ghost use Rattle.lx_clip.specs.Extents.{seen};
ghost use Rattle.lx_clip.specs.Slices as slices;

use crate::covering::{Extent, covers_below, make_extent};
use lx_blocks::{Ranged, block, frame, in_order, is_collapsed, same_node, shown_range};
use lx_draft::State;
use lx_links::Links;
use lx_node::{Key, NoMemory, Point};
use serde_json::{Value, json};
use std::alloc::{AllocError, Global};

/// The block of two points, where both have the same.
fn common_block(links: &Links, start: &Point, end: &Point) -> Option<Key>
    ensures { result ≡ slices.common_block links.now start.now end.now }
{
    let first = block(links, start.key)?;
    let second = block(links, end.key)?;
    if first == second { Some(first) } else { None }
}

/// What is written for what is covered of the frame of the start, or of the root where there is none.
fn frame_covers(alloc: Global, links: &Links, extent: &Extent) -> Result<Vec<Value>, NoMemory>
    ensures written { IfOk result (λ values. items_view values.items ≡ trees_data (slices.frame_covers (seen extent.now) links.now)) }
    ensures told { IfOk result (λ values. AreGivenBack (slices.frame_covers (seen extent.now) links.now)) }
{
    let top = frame(links, extent.start.key).unwrap_or(Key::root());
    let covered = covers_below(alloc, links, extent, top)?;
    Ok(covered.values)
}

/// What is written for what is covered of the block, where all of that is inline; else of the frame.
fn covers_in(
    alloc: Global,
    links: &Links,
    extent: &Extent,
    block: Option<Key>,
) -> Result<Vec<Value>, NoMemory>
    ensures written { IfOk result (λ values. items_view values.items ≡ trees_data (slices.covers_in block (seen extent.now) links.now)) }
    ensures told { IfOk result (λ values. AreGivenBack (slices.covers_in block (seen extent.now) links.now)) }
{
    if let Some(block) = block {
        let covered = covers_below(alloc, links, extent, block)?;
        if covered.inline {
            return Ok(covered.values);
        }
    }
    frame_covers(alloc, links, extent)
}

/// What is written for what lies between two points of the root's tree, the first of which comes first.
fn covers_between(
    alloc: Global,
    links: &Links,
    start: &Point,
    end: &Point,
) -> Result<Vec<Value>, NoMemory>
    requires start { is_attached links.now start.now.key ≡ true }
    requires end { is_attached links.now end.now.key ≡ true }
    ensures written { IfOk result (λ values. items_view values.items ≡ trees_data (slices.covers_between links.now start.now end.now)) }
    ensures told { IfOk result (λ values. AreGivenBack (slices.covers_between links.now start.now end.now)) }
{
    let extent = make_extent(alloc, links, start, end)?;
    let block = common_block(links, start, end);
    covers_in(alloc, links, &extent, block)
}

/// The object of a slice with what is written for its nodes.
fn slice_value(alloc: Global, nodes: Vec<Value>) -> Result<Value, AllocError>
    ensures { IfOk result (λ v. view v ≡ slices.slice_of_items (items_view nodes.items)) }
{
    let nodes = Value::Array(nodes);
    json!(in alloc; {"namespace": "lexical-core", "nodes": nodes})
}

/// The slice of a range whose points are in the root's tree.
fn slice_of(alloc: Global, links: &Links, range: &Ranged) -> Result<Option<Value>, NoMemory>
    requires anchor { is_attached links.now range.now.anchor.key ≡ true }
    requires focus { is_attached links.now range.now.focus.key ≡ true }
    ensures sliced { IfOk result (λ slice. option_map view slice ≡ option_map slices.slice_data (slices.range_covers links.now range.now)) }
    ensures told { IfOk result (λ slice. IfSome (slices.range_covers links.now range.now) (λ c. AreGivenBack c)) }
    ensures sound { IfOk result (λ slice. IfSome (slices.range_covers links.now range.now) (λ c. Sound links.now)) }
{
    if is_collapsed(range) {
        return Ok(None);
    }
    if !same_node(
        frame(links, range.anchor.key),
        frame(links, range.focus.key),
    ) {
        return Ok(None);
    }
    let (start, end) = in_order(links, range);
    let nodes = covers_between(alloc, links, &start, &end)?;
    let slice = slice_value(alloc, nodes)?;
    Ok(Some(slice))
}

/// The slice of a state's selection: what a range covers, as an object with the list of its nodes, each written as in a
/// document. There is none where no range is selected, where both of its points are at one place, or where they lie in two
/// cells. Of a text of normal mode the covered part is written, of another text and of a tab the whole where any part is
/// covered, of an element itself where it holds anything covered or lies wholly between the points, and of any other node the
/// node where it lies wholly between. Where both points are in one block, and all that is covered of it is inline, the nodes are
/// what is covered of the block's children; else of the cell's that holds the points, or of the root's.
///
/// What is covered is a copy: a slice that is read back makes the same nodes, but for their keys.
#[tactic(auto, unfolding(crate::specs::Slices::sliced))]
pub fn slice(alloc: Global, state: &State) -> Result<Option<Value>, NoMemory>
    requires { EachPoint (λ p. is_attached state.now.links p.key ≡ true) state.now.selection }
    ensures sliced { IfOk result (λ slice. option_map view slice ≡ option_map slices.slice_data (slices.sliced state.now.links state.now.selection)) }
    ensures copy { IfOk result (λ slice. IfSome (slices.sliced state.now.links state.now.selection) IsCopy) }
    ensures whole { IfOk result (λ slice. (d : Data) → option_map view slice ≡ Some d → has_float d ≡ false) }
{
    match shown_range(&state.selection) {
        Some(range) => slice_of(alloc, &state.links, &range),
        None => Ok(None),
    }
}
