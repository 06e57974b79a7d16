//! What of nodes a range covers, as it is written for a slice.

ghost use Rattle.std.specs.Prelude.{◌≡◌, ◌&&◌, ◌++◌, ◌∷◌, [], ℕ, true, option_map, Some, IfOk, OnOk, IfSome};
ghost use Rattle.std.specs.Option.{option_copied};
ghost use Rattle.serde_json.specs.Data.{item, no_items};
ghost use Rattle.serde_json.specs.View.{view, items_view};
ghost use Rattle.lx_trees.specs.Siblings.{is_among};
ghost use Rattle.lx_node.specs.OfKind as of_kind;
ghost use Rattle.lx_node.specs.OfKind.{IsOfKind};
ghost use Rattle.lx_node.specs.Kinds.{is_inline};
ghost use Rattle.lx_text.specs.Texts.{slice_of};
ghost use Rattle.lx_forest.specs.Forest.{Forest};
ghost use Rattle.lx_forest.specs.Lookups as lookups;
ghost use Rattle.lx_links.specs.Stands.{Sound};
ghost use Rattle.lx_draft.specs.Faults.{text_in};
ghost use Rattle.lx_draft.specs.Steps.{text_replaced};
ghost use Rattle.lx_blocks.specs.Blocks.{is_at};
ghost use Rattle.lx_blocks.specs.Ranges.{if_normal};
ghost use Rattle.lx_json.specs.Exporting.{trees_data};
ghost use Rattle.lx_json.specs.GivenBack.{AreGivenBack};
ghost use Rattle.lx_clip.specs.Covers as covers;
ghost use Rattle.lx_clip.specs.Covers.{item_if, label_for};
ghost use Rattle.lx_clip.specs.Extents.{seen, with_key, AreAlike};
ghost use Rattle.lx_clip.specs.Slices as slices;

use indexmap::IndexSet;
use lx_blocks::{covered, is_inline_at};
use lx_draft::with_text;
use lx_fields::node_value;
use lx_links::Links;
use lx_node::{Fields, Key, Kind, Mode, NoMemory, Node, Point, TextFields};
use serde_json::Value;
use std::alloc::Global;

/// What a range covers: its two points in order, and the nodes that lie wholly between them.
#[derive(Drop)]
pub(crate) struct Extent {
    pub(crate) start: Point,
    pub(crate) end: Point,
    pub(crate) between: IndexSet<Key>,
}

fn add_key(keys: &mut IndexSet<Key>, key: Key) -> Result<(), NoMemory>
    ensures { OnOk result (keys.new.keys ≡ with_key key keys.old.keys) }
{
    keys.insert(key)?;
    Ok(())
}

/// The set of these keys.
#[tactic(auto, using(crate::proofs::Sets::among_with, crate::proofs::Sets::or_assoc))]
fn set_of(alloc: Global, keys: &[Key]) -> Result<IndexSet<Key>, NoMemory>
    ensures { IfOk result (λ made. (k : ℕ) → is_among k made.keys ≡ is_among k keys.now) }
{
    let mut made = IndexSet::new(alloc);
    for key in keys {
        add_key(&mut made, *key)?;
    }
    Ok(made)
}

/// What lies between two points of the root's tree, the first of which comes first.
pub(crate) fn make_extent(
    alloc: Global,
    links: &Links,
    start: &Point,
    end: &Point,
) -> Result<Extent, NoMemory>
    requires start { lookups.is_attached links.now start.now.key ≡ true }
    requires end { lookups.is_attached links.now end.now.key ≡ true }
    ensures { IfOk result (λ extent. AreAlike (seen extent) (slices.extent links.now start.now end.now)) }
{
    let keys = covered(alloc, links, start, end)?;
    let between = set_of(alloc, &keys)?;
    Ok(Extent {
        start: *start,
        end: *end,
        between,
    })
}

/// Whether a node lies wholly between the two points.
fn is_between(extent: &Extent, key: Key) -> bool
    ensures { result ≡ is_among key (seen extent.now).between }
{
    extent.between.contains(&key)
}

// ---- texts

/// From where the range goes in a text or tab.
fn from_in(extent: &Extent, key: Key) -> u32
    ensures { result ≡ covers.from_in (seen extent.now) key }
{
    if key == extent.start.key {
        extent.start.offset
    } else {
        0
    }
}

/// To where the range goes in a text or tab of this length.
fn to_in(extent: &Extent, key: Key, length: u32) -> u32
    ensures { result ≡ covers.to_in (seen extent.now) key length }
{
    if key == extent.end.key {
        extent.end.offset
    } else {
        length
    }
}

/// Whether a point is in a text or tab, or it lies between them.
fn is_met(extent: &Extent, key: Key) -> bool
    ensures { result ≡ covers.is_met (seen extent.now) key }
{
    (key == extent.start.key || key == extent.end.key) || is_between(extent, key)
}

#[tactic(auto, unfolding(lx_node::specs::OfKind::is_normal))]
fn is_normal(mode: Mode) -> bool
    ensures { result ≡ of_kind.is_normal mode }
{
    matches!(mode, Mode::Normal)
}

/// The fields of a text of normal mode. A tab is none.
fn normal_text(node: &Node) -> Option<&TextFields>
    ensures { (key : ℕ) → option_copied result ≡ if_normal (text_in (Some (label_for key node.now))) }
{
    match (node.kind, &node.fields) {
        (Kind::Text, Fields::Text(text)) => {
            if is_normal(text.mode) {
                Some(text)
            } else {
                None
            }
        }
        _ => None,
    }
}

/// The fields of a text with a piece of it alone.
fn cut_fields(alloc: Global, text: &TextFields, from: u32, to: u32) -> Result<Fields, NoMemory>
    ensures { IfOk result (λ cut. cut ≡ text_replaced text.now (slice_of from to text.now.text)) }
{
    match lx_text::slice(alloc, text.text.as_str(), from, to) {
        Ok(piece) => with_text(alloc, text, piece),
        Err(_) => Err(NoMemory),
    }
}

/// What is written for a text or tab of which a part is covered: for a normal text that part, and for any other the whole.
#[tactic(auto, unfolding(lx_json::specs::Exporting::trees_data))]
fn part_value(alloc: Global, node: &Node, from: u32, to: u32) -> Result<Value, NoMemory>
    requires { IsOfKind node.now.kind node.now.fields }
    ensures written { IfOk result (λ v. (key : ℕ) → trees_data (covers.part_cover from to (label_for key node.now)) ≡ item (view v) no_items) }
    ensures told { IfOk result (λ v. (key : ℕ) → AreGivenBack (covers.part_cover from to (label_for key node.now))) }
{
    match normal_text(node) {
        Some(text) => {
            let cut = cut_fields(alloc, text, from, to)?;
            node_value(alloc, node.kind, &cut, Vec::new(alloc))
        }
        None => node_value(alloc, node.kind, &node.fields, Vec::new(alloc)),
    }
}

/// What is written for a text or tab as far as it is covered.
fn text_cover(
    alloc: Global,
    extent: &Extent,
    key: Key,
    node: &Node,
    text: &TextFields,
) -> Result<Option<Value>, NoMemory>
    requires { IsOfKind node.now.kind node.now.fields }
    ensures written { IfOk result (λ v. trees_data (covers.text_cover (seen extent.now) text.now (label_for key node.now)) ≡ item_if (option_map view v)) }
    ensures told { IfOk result (λ v. AreGivenBack (covers.text_cover (seen extent.now) text.now (label_for key node.now))) }
{
    let from = from_in(extent, key);
    let to = to_in(extent, key, lx_text::length_of(&text.text));
    if is_met(extent, key) && from < to {
        let value = part_value(alloc, node, from, to)?;
        Ok(Some(value))
    } else {
        Ok(None)
    }
}

// ---- nodes

/// What is written for an element, with what is covered of its children: nothing where that is nothing, and the element doesn't
/// lie between.
#[tactic(auto, unfolding(lx_json::specs::Exporting::trees_data))]
fn element_cover(
    alloc: Global,
    extent: &Extent,
    key: Key,
    node: &Node,
    below: Vec<Value>,
) -> Result<Option<Value>, NoMemory>
    requires { IsOfKind node.now.kind node.now.fields }
    ensures written { IfOk result (λ v. (f : Forest) → items_view below.items ≡ trees_data f → trees_data (covers.element_cover (seen extent.now) (label_for key node.now) f) ≡ item_if (option_map view v)) }
    ensures told { IfOk result (λ v. (f : Forest) → items_view below.items ≡ trees_data f → AreGivenBack f → AreGivenBack (covers.element_cover (seen extent.now) (label_for key node.now) f)) }
{
    if below.is_empty() && !is_between(extent, key) {
        return Ok(None);
    }
    let value = node_value(alloc, node.kind, &node.fields, below)?;
    Ok(Some(value))
}

/// What is written for a node without characters or children.
#[tactic(auto, unfolding(lx_json::specs::Exporting::trees_data))]
fn leaf_cover(
    alloc: Global,
    extent: &Extent,
    key: Key,
    node: &Node,
) -> Result<Option<Value>, NoMemory>
    requires { IsOfKind node.now.kind node.now.fields }
    ensures written { IfOk result (λ v. trees_data (covers.leaf_cover (seen extent.now) (label_for key node.now)) ≡ item_if (option_map view v)) }
    ensures told { IfOk result (λ v. AreGivenBack (covers.leaf_cover (seen extent.now) (label_for key node.now))) }
{
    if is_between(extent, key) {
        let value = node_value(alloc, node.kind, &node.fields, Vec::new(alloc))?;
        Ok(Some(value))
    } else {
        Ok(None)
    }
}

/// What is written for some nodes as far as they are covered, and whether all of those for which something is are inline.
#[derive(Drop)]
pub(crate) struct Covered {
    pub(crate) values: Vec<Value>,
    pub(crate) inline: bool,
}

/// Keeps what is written for a node.
fn keep(covered: &mut Covered, links: &Links, key: Key, value: Value) -> Result<(), NoMemory>
    ensures values { OnOk result (covered.new.values.items ≡ covered.old.values.items ++ value ∷ []) }
    ensures inline { OnOk result (covered.new.inline ≡ (covered.old.inline && is_at is_inline links.now key)) }
{
    covered.values.push(value)?;
    covered.inline = covered.inline && is_inline_at(links, key);
    Ok(())
}

/// What is written for a node as far as it is covered.
#[cycle(cover)]
fn cover(alloc: Global, links: &Links, extent: &Extent, key: Key) -> Result<Option<Value>, NoMemory>
    requires there { lookups.has key links.now ≡ true }
    ensures written { IfOk result (λ v. trees_data (covers.covers (seen extent.now) (lookups.alone key links.now)) ≡ item_if (option_map view v)) }
    ensures inline { IfOk result (λ v. IfSome v (λ _. covers.are_inline (covers.covers (seen extent.now) (lookups.alone key links.now)) ≡ is_at is_inline links.now key)) }
    ensures told { IfOk result (λ v. AreGivenBack (covers.covers (seen extent.now) (lookups.alone key links.now))) }
    ensures sound { Sound links.now }
{
    let Some(node) = links.node(key) else {
        unreachable!();
    };
    match &node.fields {
        Fields::Text(text) => text_cover(alloc, extent, key, node, text),
        Fields::Element(_) => match covers_below(alloc, links, extent, key) {
            Ok(below) => element_cover(alloc, extent, key, node, below.values),
            Err(NoMemory) => Err(NoMemory),
        },
        _ => leaf_cover(alloc, extent, key, node),
    }
}

/// What is written for a node's children as far as they are covered.
#[cycle(cover)]
pub(crate) fn covers_below(
    alloc: Global,
    links: &Links,
    extent: &Extent,
    key: Key,
) -> Result<Covered, NoMemory>
    ensures written { IfOk result (λ c. items_view c.values.items ≡ trees_data (slices.covers_below (seen extent.now) links.now key)) }
    ensures inline { IfOk result (λ c. c.inline ≡ covers.are_inline (slices.covers_below (seen extent.now) links.now key)) }
    ensures told { IfOk result (λ c. AreGivenBack (slices.covers_below (seen extent.now) links.now key)) }
{
    let mut covered = Covered {
        values: Vec::new(alloc),
        inline: true,
    };
    for child in links.children(key) {
        match cover(alloc, links, extent, child) {
            Ok(Some(value)) => match keep(&mut covered, links, child, value) {
                Ok(()) => {}
                Err(NoMemory) => return Err(NoMemory),
            },
            Ok(None) => {}
            Err(NoMemory) => return Err(NoMemory),
        }
    }
    Ok(covered)
}
