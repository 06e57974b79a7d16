//! The block that comes after one that is cut.

ghost use Rattle.std.specs.Prelude.{◌≡◌, ◌≢◌, true, if◌then◌else◌, IfOk};
ghost use Rattle.std.specs.List.{list_all};
ghost use Rattle.lx_node.specs.Kinds as kinds;
ghost use Rattle.lx_node.specs.OfKind.{IsOfKind};
ghost use Rattle.lx_node.specs.declared.kind.Kind.TheVariants.{Root, Paragraph, Quote};
ghost use Rattle.lx_node.specs.declared.fields.Extra.TheVariants as extra;
ghost use Rattle.lx_forest.specs.Lookups as lookups;
ghost use Rattle.lx_draft.specs.Working.{Working};
ghost use Rattle.lx_draft.specs.Steps.{new_step};
ghost use Rattle.lx_edit.specs.Standing.{Does};
ghost use Rattle.lx_blocks.specs.Blocks as blocks;
ghost use Rattle.lx_caret.specs.Paragraphs as paragraphs;

use lx_blocks::{is_inline_at, node_at};
use lx_draft::Draft;
use lx_links::Links;
use lx_node::{ElementFields, Extra, Fault, Fields, Key, Kind, NoMemory, Node};
use std::alloc::Global;

/// Makes the block that comes after one, into which these nodes go, and answers its key.
pub(crate) fn make_next(
    alloc: Global,
    draft: &mut Draft,
    block: Key,
    moved: &[Key],
) -> Result<Key, Fault>
    requires { blocks.is_at kinds.is_text_block draft.old.forest block ≡ true }
    ensures does { Does (paragraphs.new_next draft.old.forest (lookups.label_of draft.old.forest block) moved.now draft.old) draft.new result }
    ensures key { IfOk result (λ key. key ≡ draft.old.next_key) }
{
    let (kind, fields) = next_of(alloc, draft.links(), block, moved)?;
    draft.new_node(kind, fields)
}

/// The kind and the fields of the block that comes after one, into which these nodes go.
fn next_of(
    alloc: Global,
    links: &Links,
    block: Key,
    moved: &[Key],
) -> Result<(Kind, Fields), NoMemory>
    requires { blocks.is_at kinds.is_text_block links.now block ≡ true }
    ensures next { IfOk result (λ next. (w : Working) → paragraphs.new_next links.now (lookups.label_of links.now block) moved.now w ≡ new_step next.0 next.1 w) }
    ensures other { IfOk result (λ next. next.0 ≢ Root) }
    ensures of_kind { IfOk result (λ next. IsOfKind next.0 next.1) }
{
    match node_at(links, block) {
        Some(node) => next_of_node(alloc, links, block, node, moved),
        None => unreachable!(),
    }
}

/// The same, by the block's node.
fn next_of_node(
    alloc: Global,
    links: &Links,
    block: Key,
    node: &Node,
    moved: &[Key],
) -> Result<(Kind, Fields), NoMemory>
    requires text_block { kinds.is_text_block node.now.kind ≡ true }
    requires suited { IsOfKind node.now.kind node.now.fields }
    ensures next { IfOk result (λ next. paragraphs.next_of_kind links.now (record { key = block; kind = node.now.kind; fields = node.now.fields }) moved.now node.now.kind ≡ record { kind = next.0; fields = next.1 }) }
    ensures other { IfOk result (λ next. next.0 ≢ Root) }
    ensures of_kind { IfOk result (λ next. IsOfKind next.0 next.1) }
{
    match node.kind {
        Kind::Heading(_) if moved.is_empty() => {
            Ok((Kind::Paragraph, Fields::plain_element(alloc)))
        }
        Kind::Quote => Ok((next_of_quote(links, moved), Fields::plain_element(alloc))),
        Kind::Item => Ok((Kind::Item, next_item(alloc, &node.fields))),
        kind => Ok((kind, node.fields.copy(alloc)?)),
    }
}

/// What comes after a quote: a paragraph, where what goes into it is a line of text.
fn next_of_quote(links: &Links, moved: &[Key]) -> Kind
    ensures { result ≡ (if list_all (blocks.is_at kinds.is_inline links.now) moved.now then Paragraph else Quote) }
{
    if are_inline(links, moved) {
        Kind::Paragraph
    } else {
        Kind::Quote
    }
}

fn are_inline(links: &Links, keys: &[Key]) -> bool
    ensures { result ≡ list_all (blocks.is_at kinds.is_inline links.now) keys.now }
{
    keys.iter().all(|key| is_inline_at(links, *key))
}

/// The fields of the item that comes after one. Only whether there is a check mark is taken over.
fn next_item(alloc: Global, fields: &Fields) -> Fields
    ensures { result ≡ paragraphs.item_like (Some fields.now) }
{
    let extra = match fields {
        Fields::Element(element) => next_extra(&element.extra),
        _ => Extra::Item {
            value: 1,
            checked: None,
        },
    };
    Fields::Element(ElementFields::with(alloc, extra))
}

fn next_extra(extra: &Extra) -> Extra
    ensures { result ≡ paragraphs.item_extra extra.now }
{
    match extra {
        Extra::Item { checked, .. } => Extra::Item {
            value: 1,
            checked: unchecked(*checked),
        },
        _ => Extra::Item {
            value: 1,
            checked: None,
        },
    }
}

/// A check mark that isn't set, where there is one.
fn unchecked(checked: Option<bool>) -> Option<bool>
    ensures { paragraphs.item_extra (extra.Item 1 checked) ≡ extra.Item 1 result }
{
    match checked {
        Some(_) => Some(false),
        None => None,
    }
}
