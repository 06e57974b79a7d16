//! A large document, into one text of which one types. What is read to find the operations goes by what is marked, and not by the
//! size of the document.

use crate::editing::{room, type_text};
use anyhow::{Context, Result};
use lx_editor::Editor;
use lx_links::Links;
use lx_node::{Key, PointKind};
use lx_step::{PointRef, Reference, SelectionRef, Step, Tags};
use std::alloc::Global;

/// So many elements of a type one after another, each with the same children.
fn repeated(alloc: Global, count: usize, name: &str, children: &str) -> Result<String> {
    let element = format!(in alloc; r#"{{"type":"{name}","children":[{children}]}}"#)?;
    let mut text = String::from_str(alloc, element.as_str())?;
    for _ in 1..count {
        text.push(',')?;
        text.push_str(element.as_str())?;
    }
    Ok(text)
}

/// 80 quotes of 80 paragraphs, each with one text.
fn document(alloc: Global) -> Result<String> {
    let paragraphs = repeated(alloc, 80, "paragraph", r#"{"type":"text","text":"one"}"#)?;
    let quotes = repeated(alloc, 80, "quote", paragraphs.as_str())?;
    repeated(alloc, 1, "root", quotes.as_str())
}

/// Loads the document, as the value of the member `root`.
fn load(alloc: Global, editor: &mut Editor) -> Result<()> {
    room(editor)?;
    let root = document(alloc)?;
    let text = format!(in alloc; r#"{{"root":{}}}"#, root.as_str())?;
    let document = serde_json::from_str(alloc, text.as_str())?;
    let _outcome = editor.load(alloc, &document, Tags::none(), 0)?;
    Ok(())
}

/// The text of the last paragraph of the last quote.
fn last_text(links: &Links) -> Option<Key> {
    let quote = links.last(Key::root())?;
    let paragraph = links.last(quote)?;
    links.last(paragraph)
}

/// The place in front of a text.
fn front_of(text: Key) -> PointRef {
    PointRef {
        node: Reference::Key(text),
        offset: 0,
        kind: PointKind::Text,
    }
}

/// Puts the caret in front of a text.
fn click(alloc: Global, editor: &mut Editor, text: Key) -> Result<()> {
    room(editor)?;
    let caret = SelectionRef::Range {
        anchor: front_of(text),
        focus: front_of(text),
        format: None,
    };
    let steps = vec![in alloc; Step::Select(caret)]?;
    let _outcome = editor.update(alloc, steps.as_slice(), Tags::none(), 0)?;
    Ok(())
}

/// How many nodes there are, how many operations there were, and by how many reads they were found. A node that is marked
/// is the root, the quote, the paragraph or the text. Together they have 80 + 80 + 1 children in each of the two trees, and
/// every node is kept, so the reads are at most 8 * (161 + 161 + 0 + 1).
pub(crate) fn type_into_last_text(alloc: Global) -> Result<String> {
    let mut editor = Editor::new(alloc, false, 1000)?;
    load(alloc, &mut editor)?;
    let text = last_text(&editor.state().links).context("the document has no last text")?;
    click(alloc, &mut editor, text)?;
    let _told = type_text(alloc, &mut editor)?;
    let nodes = editor.state().links.len();
    let batch = editor.last_batch().context("nothing is committed")?;
    let ops = batch.ops().len();
    Ok(format!(in alloc;
        "nodes: {nodes}, operations: {ops}, reads: {}",
        batch.reads()
    )?)
}
