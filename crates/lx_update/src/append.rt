ghost use Rattle.std.specs.Prelude.{chars};
ghost use Rattle.lx_edit.specs.Standing.{Does};
ghost use Rattle.lx_update.specs.Appending.{appended, text_put, text_step};

use lx_draft::Draft;
use lx_node::{Fault, Fields, Key, Kind};
use std::alloc::Global;

/// A new paragraph at the root's end, with a new text in it unless the text is empty.
#[tactic(auto, unfolding(crate::specs::Appending::appended))]
pub(crate) fn append_paragraph(alloc: Global, draft: &mut Draft, text: &str) -> Result<(), Fault>
    ensures { Does (appended (chars text.now) draft.old) draft.new result }
{
    let paragraph = draft.new_node(Kind::Paragraph, Fields::plain_element(alloc))?;
    fill(alloc, draft, paragraph, text)?;
    let index = draft.links().size(Key::root());
    draft.put(paragraph, Key::root(), index)
}

/// A new text in a node without children, unless it is empty.
fn fill(alloc: Global, draft: &mut Draft, parent: Key, text: &str) -> Result<(), Fault>
    ensures { Does (text_put parent (chars text.now) draft.old) draft.new result }
{
    if text.is_empty() {
        Ok(())
    } else {
        append_text(alloc, draft, parent, text)
    }
}

/// A new text in a node without children.
fn append_text(alloc: Global, draft: &mut Draft, parent: Key, text: &str) -> Result<(), Fault>
    ensures { Does (text_step parent (chars text.now) draft.old) draft.new result }
{
    let key = draft.new_node(Kind::Text, Fields::plain_text(alloc, text)?)?;
    draft.put(key, parent, 0)
}
