//! The summary of a whole session, which comes in the place of its replies.

ghost use Rattle.std.specs.Prelude.{◌≡◌, IfOk};
ghost use Rattle.serde_json.specs.View.{view};
ghost use Rattle.lx_generator.specs.Summaries.{summary_data, summary_text};

use lx_node::NoMemory;
use serde_json::{Value, json};
use std::alloc::{AllocError, Global};

/// A session as a whole: how many lines it had, and how many of them committed, were idle or were refused; and what is there
/// at its end: characters, nodes with the root, entries of the history, and bytes of the view as HTML.
#[derive(Clone, Copy)]
pub(crate) struct Summary {
    pub(crate) characters: u32,
    pub(crate) commits: u32,
    pub(crate) idle: u32,
    pub(crate) lines: u32,
    pub(crate) nodes: u32,
    pub(crate) redo: u32,
    pub(crate) refused: u32,
    pub(crate) undo: u32,
    pub(crate) view: u64,
}

/// The bytes of a summary, without a line end: compact JSON whose members are in byte order.
pub(crate) fn write_summary(alloc: Global, summary: Summary) -> Result<Vec<u8>, NoMemory>
    ensures { IfOk result (λ bytes. bytes.items ≡ summary_text summary) }
{
    let value = summary_value(alloc, summary)?;
    Ok(value.to_vec(alloc)?)
}

#[tactic(auto, unfolding(crate::specs::Summaries::summary_data))]
fn summary_value(alloc: Global, summary: Summary) -> Result<Value, AllocError>
    ensures { IfOk result (λ v. view v ≡ summary_data summary) }
{
    json!(in alloc; {
        "characters": summary.characters,
        "commits": summary.commits,
        "idle": summary.idle,
        "lines": summary.lines,
        "nodes": summary.nodes,
        "redo": summary.redo,
        "refused": summary.refused,
        "undo": summary.undo,
        "view": summary.view,
    })
}
