//! Cells that are selected.

ghost use Rattle.std.specs.Prelude.{◌≡◌, ◌≢◌, Ok, OnOk, IfErr};
ghost use Rattle.lx_trees.specs.Trees.{nil};
ghost use Rattle.lx_select.specs.declared.selection.Selection.TheVariants.{Cells};
ghost use Rattle.lx_draft.specs.Faults.{TellsStep, Leaves};
ghost use Rattle.lx_draft.specs.Steps.{select_step};

use lx_draft::Draft;
use lx_node::{Fault, Key};
use lx_select::Selection;

/// Selects the cells of a table from one to another. They may lie anywhere below it.
///
/// It is refused, as `Draft::select` is,
/// * with `UnknownNode` and the first of the three that isn't there;
/// * with `WrongKind` and its kind, where the first isn't a table or another isn't a cell;
/// * with `BadPlace` and the key of a cell that isn't below the table.
///
/// A draft on which it was refused is as it was.
pub fn select_cells(draft: &mut Draft, table: Key, anchor: Key, focus: Key) -> Result<(), Fault>
    ensures ok { OnOk result (select_step (Cells table anchor focus) draft.old ≡ Ok draft.new) }
    ensures err { IfErr result (λ e. TellsStep e (select_step (Cells table anchor focus) draft.old)) }
    ensures left { IfErr result (λ e. Leaves e draft.old draft.new) }
    ensures living { OnOk result (draft.old.forest ≢ nil) }
{
    draft.select(Selection::Cells {
        table,
        anchor,
        focus,
    })
}
