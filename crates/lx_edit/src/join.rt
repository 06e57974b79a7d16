ghost use Rattle.lx_edit.specs.Texts as texts;
ghost use Rattle.lx_edit.specs.Texts.{join_step};
ghost use Rattle.lx_edit.specs.Standing.{Does};

use crate::conditions::{admitted, join_fault};
use crate::texts::{length_at, text_of};
use lx_draft::{Draft, PointRule};
use lx_node::{Fault, Key};
use std::alloc::Global;

/// Puts the text of the second text after that of the first, and takes the second out. Points in the second
/// go along. It is refused where one of the two isn't there, where one isn't a text, and where the second
/// doesn't come right after the first; where 100,000 counts were taken, and where the second's text would
/// bring what was written above 16,777,216 scalar values.
#[tactic(auto, unfolding(crate::specs::Texts::join_step))]
pub fn join_texts(alloc: Global, draft: &mut Draft, first: Key, second: Key) -> Result<(), Fault>
    ensures { Does (join_step first second draft.old) draft.new result }
{
    let fault = join_fault(draft.links(), first, second);
    admitted(draft, fault)?;
    join(alloc, draft, first, second)
}

/// Joins two texts that nothing keeps apart.
fn join(alloc: Global, draft: &mut Draft, first: Key, second: Key) -> Result<(), Fault>
    ensures { Does (texts.texts_joined first second draft.old) draft.new result }
{
    let end = length_at(draft, first);
    let text = text_of(alloc, draft, second)?;
    draft.splice(first, end, end, text.as_str())?;
    draft.point_rule(PointRule::Join {
        first,
        len: end,
        second,
    });
    draft.take(second)
}
