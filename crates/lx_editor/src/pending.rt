ghost use Rattle.std.specs.Prelude.{◌≡◌, None};

use lx_draft::Draft;
use lx_step::Tags;

/// Updates that wait for a line which commits them: the draft that they left, how many they are, and what their tags
/// say together.
#[derive(Drop)]
pub(crate) struct Pending {
    pub(crate) draft: Draft,
    pub(crate) lines: u32,
    pub(crate) tags: Tags,
}

/// Nothing is pending any more.
pub(crate) fn forget(pending: &mut Option<Box<Pending>>)
    ensures { pending.new ≡ None }
{
    *pending = None;
}
