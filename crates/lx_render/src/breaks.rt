//! Which elements a line break ends.

ghost use Rattle.std.specs.Prelude.{◌≡◌};
ghost use Rattle.lx_render.specs.Render as shown;

use lx_node::Kind;

/// Whether a line that ends with a node of this kind, or is empty, has no height of its own.
fn is_open(last: Option<Kind>) -> bool
    ensures { result ≡ shown.is_open last }
{
    matches!(last, None | Some(Kind::Break | Kind::Embed))
}

/// Whether a line break ends an element of this kind whose last child is of that kind.
pub fn needs_break(kind: Kind, last: Option<Kind>) -> bool
    ensures { result ≡ shown.needs_break kind last }
{
    kind.is_text_block() && is_open(last)
}
