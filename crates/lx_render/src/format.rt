//! The bits of a text's format.

ghost use Rattle.std.specs.Prelude.{◌≡◌, ◌<◌};
ghost use Rattle.lx_render.specs.Render as shown;

/// The format bit of bold text.
pub(crate) const BOLD: u16 = 1;
/// The format bit of italic text.
pub(crate) const ITALIC: u16 = 2;
/// The format bit of struck text.
pub(crate) const STRIKETHROUGH: u16 = 4;
/// The format bit of underlined text.
pub(crate) const UNDERLINE: u16 = 8;
/// The format bit of code.
pub(crate) const CODE: u16 = 16;
/// The format bit of lowered text.
pub(crate) const SUBSCRIPT: u16 = 32;
/// The format bit of raised text.
pub(crate) const SUPERSCRIPT: u16 = 64;
/// The format bit of highlighted text.
pub(crate) const HIGHLIGHT: u16 = 128;

/// Whether a format has this bit.
pub(crate) fn has_bit(bit: u16, format: u16) -> bool
    requires { 0 < bit }
    ensures { result ≡ shown.has_bit bit format }
{
    format / bit % 2 == 1
}
