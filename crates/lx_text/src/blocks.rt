//! How far an offset is in a long text, by blocks of bytes: a block's code units are a sum over its bytes, which takes a
//! fraction of the time that its characters take one by one.

ghost use Rattle.std.specs.Prelude.{◌≡◌, ◌≤◌, length, chars};
ghost use Rattle.lx_node.specs.Units.{units};
ghost use Rattle.lx_text.specs.Blocks.{byte_units};
ghost use Rattle.lx_text.specs.Passing.{IsPassed};

/// The most bytes of a block.
const BLOCK: usize = 1024;

/// How many UTF-16 code units a byte of UTF-8 stands for: 0 where it continues a character, 2 where it is the first of four
/// bytes, and else 1.
fn units_of_byte(byte: u8) -> u32
    ensures { result ≡ byte_units byte }
{
    u32::from(byte < 0x80 || byte >= 0xC0) + u32::from(byte >= 0xF0)
}

/// How many UTF-16 code units a block has.
fn units_in(block: &str) -> u32
    requires short { length block.now ≤ 1024 }
    ensures { result ≡ units (chars block.now) }
{
    let mut units = 0;
    for byte in block.as_bytes() {
        units += units_of_byte(*byte);
    }
    units
}

/// What is after the blocks that end at an offset or before it, and how much further the offset is: inside the next block,
/// or past the end.
pub(crate) fn passed_blocks(text: &str, offset: u32) -> (&str, u32)
    ensures { IsPassed text.now offset result.1 result.0.now }
{
    let mut rest = text;
    let mut left = offset;
    loop {
        let (block, behind) = rest.split_at(rest.floor_char_boundary(BLOCK));
        let units = units_in(block);
        // A block without code units is the end of the text.
        if units == 0 || left < units {
            return (rest, left);
        }
        left -= units;
        rest = behind;
    }
}
