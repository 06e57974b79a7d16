//! Live editors for C and for a page: each is kept between calls, in a slot of the caller's. `examples/c/lx_live.h` declares the
//! calls.
#![tactic(auto)]

mod editor;
mod loose;
mod slot;

ghost use Rattle.std.specs.Prelude.{◌≡◌, ◌⊎◌, None, Some};
ghost use Rattle.lx_editor.specs.Editor.{new_editor};
ghost use Rattle.lx_live.specs.Live.{IsOpenCall, IsLineCall, IsReplyCall};

use editor::{CallEnd, LiveEditor, answer, put_reply};
use slot::LiveSlot;
use std::alloc::Global;

/// Opens a new editor in the slot, in the place of one that is there. Its replies to commits include the view, as HTML, where
/// `tells_view` is true, and typing goes on in one entry of the history while less than `delay` milliseconds lie between two
/// commits. The number is 0, or 5 where memory was wanting: the slot is then as it was. Before the first line the reply is
/// empty.
#[unsafe(no_mangle)]
pub extern "C" fn lx_live_open(
    alloc: Global,
    slot: &mut LiveSlot,
    tells_view: bool,
    delay: u64,
) -> u8
    ensures { IsOpenCall result (new_editor tells_view delay) slot.old.handle.value slot.new.handle.value }
{
    let live = match LiveEditor::new(alloc, tells_view, delay) {
        Ok(live) => live,
        Err(_) => return CallEnd::Memory.number(),
    };
    let kept = match Box::new(alloc, live) {
        Ok(kept) => kept,
        Err(_) => return CallEnd::Memory.number(),
    };
    drop(slot.taken(alloc));
    slot.put(kept);
    CallEnd::Done.number()
}

/// Answers a line of bytes, without its end, by the editor in the slot. The number is 0 where it is answered, also where the
/// reply is a refusal: `length` is then that of the reply in bytes, and the output begins with as much of it as goes in. At
/// each other number `length` is 0 and the output stays: 1 where the slot has no editor, 6 where the line has more than
/// 16,777,216 bytes, 7 where the editor has made 4,294,967,295 commits, and nothing is done; 5 where memory was wanting, and the
/// editor is as it was, but for what is pending, which may be dropped if the line runs on it.
#[unsafe(no_mangle)]
pub extern "C" fn lx_live_line(
    alloc: Global,
    slot: &mut LiveSlot,
    line: &[u8],
    output: &mut [u8],
    length: &mut usize,
) -> u8
    ensures { IsLineCall result slot.old.handle.value slot.new.handle.value line.now output.old output.new length.new }
{
    *length = 0;
    let mut kept = match slot.taken(alloc) {
        Some(kept) => kept,
        None => return CallEnd::Closed.number(),
    };
    let end = answer(alloc, &mut kept, line, output, length);
    slot.put(kept);
    end.number()
}

/// Puts the reply to the line that the slot's editor answered last into the output: from byte `from` on, as much as goes in.
/// `length` is that of the whole reply. So a long reply is had in pieces, and takes no memory. The number is 0, or 1 where the
/// slot has no editor: `length` is then 0, and the output stays.
#[unsafe(no_mangle)]
pub extern "C" fn lx_live_reply(
    alloc: Global,
    slot: &mut LiveSlot,
    from: usize,
    output: &mut [u8],
    length: &mut usize,
) -> u8
    ensures same { slot.new.handle.value ≡ slot.old.handle.value }
    ensures copied { IsReplyCall result slot.old.handle.value from output.old output.new length.new }
{
    *length = 0;
    let kept = match slot.taken(alloc) {
        Some(kept) => kept,
        None => return CallEnd::Closed.number(),
    };
    put_reply(&kept, from, output, length);
    slot.put(kept);
    CallEnd::Done.number()
}

/// Drops the editor of the slot, if it has one.
#[unsafe(no_mangle)]
pub extern "C" fn lx_live_close(alloc: Global, slot: &mut LiveSlot)
    ensures { slot.new.handle.value ≡ None }
{
    drop(slot.taken(alloc));
}
