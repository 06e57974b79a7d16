//! The slot in which a caller keeps an editor: 16 bytes whose only meaning is here.
ghost use Rattle.std.specs.Prelude.{◌≡◌, ℕ, T, Option, None, Some, is_some, option_map};
ghost use Rattle.std.specs.Global.{Box};
ghost use Rattle.std.specs.Coded.{codes};
ghost use Rattle.lx_live.specs.declared.editor.LiveEditor.{LiveEditor};
ghost use Rattle.lx_live.specs.Slots.{slot_owns};
ghost use Rattle.lx_live.specs.contracts.editor.LiveEditor as live;

use crate::editor::LiveEditor;
use crate::loose::Loose;
use std::alloc::Global;
use std::marker::Model;
use std::mem::replace;
use std::ptr::null_mut;

/// An editor in a block of the heap, as its address, or none. It owns what it leads to.
#[repr(C)]
#[derive(Drop)]
pub struct Handle {
    at: *mut u8,
    pub ghost value: { Option LiveEditor } by { Prim.hlevel (codes, live.the_row.coded) },
}

impl Model for Handle {
    ghost also_owns = { λ h. slot_owns live.the_row h.at h.value };
}

impl Handle {
    /// No editor: null.
    fn none() -> Handle
        ensures { result.value ≡ None }
    {
        Handle { at: null_mut() }
    }

    /// Forgets the type of the address.
    fn of(loose: Loose<LiveEditor, Global>) -> Handle
        ensures { result.value ≡ Some loose.value }
    {
        let Loose { at, alloc: _ } = loose;
        Handle { at: at as *mut u8 }
    }

    /// Gives the address its type back.
    fn into_loose(self, alloc: Global) -> Loose<LiveEditor, Global>
        requires { T (is_some self.value) }
        ensures { self.value ≡ Some result.value }
    {
        let Handle { at } = self;
        Loose {
            at: at as *mut LiveEditor,
            alloc,
        }
    }
}

/// What a caller keeps: whether there is an editor, and its handle. A slot of zeros has none.
#[repr(C)]
pub struct LiveSlot {
    is_open: bool,
    pub handle: Handle,
    ghost agrees: { is_open ≡ is_some handle.value },
}

impl LiveSlot {
    /// Takes the editor out, if there is one.
    pub(crate) fn taken(&mut self, alloc: Global) -> Option<Box<LiveEditor>>
        ensures taken { self.old.handle.value ≡ option_map (λ (b : Box LiveEditor). b.value) result }
        ensures left { self.new.handle.value ≡ None }
    {
        if !self.is_open {
            return None;
        }
        let handle = replace(&mut self.handle, Handle::none());
        self.is_open = false;
        Some(handle.into_loose(alloc).into_box())
    }

    /// Puts an editor into an empty slot.
    pub(crate) fn put(&mut self, kept: Box<LiveEditor>)
        requires { self.old.handle.value ≡ None }
        ensures { self.new.handle.value ≡ Some kept.value }
    {
        drop(replace(&mut self.handle, Handle::of(Loose::of(kept))));
        self.is_open = true;
    }
}
