use crate::stock::{Stock, insert_within};
use crate::tag::{Name, Tag};
use lx_node::{Copied, Key, NoMemory, Sequence, Txt};
use std::alloc::Global;
use std::cmp::Ordering;
use std::marker::Model;

/// The attributes of a host, as the list of their names and values, whose names rise strictly in byte
/// order. There are at most 4,294,967,295 of them.
#[derive(Debug, Drop)]
pub struct Attrs {
    items: Vec<(Name, Txt)>,
}

impl Model for Attrs {
    ghost use Rattle.std.specs.Prelude.{List, ℕ};
    ghost use Rattle.lx_host.specs.declared.tag.Name.{Name};

    ghost Value = { List (Name × List ℕ) };

    ghost view = { λ a. a.items.items };

    ghost use Rattle.lx_host.specs.Words.{AreAttributes};

    ghost invariant = { λ a. AreAttributes a.items.items };
}

impl Attrs {
    ghost use Rattle.std.specs.Prelude.{◌≡◌, IfOk};
    ghost use Rattle.lx_host.specs.Words.{AreAttributes};

    /// The attributes of these items. It takes no memory.
    pub fn of(items: Vec<(Name, Txt)>) -> Attrs
        requires { AreAttributes items.items }
        ensures { result ≡ items.items }
    {
        Attrs { items }
    }

    /// The names and values, in their order.
    pub fn items(&self) -> &[(Name, Txt)]
        ensures items { result.now ≡ self.now }
        ensures rising { AreAttributes result.now }
    {
        self.items.as_slice()
    }

    /// The names and values themselves.
    pub fn into_vec(self) -> Vec<(Name, Txt)>
        ensures { result.items ≡ self }
    {
        self.items
    }

    ghost use Rattle.std.specs.Prelude.{OnOk, OnErr};
    ghost use Rattle.lx_host.specs.Words.{with_attribute};

    /// Gives the attribute of that name this value, or takes it away. Without memory nothing changes.
    pub fn write(&mut self, name: Name, value: Option<Txt>) -> Result<(), NoMemory>
        ensures ok { OnOk result (self.new ≡ with_attribute name value self.old) }
        ensures err { OnErr result (self.new ≡ self.old) }
    {
        match value {
            Some(value) => self.give(name, value),
            None => {
                self.take_away(name);
                Ok(())
            }
        }
    }

    ghost use Rattle.std.specs.Prelude.{Some, None};

    /// Gives the attribute of that name this value. Without memory nothing changes.
    fn give(&mut self, name: Name, value: Txt) -> Result<(), NoMemory>
        ensures ok { OnOk result (self.new ≡ with_attribute name (Some value) self.old) }
        ensures err { OnErr result (self.new ≡ self.old) }
    {
        match place_of(&self.items, name) {
            Ok(at) => {
                self.items[at] = (name, value);
                Ok(())
            }
            Err(at) => {
                self.items.insert(at, (name, value))?;
                Ok(())
            }
        }
    }

    ghost use Rattle.std.specs.Prelude.{◌≤◌, ◌<◌, ◌+◌};
    ghost use Rattle.lx_host.specs.Room.{one_for};

    /// Gives the attribute of that name this value, or takes it away. It takes no memory, but a vector of the
    /// stock at most where there is a value.
    pub(crate) fn write_within(&mut self, name: Name, value: Option<Txt>, stock: &mut Stock)
        requires { one_for value ≤ stock.old }
        ensures written { self.new ≡ with_attribute name value self.old }
        ensures left { stock.old ≤ stock.new + one_for value }
    {
        match value {
            Some(value) => self.give_within(name, value, stock),
            None => self.take_away(name),
        }
    }

    /// Gives the attribute of that name this value. It takes a vector of the stock at most.
    fn give_within(&mut self, name: Name, value: Txt, stock: &mut Stock)
        requires { 0 < stock.old }
        ensures given { self.new ≡ with_attribute name (Some value) self.old }
        ensures left { stock.old ≤ stock.new + 1 }
    {
        match place_of(&self.items, name) {
            Ok(at) => self.items[at] = (name, value),
            Err(at) => insert_within(&mut self.items, at, (name, value), stock),
        }
    }

    /// Takes the attribute of that name away, if it is there.
    fn take_away(&mut self, name: Name)
        ensures { self.new ≡ with_attribute name None self.old }
    {
        if let Ok(at) = place_of(&self.items, name) {
            self.items.remove(at);
        }
    }

    /// Equal attributes. They take memory for the list and for each value.
    pub fn copy(&self, alloc: Global) -> Result<Attrs, NoMemory>
        ensures { IfOk result (λ made. made ≡ self.now) }
    {
        let mut items = Vec::new(alloc);
        for (name, value) in &self.items {
            let value = value.copy(alloc)?;
            items.push((*name, value))?;
        }
        Ok(Attrs { items })
    }
}

/// One change of a host tree.
#[derive(Debug, Drop)]
pub enum Op {
    /// Makes a host, which isn't placed yet.
    Create {
        id: u32,
        key: Key,
        tag: Tag,
        attrs: Attrs,
        text: Option<Txt>,
        ending: bool,
    },
    /// Puts a host with all below it among another's children, before one of them or at the end.
    Place {
        parent: u32,
        child: u32,
        before: Option<u32>,
    },
    /// Takes a host away, with all below it.
    Drop {
        id: u32,
    },
    /// Gives a host this text in place of the one that it has, if any.
    Text {
        id: u32,
        text: Txt,
    },
    /// Gives a host's attribute of that name this value, or takes the attribute away.
    Attr {
        id: u32,
        name: Name,
        value: Option<Txt>,
    },
    /// Has a line break end a host, or none.
    Break {
        id: u32,
        ending: bool,
    },
}

/// Operations in their order.
pub type Ops = Sequence<Op>;

impl Copied for Op {
    /// An equal operation. It takes memory for its texts and attributes.
    fn copy(&self, alloc: Global) -> Result<Op, NoMemory> {
        match self {
            Op::Create {
                id,
                key,
                tag,
                attrs,
                text,
                ending,
            } => Ok(Op::Create {
                id: *id,
                key: *key,
                tag: *tag,
                attrs: attrs.copy(alloc)?,
                text: copy_text(alloc, text)?,
                ending: *ending,
            }),
            Op::Place {
                parent,
                child,
                before,
            } => Ok(Op::Place {
                parent: *parent,
                child: *child,
                before: *before,
            }),
            Op::Drop { id } => Ok(Op::Drop { id: *id }),
            Op::Text { id, text } => Ok(Op::Text {
                id: *id,
                text: text.copy(alloc)?,
            }),
            Op::Attr { id, name, value } => Ok(Op::Attr {
                id: *id,
                name: *name,
                value: copy_text(alloc, value)?,
            }),
            Op::Break { id, ending } => Ok(Op::Break {
                id: *id,
                ending: *ending,
            }),
        }
    }
}

ghost use Rattle.std.specs.Prelude.{◌≡◌, IfOk};

/// An equal text, where there is one.
pub(crate) fn copy_text(alloc: Global, text: &Option<Txt>) -> Result<Option<Txt>, NoMemory>
    ensures { IfOk result (λ made. made ≡ text.now) }
{
    match text {
        None => Ok(None),
        Some(text) => {
            let text = text.copy(alloc)?;
            Ok(Some(text))
        }
    }
}

ghost use Rattle.lx_host.specs.Places.{IsPlaceOf};

/// Where the attribute of that name is among these, or else, as an error, where it belongs.
fn place_of(attributes: &[(Name, Txt)], name: Name) -> Result<usize, usize>
    ensures { IsPlaceOf name attributes.now result }
{
    for (at, (other, _)) in attributes.iter().enumerate() {
        match name.word().cmp(other.word()) {
            Ordering::Less => return Err(at),
            Ordering::Equal => return Ok(at),
            Ordering::Greater => {}
        }
    }
    Err(attributes.len())
}
