ghost use Rattle.std.specs.Prelude.{◌≡◌, ◌<◌, ◌≤◌, ◌+◌, ◌++◌, ◌∷◌, [], length, chars, All, IfOk, OnOk, IfErr};

use lx_node::{Cause, Fault, NoMemory, Txt};
use lx_step::Listener;
use std::alloc::Global;
use std::marker::Model;

/// The listeners that are registered, by their numbers: at most 256.
#[derive(Drop)]
pub struct Bus {
    listeners: Vec<Listener>,
}

impl Model for Bus {
    ghost use Rattle.std.specs.Prelude.{List};
    ghost use Rattle.std.specs.Coded.{codes};
    ghost use Rattle.lx_step.specs.contracts.step.Steps as steps;
    ghost use Rattle.lx_step.specs.declared.listener.Listener.{Listener};

    ghost Value = { List Listener };

    ghost coded = { Prim.hlevel (codes, steps.the_row.coded) };

    ghost view = { λ b. b.listeners.items };

    ghost use Rattle.lx_bus.specs.Offers.{IsBus};

    ghost invariant = { λ b. IsBus b.listeners.items };
}

/// The listeners of a name that are still to be offered a command, in the order in which they are offered it:
/// from the highest priority on, and among those of one priority by their numbers.
#[derive(Drop)]
pub struct Offers<'a> {
    all: &'a [Listener],
    rest: &'a [Listener],
    name: &'a str,
    lowest: u8,
    more: u8,
}

impl<'a> Model for Offers<'a> {
    ghost use Rattle.std.specs.Prelude.{List, chars};
    ghost use Rattle.std.specs.Coded.{codes};
    ghost use Rattle.lx_step.specs.contracts.step.Steps as steps;
    ghost use Rattle.lx_step.specs.declared.listener.Listener.{Listener};

    ghost Value = { List Listener };

    ghost coded = { Prim.hlevel (codes, steps.the_row.coded) };

    ghost use Rattle.lx_bus.specs.Offers.{offers_left};

    ghost view = { λ o. offers_left o.more o.lowest (chars o.name.now) o.rest.now o.all.now };

    ghost use Rattle.std.specs.Prelude.{◌+◌, ◌≤◌};

    ghost invariant = { λ o. o.lowest + o.more ≤ 4 };
}

ghost use Rattle.lx_node.specs.Same.{same_text};
ghost use Rattle.lx_step.specs.Sound.{IsSoundListener};
ghost use Rattle.lx_bus.specs.Offers.{offers, above, behind, offers_left, most_listeners, IsRefused};

/// Whether a listener on this text is offered commands of the name.
fn is_named(on: &Txt, name: &str) -> bool
    ensures { result ≡ same_text on.now (chars name.now) }
{
    on.is(name)
}

impl Bus {
    /// No listeners.
    pub fn new(alloc: Global) -> Result<Bus, NoMemory>
        ensures { IfOk result (λ bus. bus ≡ []) }
    {
        Ok(Bus {
            listeners: Vec::new(alloc),
        })
    }

    /// How many listeners are registered, at most 256.
    pub fn len(&self) -> u32
        ensures len { result ≡ length self.now }
        ensures few { result ≤ most_listeners }
    {
        self.listeners.len() as u32
    }

    /// Registers a listener, and answers its number, from 1 to 256. It is refused with `TooManyRules` where 256
    /// are registered. The bus is then as it was, and so it is after memory ran out.
    pub fn register(&mut self, listener: Listener) -> Result<u32, Fault>
        requires { IsSoundListener listener }
        ensures ok { IfOk result (λ number. (self.new ≡ self.old ++ listener ∷ []) × (number ≡ length self.old + 1)) }
        ensures room { OnOk result (length self.old < most_listeners) }
        ensures err { IfErr result (λ e. (self.new ≡ self.old) × IsRefused e self.old) }
    {
        if self.listeners.len() == 256 {
            return Err(Fault::Cause(Cause::TooManyRules));
        }
        match self.listeners.push(listener) {
            Ok(()) => Ok(self.listeners.len() as u32),
            Err(_) => Err(Fault::Memory),
        }
    }

    /// The listeners of the name, in the order in which they are offered a command: from priority 4, critical,
    /// to 0, editor, which is those above the built-in command and then those after it.
    pub fn order<'a>(&'a self, name: &'a str) -> Offers<'a>
        ensures order { result ≡ offers (chars name.now) self.now }
        ensures parts { result ≡ above (chars name.now) self.now ++ behind (chars name.now) self.now }
        ensures sound { All IsSoundListener result }
    {
        self.offers(name, 0, 4)
    }

    /// Those of them that come before the built-in command of the name, if there is one: from priority 4,
    /// critical, to 1, low.
    pub fn above<'a>(&'a self, name: &'a str) -> Offers<'a>
        ensures order { result ≡ above (chars name.now) self.now }
        ensures sound { All IsSoundListener result }
    {
        self.offers(name, 1, 3)
    }

    /// Those of them that come after it: of priority 0, editor.
    pub fn behind<'a>(&'a self, name: &'a str) -> Offers<'a>
        ensures order { result ≡ behind (chars name.now) self.now }
        ensures sound { All IsSoundListener result }
    {
        self.offers(name, 0, 0)
    }

    /// Those of the lowest priority and of as many priorities above it.
    fn offers<'a>(&'a self, name: &'a str, lowest: u8, more: u8) -> Offers<'a>
        requires { lowest + more ≤ 4 }
        ensures order { result ≡ offers_left more lowest (chars name.now) self.now self.now }
        ensures sound { All IsSoundListener result }
    {
        let all = self.listeners.as_slice();
        Offers {
            all,
            rest: all,
            name,
            lowest,
            more,
        }
    }
}

impl<'a> Iterator for Offers<'a> {
    ghost use Rattle.std.specs.Iterator.{YieldsFirstRef, item_count};

    type Item = &'a Listener;

    ghost next_gives = { YieldsFirstRef (λ o. o) };

    ghost remaining = { item_count (λ o. o) };

    fn next(&mut self) -> Option<&'a Listener> {
        loop {
            match self.rest.split_first() {
                Some((first, others)) => {
                    self.rest = others;
                    if first.priority == self.lowest + self.more && is_named(&first.on, self.name) {
                        return Some(first);
                    }
                }
                None => {
                    if self.more == 0 {
                        return None;
                    }
                    self.more -= 1;
                    self.rest = self.all;
                }
            }
        }
    }
}
