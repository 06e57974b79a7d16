//! Where in a document something isn't as it has to be. A place is put together on the way out, so that no text is made
//! unless something is refused.

ghost use Rattle.std.specs.Prelude.{◌≡◌, ◌++◌, IfOk, chars};
ghost use Rattle.lx_node.specs.declared.cause.Cause.TheVariants.{BadState, UnknownType};
ghost use Rattle.lx_json.specs.Reading.{child_place, member_place};
ghost use Rattle.lx_json.specs.Growing.{IsRefusedFor, IsUnder};
ghost use Rattle.lx_json.specs.Nodes.{index_place};

use lx_node::{Cause, Fault, NoMemory, Txt};
use std::alloc::Global;

/// Nothing there is as it has to be.
pub(crate) fn bad_state(alloc: Global, place: &str) -> Fault
    ensures { IsRefusedFor (BadState (chars place.now)) result }
{
    match Txt::new(alloc, place) {
        Ok(place) => Fault::Cause(Cause::BadState(place)),
        Err(_) => Fault::Memory,
    }
}

/// The member of this name isn't as it has to be.
pub(crate) fn bad_member(alloc: Global, name: &str) -> Fault
    ensures { IsRefusedFor (BadState (member_place (chars name.now))) result }
{
    match joined(alloc, "/", name) {
        Ok(place) => Fault::Cause(Cause::BadState(place)),
        Err(_) => Fault::Memory,
    }
}

/// There is no such type.
pub(crate) fn unknown_type(alloc: Global, text: &str) -> Fault
    ensures { IsRefusedFor (UnknownType (chars text.now)) result }
{
    match Txt::new(alloc, text) {
        Ok(text) => Fault::Cause(Cause::UnknownType(text)),
        Err(_) => Fault::Memory,
    }
}

/// A fault at this place, said from one place further up.
pub(crate) fn under(alloc: Global, place: &str, fault: Fault) -> Fault
    ensures { IsUnder (chars place.now) fault result }
{
    match fault {
        Fault::Cause(Cause::BadState(rest)) => match joined(alloc, place, rest.as_str()) {
            Ok(place) => Fault::Cause(Cause::BadState(place)),
            Err(_) => Fault::Memory,
        },
        other => other,
    }
}

/// A fault of the child at this index, said from its parent.
pub(crate) fn under_child(alloc: Global, index: usize, fault: Fault) -> Fault
    ensures { IsUnder (child_place index) fault result }
{
    match format!(in alloc; "/children/{index}") {
        Ok(place) => under(alloc, place.as_str(), fault),
        Err(_) => Fault::Memory,
    }
}

/// A fault of the item at this index of a list, said from that list.
pub(crate) fn under_index(alloc: Global, index: usize, fault: Fault) -> Fault
    ensures { IsUnder (index_place index) fault result }
{
    match format!(in alloc; "/{index}") {
        Ok(place) => under(alloc, place.as_str(), fault),
        Err(_) => Fault::Memory,
    }
}

/// A text after another.
fn joined(alloc: Global, front: &str, rest: &str) -> Result<Txt, NoMemory>
    ensures { IfOk result (λ made. made ≡ chars front.now ++ chars rest.now) }
{
    let mut text = String::from_str(alloc, front)?;
    text.push_str(rest)?;
    Ok(Txt::of(text))
}
