//! Patches: the members of nodes' fields, as steps and rules set them.

ghost use Rattle.std.specs.Prelude.{◌≡◌, IfOk, Some, option_map, chars};
ghost use Rattle.serde_json.specs.View.{view, members_view};
ghost use Rattle.lx_step.specs.declared.member.Member.TheVariants.{Other};
ghost use Rattle.lx_script.specs.Patches as patches;

use lx_fields::{Name, level_of, list_type_of, long_within, name_of, settable};
use lx_node::{NoMemory, Txt};
use lx_step::{Member, Members, Patch};
use serde_json::{Map, Value};
use std::alloc::Global;

/// A member of which only the name is kept.
fn other(alloc: Global, text: &str) -> Result<Option<Member>, NoMemory>
    ensures { IfOk result (λ made. made ≡ Some (Other (chars text.now))) }
{
    Ok(Some(Member::Other(Txt::new(alloc, text)?)))
}

/// What a member of a patch gives, where the value is one that it takes.
#[tactic(auto, unfolding(crate::specs::Patches::patch_member))]
fn patch_member(
    alloc: Global,
    name: Option<Name>,
    text: &str,
    value: &Value,
) -> Result<Option<Member>, NoMemory>
    ensures { IfOk result (λ made. made ≡ patches.patch_member name text.now (view value.now)) }
{
    match name {
        Some(Name::Tag) => match level_of(value) {
            Some(_) => other(alloc, text),
            None => Ok(None),
        },
        Some(Name::ListType) => match list_type_of(value) {
            Some(_) => other(alloc, text),
            None => Ok(None),
        },
        Some(Name::Value) => match long_within(1_200_000, value) {
            Some(_) => other(alloc, text),
            None => Ok(None),
        },
        Some(known) => settable(alloc, known, value),
        None => other(alloc, text),
    }
}

/// What the members of a patch give.
fn patch_members(alloc: Global, object: &Map<String, Value>) -> Result<Option<Members>, NoMemory>
    ensures { IfOk result (λ made. made ≡ patches.patch_members (members_view object.now.entries)) }
{
    let mut made = Vec::new(alloc);
    'members: for (name, value) in object.iter() {
        let text = name.as_str();
        match patch_member(alloc, name_of(text), text, value)? {
            Some(member) => made.push(member)?,
            None => return Ok(None),
        }
    }
    Ok(Some(Members::of(made)))
}

/// A patch.
pub(crate) fn patch_of(alloc: Global, value: &Value) -> Result<Option<Patch>, NoMemory>
    ensures { IfOk result (λ made. option_map (λ patch. patch.members) made ≡ patches.patch_of (view value.now)) }
{
    match value.as_object() {
        Some(object) => match patch_members(alloc, object)? {
            Some(members) => Ok(Some(Patch { members })),
            None => Ok(None),
        },
        None => Ok(None),
    }
}
