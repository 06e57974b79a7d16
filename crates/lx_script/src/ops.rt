//! What a reply says of operations.

ghost use Rattle.std.specs.Prelude.{◌≡◌, OnOk, ◌∷◌, [], decimal, map};
ghost use Rattle.json.specs.Token as token;
ghost use Rattle.lx_host.specs.declared.op.Op.TheVariants.{Create, Place, Drop, Text, Attr, Break};
ghost use Rattle.lx_script.specs.Replies.{op_data, attributes_data, list_data};
ghost use Rattle.lx_script.specs.Sent.{Sends, Tells, members_in_order};
ghost use Rattle.serde_json.specs.Data.{object};

use crate::parts::{put_number_or_null, put_text_or_null};
use json::Writer;
use lx_host::{Attrs, Name, Op, Tag};
use lx_node::{Key, Txt};
use std::alloc::AllocError;

pub(crate) fn put_ops(writer: &mut Writer, ops: &[Op]) -> Result<(), AllocError>
    ensures { OnOk result (Tells (list_data (map op_data ops.now)) writer.old writer.new) }
{
    writer.begin_array()?;
    'ops: for op in ops {
        put_op(writer, op)?;
    }
    writer.end_array()?;
    Ok(())
}

fn put_op(writer: &mut Writer, op: &Op) -> Result<(), AllocError>
    ensures { OnOk result (Tells (op_data op.now) writer.old writer.new) }
{
    match op {
        Op::Create {
            id,
            key,
            tag,
            attrs,
            text,
            ending,
        } => put_create(writer, *id, *key, *tag, attrs, text, *ending),
        Op::Place {
            parent,
            child,
            before,
        } => put_place(writer, *parent, *child, *before),
        Op::Drop { id } => put_drop(writer, *id),
        Op::Text { id, text } => put_text(writer, *id, text),
        Op::Attr { id, name, value } => put_attribute(writer, *id, *name, value),
        Op::Break { id, ending } => put_break(writer, *id, *ending),
    }
}

#[tactic(auto, unfolding(crate::specs::Replies::op_data))]
fn put_create(
    writer: &mut Writer,
    id: u32,
    key: Key,
    tag: Tag,
    attributes: &Attrs,
    text: &Option<Txt>,
    ending: bool,
) -> Result<(), AllocError>
    ensures { OnOk result (Tells (op_data (Create id key tag attributes.now text.now ending)) writer.old writer.new) }
{
    begin_op(writer, "create", id)?;
    writer.u64(key.number() as u64)?;
    writer.string(tag.word())?;
    put_attributes(writer, attributes)?;
    put_text_or_null(writer, text)?;
    writer.boolean(ending)?;
    writer.end_array()?;
    Ok(())
}

#[tactic(auto, unfolding(crate::specs::Replies::op_data))]
fn put_place(
    writer: &mut Writer,
    parent: u32,
    child: u32,
    before: Option<u32>,
) -> Result<(), AllocError>
    ensures { OnOk result (Tells (op_data (Place parent child before)) writer.old writer.new) }
{
    begin_op(writer, "place", parent)?;
    writer.u64(child as u64)?;
    put_number_or_null(writer, before)?;
    writer.end_array()?;
    Ok(())
}

#[tactic(auto, unfolding(crate::specs::Replies::op_data))]
fn put_drop(writer: &mut Writer, id: u32) -> Result<(), AllocError>
    ensures { OnOk result (Tells (op_data (Drop id)) writer.old writer.new) }
{
    begin_op(writer, "drop", id)?;
    writer.end_array()?;
    Ok(())
}

#[tactic(auto, unfolding(crate::specs::Replies::op_data))]
fn put_text(writer: &mut Writer, id: u32, text: &Txt) -> Result<(), AllocError>
    ensures { OnOk result (Tells (op_data (Text id text.now)) writer.old writer.new) }
{
    begin_op(writer, "text", id)?;
    writer.string(text.as_str())?;
    writer.end_array()?;
    Ok(())
}

#[tactic(auto, unfolding(crate::specs::Replies::op_data))]
fn put_attribute(
    writer: &mut Writer,
    id: u32,
    name: Name,
    value: &Option<Txt>,
) -> Result<(), AllocError>
    ensures { OnOk result (Tells (op_data (Attr id name value.now)) writer.old writer.new) }
{
    begin_op(writer, "attr", id)?;
    writer.string(name.word())?;
    put_text_or_null(writer, value)?;
    writer.end_array()?;
    Ok(())
}

#[tactic(auto, unfolding(crate::specs::Replies::op_data))]
fn put_break(writer: &mut Writer, id: u32, ending: bool) -> Result<(), AllocError>
    ensures { OnOk result (Tells (op_data (Break id ending)) writer.old writer.new) }
{
    begin_op(writer, "break", id)?;
    writer.boolean(ending)?;
    writer.end_array()?;
    Ok(())
}

/// Begins an operation: what it does, and to which host.
fn begin_op(writer: &mut Writer, word: &str, id: u32) -> Result<(), AllocError>
    ensures { OnOk result (Sends (token.begin_array ∷ token.string word.now ∷ token.number (decimal id) ∷ []) writer.old writer.new) }
{
    writer.begin_array()?;
    writer.string(word)?;
    writer.u64(id as u64)?;
    Ok(())
}

/// The attributes of a host as an object, whose members are in byte order of their names, as attributes are.
fn put_attributes(writer: &mut Writer, attributes: &Attrs) -> Result<(), AllocError>
    ensures { OnOk result (Tells (attributes_data attributes.now) writer.old writer.new) }
{
    put_in_order(writer, attributes.items())
}

fn put_in_order(writer: &mut Writer, attributes: &[(Name, Txt)]) -> Result<(), AllocError>
    ensures { OnOk result (Tells (object (members_in_order attributes.now)) writer.old writer.new) }
{
    writer.begin_object()?;
    'attributes: for (name, text) in attributes {
        writer.key(name.word())?;
        writer.string(text.as_str())?;
    }
    writer.end_object()?;
    Ok(())
}
