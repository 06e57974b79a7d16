//! Parts that several replies have, as JSON.

ghost use Rattle.std.specs.Prelude.{OnOk, ◌∷◌, [], decimal};
ghost use Rattle.json.specs.Token as token;
ghost use Rattle.serde_json.specs.Data.{object, no_members, member};
ghost use Rattle.lx_fields.specs.Parts.{natural, or_null, text_data};
ghost use Rattle.lx_script.specs.Sent.{Sends, Tells};

use json::Writer;
use lx_node::Txt;
use std::alloc::AllocError;

pub(crate) fn put_number_member(
    writer: &mut Writer,
    name: &str,
    number: u64,
) -> Result<(), AllocError>
    ensures { OnOk result (Sends (token.key name.now ∷ token.number (decimal number) ∷ []) writer.old writer.new) }
{
    writer.key(name)?;
    writer.u64(number)?;
    Ok(())
}

/// An object that has a number, and no other member.
pub(crate) fn put_number_alone(
    writer: &mut Writer,
    name: &str,
    number: u64,
) -> Result<(), AllocError>
    ensures { OnOk result (Tells (object (member name.now (natural number) no_members)) writer.old writer.new) }
{
    writer.begin_object()?;
    put_number_member(writer, name, number)?;
    writer.end_object()?;
    Ok(())
}

pub(crate) fn put_word_member(writer: &mut Writer, name: &str, word: &str) -> Result<(), AllocError>
    ensures { OnOk result (Sends (token.key name.now ∷ token.string word.now ∷ []) writer.old writer.new) }
{
    writer.key(name)?;
    writer.string(word)?;
    Ok(())
}

pub(crate) fn put_flag_member(writer: &mut Writer, name: &str, flag: bool) -> Result<(), AllocError>
    ensures { OnOk result (Sends (token.key name.now ∷ token.boolean flag ∷ []) writer.old writer.new) }
{
    writer.key(name)?;
    writer.boolean(flag)?;
    Ok(())
}

pub(crate) fn put_number_or_null(writer: &mut Writer, number: Option<u32>) -> Result<(), AllocError>
    ensures { OnOk result (Tells (or_null natural number) writer.old writer.new) }
{
    match number {
        Some(number) => writer.u64(number as u64),
        None => writer.null(),
    }
}

pub(crate) fn put_text_or_null(writer: &mut Writer, text: &Option<Txt>) -> Result<(), AllocError>
    ensures { OnOk result (Tells (or_null text_data text.now) writer.old writer.new) }
{
    match text {
        Some(text) => writer.string(text.as_str()),
        None => writer.null(),
    }
}
