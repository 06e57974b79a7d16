//! What a reply says of a selection.

ghost use Rattle.std.specs.Prelude.{◌≡◌, OnOk, map};
ghost use Rattle.lx_fields.specs.Parts.{natural};
ghost use Rattle.lx_script.specs.Replies.{selection_data, range_data, nodes_data, cells_data, list_data};
ghost use Rattle.lx_script.specs.Sent.{Tells};

use crate::causes::put_point;
use crate::parts::{put_number_member, put_word_member};
use json::Writer;
use lx_node::{Key, Point};
use lx_select::Selection;
use std::alloc::AllocError;

pub(crate) fn put_selection(writer: &mut Writer, selection: &Selection) -> Result<(), AllocError>
    ensures { OnOk result (Tells (selection_data selection.now) writer.old writer.new) }
{
    match selection {
        Selection::Nothing => writer.null(),
        Selection::Range {
            anchor,
            focus,
            format,
        } => put_range(writer, anchor, focus, *format),
        Selection::Nodes(keys) => put_nodes(writer, keys.items()),
        Selection::Cells {
            table,
            anchor,
            focus,
        } => put_cells(writer, *table, *anchor, *focus),
    }
}

fn put_range(
    writer: &mut Writer,
    anchor: &Point,
    focus: &Point,
    format: u16,
) -> Result<(), AllocError>
    ensures { OnOk result (Tells (range_data anchor.now focus.now format) writer.old writer.new) }
{
    writer.begin_object()?;
    writer.key("anchor")?;
    put_point(writer, *anchor)?;
    writer.key("focus")?;
    put_point(writer, *focus)?;
    put_number_member(writer, "format", format as u64)?;
    put_word_member(writer, "kind", "range")?;
    writer.end_object()?;
    Ok(())
}

fn put_nodes(writer: &mut Writer, keys: &[Key]) -> Result<(), AllocError>
    ensures { OnOk result (Tells (nodes_data keys.now) writer.old writer.new) }
{
    writer.begin_object()?;
    writer.key("keys")?;
    put_keys(writer, keys)?;
    put_word_member(writer, "kind", "nodes")?;
    writer.end_object()?;
    Ok(())
}

fn put_keys(writer: &mut Writer, keys: &[Key]) -> Result<(), AllocError>
    ensures { OnOk result (Tells (list_data (map natural keys.now)) writer.old writer.new) }
{
    writer.begin_array()?;
    'keys: for key in keys {
        writer.u64(key.number() as u64)?;
    }
    writer.end_array()?;
    Ok(())
}

fn put_cells(writer: &mut Writer, table: Key, anchor: Key, focus: Key) -> Result<(), AllocError>
    ensures { OnOk result (Tells (cells_data table anchor focus) writer.old writer.new) }
{
    writer.begin_object()?;
    put_number_member(writer, "anchor", anchor.number() as u64)?;
    put_number_member(writer, "focus", focus.number() as u64)?;
    put_word_member(writer, "kind", "cells")?;
    put_number_member(writer, "table", table.number() as u64)?;
    writer.end_object()?;
    Ok(())
}
