//! What a refusal says of its cause: a name, and a detail that says more.

ghost use Rattle.std.specs.Prelude.{◌≡◌, OnOk};
ghost use Rattle.lx_script.specs.Replies.{cause_name as word_of_cause, selection_name as word_of_selection, limit_name as word_of_limit, point_kind_name as word_of_point_kind, point_data, named_data, lost_data, reached_data, detail_of};
ghost use Rattle.lx_script.specs.Sent.{Tells};

use json::Writer;
use lx_node::{Cause, Limit, Lost, Named, Point, PointKind, SelectionKind};
use std::alloc::AllocError;

pub(crate) fn cause_name(cause: &Cause) -> &'static str
    ensures { result.now ≡ word_of_cause cause.now }
{
    match cause {
        Cause::BadLine => "BadLine",
        Cause::BadCommand => "BadCommand",
        Cause::UnknownNode(_) => "UnknownNode",
        Cause::WrongKind(_) => "WrongKind",
        Cause::BadPlace(_) => "BadPlace",
        Cause::NoSelection(_) => "NoSelection",
        Cause::SelectionLost(_) => "SelectionLost",
        Cause::NoRest => "NoRest",
        Cause::StepLimit => "StepLimit",
        Cause::DispatchDepth => "DispatchDepth",
        Cause::TooLarge(_, _) => "TooLarge",
        Cause::UnknownType(_) => "UnknownType",
        Cause::BadState(_) => "BadState",
        Cause::EmptyState => "EmptyState",
        Cause::HistoryInside => "HistoryInside",
        Cause::TooManyRules => "TooManyRules",
    }
}

fn selection_name(kind: SelectionKind) -> &'static str
    ensures { result.now ≡ word_of_selection kind }
{
    match kind {
        SelectionKind::Nothing => "none",
        SelectionKind::Range => "range",
        SelectionKind::Nodes => "nodes",
        SelectionKind::Cells => "cells",
    }
}

fn limit_name(limit: Limit) -> &'static str
    ensures { result.now ≡ word_of_limit limit }
{
    match limit {
        Limit::Depth => "depth",
        Limit::Nodes => "nodes",
        Limit::Characters => "characters",
        Limit::KeyCount => "key",
        Limit::Written => "written",
        Limit::Hosts => "hosts",
    }
}

fn point_kind_name(kind: PointKind) -> &'static str
    ensures { result.now ≡ word_of_point_kind kind }
{
    match kind {
        PointKind::Text => "text",
        PointKind::Element => "element",
    }
}

pub(crate) fn put_point(writer: &mut Writer, point: Point) -> Result<(), AllocError>
    ensures { OnOk result (Tells (point_data point) writer.old writer.new) }
{
    writer.begin_array()?;
    writer.u64(point.key.number() as u64)?;
    writer.u64(point.offset as u64)?;
    writer.string(point_kind_name(point.kind))?;
    writer.end_array()?;
    Ok(())
}

fn put_named(writer: &mut Writer, named: &Named) -> Result<(), AllocError>
    ensures { OnOk result (Tells (named_data named.now) writer.old writer.new) }
{
    match named {
        Named::Key(key) => writer.u64(key.number() as u64),
        Named::Name(name) => writer.string(name.as_str()),
    }
}

fn put_lost(writer: &mut Writer, lost: Lost) -> Result<(), AllocError>
    ensures { OnOk result (Tells (lost_data lost) writer.old writer.new) }
{
    match lost {
        Lost::Point(point) => put_point(writer, point),
        Lost::Key(key) => writer.u64(key.number() as u64),
    }
}

fn put_reached(writer: &mut Writer, limit: Limit, reached: u64) -> Result<(), AllocError>
    ensures { OnOk result (Tells (reached_data limit reached) writer.old writer.new) }
{
    writer.begin_array()?;
    writer.string(limit_name(limit))?;
    writer.u64(reached)?;
    writer.end_array()?;
    Ok(())
}

// A cause that has one limit gives one number.
pub(crate) fn put_detail(writer: &mut Writer, cause: &Cause) -> Result<(), AllocError>
    ensures { OnOk result (Tells (detail_of cause.now) writer.old writer.new) }
{
    match cause {
        Cause::BadLine | Cause::BadCommand | Cause::EmptyState | Cause::HistoryInside => {
            writer.null()
        }
        Cause::UnknownNode(named) => put_named(writer, named),
        Cause::WrongKind(kind) => writer.string(kind.type_name()),
        Cause::BadPlace(place) => writer.u64(*place as u64),
        Cause::NoSelection(kind) => writer.string(selection_name(*kind)),
        Cause::SelectionLost(lost) => put_lost(writer, *lost),
        Cause::NoRest => writer.u64(101),
        Cause::StepLimit => writer.u64(100_001),
        Cause::DispatchDepth => writer.u64(65),
        Cause::TooLarge(limit, reached) => put_reached(writer, *limit, *reached),
        Cause::UnknownType(text) | Cause::BadState(text) => writer.string(text.as_str()),
        Cause::TooManyRules => writer.u64(256),
    }
}
