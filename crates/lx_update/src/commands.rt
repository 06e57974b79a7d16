//! Built-in commands, with what they are given.

ghost use Rattle.std.specs.Prelude.{◌≡◌, Ok, OnOk, IfOk, IfErr, chars, map};
ghost use Rattle.lx_node.specs.declared.cause.Cause.TheVariants.{BadCommand};
ghost use Rattle.lx_node.specs.declared.cause.Fault.TheVariants as fault;
ghost use Rattle.lx_draft.specs.Faults.{TellsStep};
ghost use Rattle.lx_table.specs.Making.{insert_table_step};
ghost use Rattle.lx_update.specs.Commands as commands;
ghost use Rattle.lx_update.specs.Commands.{command_step};

use crate::dispatching::is_nothing;
use lx_draft::Draft;
use lx_list::paragraph_in_item;
use lx_node::{Cause, Fault, ListType, Txt};
use lx_step::{BuiltIn, CaretCommand, ListCommand, Payload, TableCommand, row_of};
use std::alloc::Global;

/// The words for the two ways of a deletion, and whether each goes back.
const WAYS: [(&str, bool); 2] = [("back", true), ("forward", false)];

/// The words for the sides of the caret's cell on which a row or column comes, and whether each is after it.
const SIDES: [(&str, bool); 2] = [("before", false), ("after", true)];

/// The types of lists, by their words.
const LIST_TYPES: [(&str, ListType); 3] = [
    ("bullet", ListType::Bullet),
    ("number", ListType::Number),
    ("check", ListType::Check),
];

/// The formats of texts, each with its bit.
const FORMATS: [(&str, u16); 8] = [
    ("bold", 1),
    ("italic", 2),
    ("strikethrough", 4),
    ("underline", 8),
    ("code", 16),
    ("subscript", 32),
    ("superscript", 64),
    ("highlight", 128),
];

fn bad_command() -> Fault
    ensures { result ≡ fault.Cause BadCommand }
{
    Fault::Cause(Cause::BadCommand)
}

/// The text that is sent.
fn text_sent(sent: &Payload) -> Result<&Txt, Fault>
    ensures ok { IfOk result (λ text. commands.text_sent sent.now ≡ Ok text.now) }
    ensures err { IfErr result (λ e. TellsStep e (commands.text_sent sent.now)) }
{
    match sent {
        Payload::Text(text) => Ok(text),
        _ => Err(bad_command()),
    }
}

/// What the word that is sent means by a table.
fn word_sent<T: Copy>(rows: &[(&str, T)], sent: &Payload) -> Result<T, Fault>
    ensures ok { IfOk result (λ it. commands.word_sent (map (λ row. (chars row.0.now, row.1)) rows.now) sent.now ≡ Ok it) }
    ensures err { IfErr result (λ e. TellsStep e (commands.word_sent (map (λ row. (chars row.0.now, row.1)) rows.now) sent.now)) }
{
    match row_of(rows, text_sent(sent)?.as_str()) {
        Some(meaning) => Ok(meaning),
        None => Err(bad_command()),
    }
}

/// Cuts a block in two. An item without children ends its list.
fn insert_paragraph(alloc: Global, draft: &mut Draft) -> Result<(), Fault>
    ensures ok { OnOk result (commands.paragraph_step draft.old ≡ Ok draft.new) }
    ensures err { IfErr result (λ e. TellsStep e (commands.paragraph_step draft.old)) }
{
    match lx_caret::insert_paragraph(alloc, draft) {
        Ok(None) => Ok(()),
        Ok(Some(item)) => paragraph_in_item(alloc, draft, item),
        Err(fault) => Err(fault),
    }
}

/// Inserts a table of the size that a payload gives.
fn insert_table(alloc: Global, draft: &mut Draft, sent: &Payload) -> Result<(), Fault>
    ensures ok { OnOk result (commands.with_size insert_table_step sent.now draft.old ≡ Ok draft.new) }
    ensures err { IfErr result (λ e. TellsStep e (commands.with_size insert_table_step sent.now draft.old)) }
{
    match sent {
        Payload::Grid {
            rows,
            columns,
            headers,
        } => lx_table::insert_table(alloc, draft, *rows, *columns, *headers),
        _ => Err(bad_command()),
    }
}

/// Does a command that takes no payload. Those of the history are refused among steps.
fn do_plain(alloc: Global, draft: &mut Draft, command: BuiltIn) -> Result<(), Fault>
    ensures ok { OnOk result (commands.plain_step command draft.old ≡ Ok draft.new) }
    ensures err { IfErr result (λ e. TellsStep e (commands.plain_step command draft.old)) }
{
    match command {
        BuiltIn::Turn(_) => Err(Fault::Cause(Cause::HistoryInside)),
        BuiltIn::Caret(CaretCommand::RemoveText) => lx_caret::remove_text(alloc, draft),
        BuiltIn::Caret(CaretCommand::InsertParagraph) => insert_paragraph(alloc, draft),
        BuiltIn::Caret(CaretCommand::InsertLineBreak) => lx_caret::insert_line_break(alloc, draft),
        BuiltIn::Caret(CaretCommand::InsertTab) => lx_caret::insert_tab(alloc, draft),
        BuiltIn::Caret(CaretCommand::SelectAll) => lx_caret::select_all(draft),
        BuiltIn::List(ListCommand::RemoveList) => lx_list::remove_list(alloc, draft),
        BuiltIn::List(ListCommand::Indent) => lx_list::indent(alloc, draft),
        BuiltIn::List(ListCommand::Outdent) => lx_list::outdent(alloc, draft),
        BuiltIn::List(ListCommand::ToggleChecked) => lx_list::toggle_checked(alloc, draft),
        BuiltIn::Table(TableCommand::DeleteRow) => lx_table::delete_row(alloc, draft),
        BuiltIn::Table(TableCommand::DeleteColumn) => lx_table::delete_column(alloc, draft),
        BuiltIn::Table(TableCommand::MergeCells) => lx_table::merge_cells(alloc, draft),
        BuiltIn::Table(TableCommand::Unmerge) => lx_table::unmerge(alloc, draft),
        _ => Err(bad_command()),
    }
}

/// Does a command with what is sent. It is refused with `BadCommand` where that is no payload of the command, before
/// anything is looked at.
#[tactic(auto, unfolding(crate::specs::Commands::command_step))]
pub(crate) fn do_command(
    alloc: Global,
    draft: &mut Draft,
    command: BuiltIn,
    sent: &Payload,
) -> Result<(), Fault>
    ensures ok { OnOk result (command_step command sent.now draft.old ≡ Ok draft.new) }
    ensures err { IfErr result (λ e. TellsStep e (command_step command sent.now draft.old)) }
{
    match command {
        BuiltIn::Caret(CaretCommand::InsertText) => {
            lx_caret::insert_text(alloc, draft, text_sent(sent)?.as_str())
        }
        BuiltIn::Caret(CaretCommand::DeleteCharacter) => {
            lx_caret::delete_character(alloc, draft, word_sent(&WAYS, sent)?)
        }
        BuiltIn::Caret(CaretCommand::DeleteWord) => {
            lx_caret::delete_word(alloc, draft, word_sent(&WAYS, sent)?)
        }
        BuiltIn::Caret(CaretCommand::FormatText) => {
            lx_caret::format_text(alloc, draft, word_sent(&FORMATS, sent)?)
        }
        BuiltIn::Caret(CaretCommand::Paste) => {
            lx_clip::paste(alloc, draft, text_sent(sent)?.as_str())
        }
        BuiltIn::List(ListCommand::MakeList) => {
            lx_list::make_list(alloc, draft, word_sent(&LIST_TYPES, sent)?)
        }
        BuiltIn::Table(TableCommand::InsertTable) => insert_table(alloc, draft, sent),
        BuiltIn::Table(TableCommand::InsertRow) => {
            lx_table::insert_row(alloc, draft, word_sent(&SIDES, sent)?)
        }
        BuiltIn::Table(TableCommand::InsertColumn) => {
            lx_table::insert_column(alloc, draft, word_sent(&SIDES, sent)?)
        }
        plain if is_nothing(sent) => do_plain(alloc, draft, plain),
        _ => Err(bad_command()),
    }
}
