//! Commands that are built in.

ghost use Rattle.std.specs.Prelude.{◌≡◌, map, chars};
ghost use Rattle.lx_node.specs.Same.{same_text};
ghost use Rattle.lx_step.specs.BuiltIns as built_ins;

/// Which way the history goes.
#[derive(Clone, Copy, Debug)]
pub enum Turn {
    /// Back to the state before the current one.
    Undo,
    /// Forth again, to the state from which the last `Undo` came.
    Redo,
}

/// A command that goes by the selection, as a person types, deletes and formats.
#[derive(Clone, Copy, Debug)]
pub enum CaretCommand {
    InsertText,
    RemoveText,
    InsertParagraph,
    InsertLineBreak,
    InsertTab,
    DeleteCharacter,
    DeleteWord,
    FormatText,
    SelectAll,
    /// The slice that a text is, in the place of what is selected.
    Paste,
}

/// A command of lists, which goes by the selection.
#[derive(Clone, Copy, Debug, PartialEq, Eq, Hash)]
pub enum ListCommand {
    MakeList,
    RemoveList,
    Indent,
    Outdent,
    ToggleChecked,
}

/// A command of tables, which goes by the selection.
#[derive(Clone, Copy, Debug)]
pub enum TableCommand {
    InsertTable,
    InsertRow,
    InsertColumn,
    DeleteRow,
    DeleteColumn,
    MergeCells,
    Unmerge,
}

/// A command that is built in: it is done without a listener. Its name is that of a row of the table of built-in commands.
#[derive(Clone, Copy, Debug)]
pub enum BuiltIn {
    /// `undo` or `redo`: the history goes to another state.
    Turn(Turn),
    /// A name of a caret command: the draft is edited at its selection.
    Caret(CaretCommand),
    /// A name of a command of lists: the lines that are selected are edited.
    List(ListCommand),
    /// A name of a command of tables: the table of the caret's cell is edited, or a new one is made.
    Table(TableCommand),
}

/// The names of the commands of the history.
static TURNS: [(&str, Turn); 2] = [("undo", Turn::Undo), ("redo", Turn::Redo)];

/// The names of the caret commands.
static CARET_COMMANDS: [(&str, CaretCommand); 11] = [
    ("insert-text", CaretCommand::InsertText),
    ("remove-text", CaretCommand::RemoveText),
    ("insert-paragraph", CaretCommand::InsertParagraph),
    ("insert-line-break", CaretCommand::InsertLineBreak),
    ("insert-tab", CaretCommand::InsertTab),
    ("delete-character", CaretCommand::DeleteCharacter),
    ("delete-word", CaretCommand::DeleteWord),
    ("format-text", CaretCommand::FormatText),
    ("select-all", CaretCommand::SelectAll),
    ("cut", CaretCommand::RemoveText),
    ("paste", CaretCommand::Paste),
];

/// The names of the commands of lists.
static LIST_COMMANDS: [(&str, ListCommand); 5] = [
    ("make-list", ListCommand::MakeList),
    ("remove-list", ListCommand::RemoveList),
    ("indent", ListCommand::Indent),
    ("outdent", ListCommand::Outdent),
    ("toggle-checked", ListCommand::ToggleChecked),
];

/// The names of the commands of tables.
static TABLE_COMMANDS: [(&str, TableCommand); 7] = [
    ("insert-table", TableCommand::InsertTable),
    ("insert-row", TableCommand::InsertRow),
    ("insert-column", TableCommand::InsertColumn),
    ("delete-row", TableCommand::DeleteRow),
    ("delete-column", TableCommand::DeleteColumn),
    ("merge-cells", TableCommand::MergeCells),
    ("unmerge", TableCommand::Unmerge),
];

impl BuiltIn {
    ghost use Rattle.lx_step.specs.BuiltIns.{built_in};

    /// The built-in command of the name, if there is one.
    pub fn named(name: &str) -> Option<BuiltIn>
        ensures { result ≡ built_in (chars name.now) }
    {
        if let Some(turn) = Turn::named(name) {
            return Some(BuiltIn::Turn(turn));
        }
        if let Some(command) = CaretCommand::named(name) {
            return Some(BuiltIn::Caret(command));
        }
        if let Some(command) = ListCommand::named(name) {
            return Some(BuiltIn::List(command));
        }
        match TableCommand::named(name) {
            Some(command) => Some(BuiltIn::Table(command)),
            None => None,
        }
    }
}

impl Turn {
    fn named(name: &str) -> Option<Turn>
        ensures { result ≡ built_ins.row_of built_ins.turns (chars name.now) }
    {
        row_of(&TURNS, name)
    }
}

impl CaretCommand {
    fn named(name: &str) -> Option<CaretCommand>
        ensures { result ≡ built_ins.row_of built_ins.caret_commands (chars name.now) }
    {
        row_of(&CARET_COMMANDS, name)
    }
}

impl ListCommand {
    fn named(name: &str) -> Option<ListCommand>
        ensures { result ≡ built_ins.row_of built_ins.list_commands (chars name.now) }
    {
        row_of(&LIST_COMMANDS, name)
    }
}

impl TableCommand {
    fn named(name: &str) -> Option<TableCommand>
        ensures { result ≡ built_ins.row_of built_ins.table_commands (chars name.now) }
    {
        row_of(&TABLE_COMMANDS, name)
    }
}

/// What a table of words says of a word: what stands beside the first one that is equal, if one is.
pub fn row_of<T: Copy>(rows: &[(&str, T)], name: &str) -> Option<T>
    ensures { result ≡ built_ins.row_of (map (λ row. (chars row.0.now, row.1)) rows.now) (chars name.now) }
{
    'rows: for (word, meaning) in rows {
        if is_word(word, name) {
            return Some(*meaning);
        }
    }
    None
}

fn is_word(word: &str, name: &str) -> bool
    ensures { result ≡ same_text (chars word.now) (chars name.now) }
{
    word == name
}
