//! From bytes to a value, in one pass over their tokens.

ghost use Rattle.std.specs.Prelude.{◌≡◌, ◌<◌, ◌≤◌, length, None, Some, Err, IfOk, OnOk, IsUtf8};
ghost use Rattle.json.specs.Reads.{token_of};
ghost use Rattle.serde_json.specs.Read.{read, max_depth};
ghost use Rattle.serde_json.specs.View.{view, items_view, members_view};
ghost use Rattle.lx_value.specs.declared.reading.Unread.TheVariants.{NoJson, Memory};
ghost use Rattle.lx_value.specs.Ahead.{Gives, scalar_of, value_ahead, items_ahead, members_ahead};

use crate::number::number_of;
use crate::room::Room;
use json::{Reader, Scratch, Token};
use serde_json::{Map, Value};
use std::alloc::{AllocError, AllocFailed, Global};

/// How deep arrays and objects may nest.
const MOST_DEPTH: usize = 127;

/// How many bytes of room are kept at most for texts to come, beside what any text needs.
const MOST_KEPT: usize = 65_536;

/// Why bytes gave no value.
#[derive(Clone, Copy, Debug, Drop, PartialEq, Eq)]
pub enum Unread {
    /// They are no JSON: not UTF-8, not of its grammar, nested deeper than 127, or with a number too large for a float.
    NoJson,
    /// Memory ran out.
    Memory,
}

impl From<AllocError> for Unread {
    ghost from_gives = { λ _ unread. unread ≡ Memory };

    fn from(_error: AllocError) -> Unread {
        Unread::Memory
    }
}

impl<T: Drop> From<AllocFailed<T>> for Unread {
    ghost from_gives = { λ _ unread. unread ≡ Memory };

    fn from(_error: AllocFailed<T>) -> Unread {
        Unread::Memory
    }
}

/// Reads the JSON value that bytes are. Of a key that an object has twice the last value stays.
///
/// The room serves any number of reads, one after another. It grows to the longest of the texts of at most 65,536 bytes;
/// a longer one is read in room of its own.
pub fn read_value(alloc: Global, bytes: &[u8], room: &mut Room) -> Result<Value, Unread>
    ensures ok { IfOk result (λ value. IsUtf8 bytes.now × (read bytes.now ≡ Some (view value))) }
    ensures refused { result ≡ Err NoJson → IsUtf8 bytes.now → read bytes.now ≡ None }
{
    match std::str::from_utf8(bytes) {
        Ok(text) => read_text(alloc, text, room),
        Err(_) => Err(Unread::NoJson),
    }
}

fn read_text(alloc: Global, text: &str, room: &mut Room) -> Result<Value, Unread>
    ensures { Gives view (read text.now) result }
{
    if text.len() <= MOST_KEPT {
        read_within(alloc, text, room.scratch())
    } else {
        read_apart(alloc, text)
    }
}

/// Reads a long text in room of its own, which is let go with it.
#[inline(never)]
fn read_apart(alloc: Global, text: &str) -> Result<Value, Unread>
    ensures { Gives view (read text.now) result }
{
    let mut room = Room::new(alloc)?;
    read_within(alloc, text, room.scratch())
}

fn read_within(alloc: Global, text: &str, scratch: &mut Scratch) -> Result<Value, Unread>
    ensures { Gives view (read text.now) result }
{
    let mut reader = Reader::new(text, scratch)?;
    let value = match next_value(alloc, &mut reader, MOST_DEPTH) {
        Ok(value) => value,
        Err(unread) => return Err(unread),
    };
    match reader.next() {
        None => Ok(value),
        Some(_) => Err(Unread::NoJson),
    }
}

/// A value that is one token.
fn scalar(alloc: Global, token: Token<'_>) -> Result<Value, Unread>
    ensures { Gives view (scalar_of (token_of token.entry)) result }
{
    match token {
        Token::String(text) => Ok(Value::String(String::from_str(alloc, text)?)),
        Token::Number(text) => match number_of(text) {
            Some(number) => Ok(Value::Number(number)),
            None => Err(Unread::NoJson),
        },
        Token::Bool(truth) => Ok(Value::Bool(truth)),
        Token::Null => Ok(Value::Null),
        _ => Err(Unread::NoJson),
    }
}

/// Takes the value that is next, which may nest so deep.
#[cycle(next)]
fn next_value(alloc: Global, reader: &mut Reader<'_>, depth: usize) -> Result<Value, Unread>
    ensures gives { Gives (λ value. (view value, reader.new)) (value_ahead depth reader.old) result }
    ensures shorter { OnOk result (length reader.new < length reader.old) }
{
    let Some(token) = reader.next() else {
        return Err(Unread::NoJson);
    };
    match token {
        Token::BeginArray => match next_array(alloc, reader, depth) {
            Ok(items) => Ok(Value::Array(items)),
            Err(unread) => Err(unread),
        },
        Token::BeginObject => match next_object(alloc, reader, depth) {
            Ok(members) => Ok(Value::Object(members)),
            Err(unread) => Err(unread),
        },
        _ => scalar(alloc, token),
    }
}

/// Takes the items of an array after its bracket, to the bracket that closes it.
#[cycle(next)]
fn next_array(alloc: Global, reader: &mut Reader<'_>, depth: usize) -> Result<Vec<Value>, Unread>
    ensures gives { Gives (λ found. (items_view found.items, reader.new)) (items_ahead depth reader.old) result }
    ensures shorter { OnOk result (length reader.new < length reader.old) }
{
    if depth == 0 {
        return Err(Unread::NoJson);
    }
    let mut found = Vec::new(alloc);
    'items: while !reader.take_end_array() {
        match next_value(alloc, reader, depth - 1) {
            Ok(item) => found.push(item)?,
            Err(unread) => return Err(unread),
        }
    }
    Ok(found)
}

/// Takes the members of an object after its brace, to the brace that closes it.
#[cycle(next)]
fn next_object(
    alloc: Global,
    reader: &mut Reader<'_>,
    depth: usize,
) -> Result<Map<String, Value>, Unread>
    ensures gives { Gives (λ found. (members_view found.entries, reader.new)) (members_ahead depth reader.old) result }
    ensures shorter { OnOk result (length reader.new < length reader.old) }
{
    if depth == 0 {
        return Err(Unread::NoJson);
    }
    let mut found = Map::new(alloc);
    'members: loop {
        match reader.next_key() {
            Ok(Some(name)) => {
                let name = String::from_str(alloc, name)?;
                match next_value(alloc, reader, depth - 1) {
                    Ok(member) => drop(found.insert(name, member)?),
                    Err(unread) => return Err(unread),
                }
            }
            Ok(None) => return Ok(found),
            Err(_) => return Err(Unread::NoJson),
        }
    }
}
