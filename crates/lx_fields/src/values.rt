//! What is asked of a JSON value.

ghost use Rattle.std.specs.Prelude.{◌≡◌, map, option_map, option_and_then, IfOk};
ghost use Rattle.std.specs.Str.{bytes_eq};
ghost use Rattle.serde_json.specs.Find.{get, as_array};
ghost use Rattle.serde_json.specs.View.{view, items_view};
ghost use Rattle.lx_fields.specs.Values as values;

use lx_node::{NoMemory, Txt};
use serde_json::Value;
use std::alloc::Global;

/// Whether two texts are the same. Most words of a table differ in length from the one that is looked for, which is told
/// before any byte is read.
#[inline(always)]
#[tactic(auto, using(crate::proofs::Looked::apart_by_length))]
pub(crate) fn is_same(a: &str, b: &str) -> bool
    ensures { result ≡ bytes_eq a.now b.now }
{
    a.len() == b.len() && a == b
}

/// What a word stands for in a table of words.
pub(crate) fn word_in<T: Copy>(rows: &[(&str, T)], text: &str) -> Option<T>
    ensures { result ≡ values.word_in (map (λ row. (row.0.now, row.1)) rows.now) text.now }
{
    'rows: for (word, meaning) in rows {
        if is_same(*word, text) {
            return Some(*meaning);
        }
    }
    None
}

/// What a string stands for in a table of words.
pub fn named<T: Copy>(rows: &[(&str, T)], value: &Value) -> Option<T>
    ensures { result ≡ values.named (map (λ row. (row.0.now, row.1)) rows.now) (view value.now) }
{
    match value.as_str() {
        Some(text) => word_in(rows, text),
        None => None,
    }
}

/// What the first word of a table that is a member's name stands for.
pub fn first_member<T: Copy>(rows: &[(&str, T)], value: &Value) -> Option<T>
    ensures { result ≡ values.first_member (map (λ row. (row.0.now, row.1)) rows.now) (view value.now) }
{
    'rows: for (word, meaning) in rows {
        if value.get(*word).is_some() {
            return Some(*meaning);
        }
    }
    None
}

/// Whether it is an object that has no members but those of these names, which all differ.
pub fn has_only(names: &[&str], value: &Value) -> bool
    ensures { result ≡ values.has_only (map (λ name. name.now) names.now) (view value.now) }
{
    let Some(members) = value.as_object() else {
        return false;
    };
    let mut present = 0usize;
    'names: for name in names {
        if value.get(*name).is_some() {
            present += 1;
        }
    }
    members.len() == present
}

/// What the name of an object's only member stands for in a table of words, and the member's value.
pub fn only_member<'v, T: Copy>(rows: &[(&str, T)], value: &'v Value) -> Option<(T, &'v Value)>
    ensures { option_map (λ found. (found.0, view found.1.now)) result ≡ values.only_member (map (λ row. (row.0.now, row.1)) rows.now) (view value.now) }
{
    let members = value.as_object()?;
    let is_only = members.len() == 1;
    if !is_only {
        return None;
    }
    let (name, member) = members.first_key_value()?;
    match word_in(rows, name.as_str()) {
        Some(word) => Some((word, member)),
        None => None,
    }
}

/// The characters of a string.
pub fn text_of(alloc: Global, value: &Value) -> Result<Option<Txt>, NoMemory>
    ensures { IfOk result (λ text. text ≡ values.string_of (view value.now)) }
{
    match value.as_str() {
        Some(text) => Ok(Some(Txt::new(alloc, text)?)),
        None => Ok(None),
    }
}

/// The characters of a member.
pub fn member_text(alloc: Global, name: &str, value: &Value) -> Result<Option<Txt>, NoMemory>
    ensures { IfOk result (λ made. made ≡ values.required values.string_of name.now (view value.now)) }
{
    match value.get(name) {
        Some(value) => text_of(alloc, value),
        None => Ok(None),
    }
}

/// The characters of a member that may be missing.
pub fn optional_text(
    alloc: Global,
    name: &str,
    value: &Value,
) -> Result<Option<Option<Txt>>, NoMemory>
    ensures { IfOk result (λ made. made ≡ values.optional values.string_of name.now (view value.now)) }
{
    match value.get(name) {
        Some(value) => match text_of(alloc, value)? {
            Some(text) => Ok(Some(Some(text))),
            None => Ok(None),
        },
        None => Ok(Some(None)),
    }
}

/// The items that a member lists.
pub fn items_in<'v>(name: &str, value: &'v Value) -> Option<&'v [Value]>
    ensures { option_map (λ items. items_view items.now) result ≡ option_and_then as_array (get name.now (view value.now)) }
{
    match value.get(name).and_then(Value::as_array) {
        Some(items) => Some(items.as_slice()),
        None => None,
    }
}

/// A whole number from 0 to 18,446,744,073,709,551,615.
pub fn number_of(value: &Value) -> Option<u64>
    ensures { result ≡ values.whole_of (view value.now) }
{
    value.as_u64()
}

/// A whole number within two bounds.
pub fn number_within(least: u64, most: u64, value: &Value) -> Option<u64>
    ensures { result ≡ values.number_within least most (view value.now) }
{
    match value.as_u64() {
        Some(number) => {
            let is_within = least <= number && number <= most;
            if is_within { Some(number) } else { None }
        }
        None => None,
    }
}

/// A whole number of 8 bits, up to a bound.
pub fn small_within(most: u8, value: &Value) -> Option<u8>
    ensures { result ≡ values.number_within 0 most (view value.now) }
{
    match number_within(0, most as u64, value) {
        Some(number) => Some(number as u8),
        None => None,
    }
}

/// A whole number of 16 bits, within two bounds.
pub fn short_within(least: u16, most: u16, value: &Value) -> Option<u16>
    ensures { result ≡ values.number_within least most (view value.now) }
{
    match number_within(least as u64, most as u64, value) {
        Some(number) => Some(number as u16),
        None => None,
    }
}

/// A whole number of 32 bits, up to a bound.
pub fn long_within(most: u32, value: &Value) -> Option<u32>
    ensures { result ≡ values.number_within 0 most (view value.now) }
{
    match number_within(0, most as u64, value) {
        Some(number) => Some(number as u32),
        None => None,
    }
}
