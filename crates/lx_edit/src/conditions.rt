//! Why an edit is refused before it begins.

ghost use Rattle.std.specs.Prelude.{◌≡◌, ◌≢◌, true, None, OnOk, IfErr, chars};
ghost use Rattle.lx_trees.specs.Trees.{nil};
ghost use Rattle.lx_node.specs.Kinds as kinds;
ghost use Rattle.lx_forest.specs.Lookups as lookups;
ghost use Rattle.lx_text.specs.Texts.{length_told};
ghost use Rattle.lx_draft.specs.Selecting.{unlike};
ghost use Rattle.lx_draft.specs.Faults.{StopsAt, text_in};
ghost use Rattle.lx_edit.specs.Conditions as conditions;

use crate::texts::text_at;
use lx_draft::Draft;
use lx_links::{Links, misfit};
use lx_node::{Cause, Fault, Key, Kind, NoMemory};

/// Goes on where the draft hasn't failed.
pub(crate) fn living(draft: &Draft) -> Result<(), NoMemory>
    ensures { OnOk result (draft.now.forest ≢ nil) }
{
    if draft.links().has_failed() {
        Err(NoMemory)
    } else {
        Ok(())
    }
}

/// Goes on where nothing refuses the edit, and the draft hasn't failed. Edits that are made of others begin with it.
pub fn admitted(draft: &Draft, fault: Option<Cause>) -> Result<(), Fault>
    ensures allowed { OnOk result (fault ≡ None) }
    ensures living { OnOk result (draft.now.forest ≢ nil) }
    ensures err { IfErr result (λ e. StopsAt e fault draft.now) }
{
    if draft.links().has_failed() {
        return Err(Fault::Memory);
    }
    match fault {
        Some(cause) => Err(Fault::Cause(cause)),
        None => Ok(()),
    }
}

/// It is no element.
fn no_element(links: &Links, key: Key) -> Option<Cause>
    ensures { result ≡ unlike kinds.is_element (lookups.kind_of links.now key) }
{
    let kind = links.kind(key)?;
    if kind.is_element() {
        None
    } else {
        Some(Cause::WrongKind(kind))
    }
}

/// What the node is below is of this kind.
fn kind_above(links: &Links, key: Key) -> Option<Kind>
    ensures { result ≡ conditions.kind_above links.now key }
{
    match links.parent(key) {
        Some(parent) => links.kind(parent),
        None => None,
    }
}

/// A parent of the kind may not hold one of the node's children, the first such.
fn misfit_child(links: &Links, outer: Option<Kind>, key: Key) -> Option<Cause>
    ensures { result ≡ conditions.misfit_among links.now outer (lookups.children_of links.now key) }
{
    for child in links.children(key) {
        if let Some(cause) = misfit(outer, links.kind(child)) {
            return Some(cause);
        }
    }
    None
}

/// The other node is in the tree of the key.
fn inside(links: &Links, key: Key, other: Key) -> Option<Cause>
    ensures { result ≡ conditions.inside links.now key other }
{
    if links.is_within(key, other) {
        Some(Cause::BadPlace(other.number() as u64))
    } else {
        None
    }
}

pub(crate) fn children_fault(links: &Links, from: Key, to: Key) -> Option<Cause>
    ensures { result ≡ conditions.children_fault from to links.now }
{
    links
        .missing(from)
        .or_else(|| links.missing(to))
        .or_else(|| no_element(links, from))
        .or_else(|| no_element(links, to))
        .or_else(|| inside(links, from, to))
        .or_else(|| misfit_child(links, links.kind(to), from))
}

/// The second can't have the children of the first.
fn keep_fault(links: &Links, key: Key, with: Key) -> Option<Cause>
    ensures { result ≡ conditions.keep_fault true key with links.now }
{
    no_element(links, key)
        .or_else(|| no_element(links, with))
        .or_else(|| misfit_child(links, links.kind(with), key))
}

/// The second can't be where the first is.
fn instead_fault(links: &Links, key: Key, with: Key) -> Option<Cause>
    ensures { result ≡ conditions.instead_fault key with links.now }
{
    links
        .missing(key)
        .or_else(|| links.missing(with))
        .or_else(|| links.not_below(key))
        .or_else(|| links.bound(key, with))
        .or_else(|| misfit(kind_above(links, key), links.kind(with)))
}

pub(crate) fn replace_fault(links: &Links, key: Key, with: Key, keep: bool) -> Option<Cause>
    ensures { result ≡ conditions.replace_fault key with keep links.now }
{
    let fault = instead_fault(links, key, with);
    if keep {
        fault.or_else(|| keep_fault(links, key, with))
    } else {
        fault
    }
}

pub(crate) fn wrap_fault(links: &Links, key: Key, outer: Key) -> Option<Cause>
    ensures { result ≡ conditions.wrap_fault key outer links.now }
{
    instead_fault(links, key, outer).or_else(|| misfit(links.kind(outer), links.kind(key)))
}

pub(crate) fn unwrap_fault(links: &Links, key: Key) -> Option<Cause>
    ensures { result ≡ conditions.unwrap_fault key links.now }
{
    links
        .missing(key)
        .or_else(|| no_element(links, key))
        .or_else(|| links.not_below(key))
        .or_else(|| misfit_child(links, kind_above(links, key), key))
}

/// It is no text.
#[tactic(auto, unfolding(lx_node::specs::Kinds::is_text))]
fn no_text(links: &Links, key: Key) -> Option<Cause>
    ensures { result ≡ unlike kinds.is_text (lookups.kind_of links.now key) }
{
    let kind = links.kind(key)?;
    if matches!(kind, Kind::Text) {
        None
    } else {
        Some(Cause::WrongKind(kind))
    }
}

/// The first offset that isn't above the one before it and a place within the text, which has this length in UTF-16
/// code units. The text is gone through once.
fn bad_offset(text: &str, length: u32, offsets: &[u32]) -> Option<Cause>
    requires { length ≡ length_told (chars text.now) }
    ensures { result ≡ conditions.bad_offset 0 (chars text.now) offsets.now }
{
    let mut low = 0;
    let mut rest = text;
    for offset in offsets {
        if *offset <= low || *offset >= length {
            return Some(Cause::BadPlace(*offset as u64));
        }
        match lx_text::rest_from(rest, *offset - low) {
            Some(behind) => rest = behind,
            None => return Some(Cause::BadPlace(*offset as u64)),
        }
        low = *offset;
    }
    None
}

/// The same of the text of a node, which is empty for one that isn't a text.
#[tactic(auto, using(crate::proofs::Tails::no_characters, crate::proofs::Offsets::none_told))]
fn bad_offset_at(draft: &Draft, key: Key, offsets: &[u32]) -> Option<Cause>
    ensures { result ≡ conditions.bad_offset 0 (conditions.text_or_none (text_in (lookups.label_of draft.now.forest key))) offsets.now }
{
    match text_at(draft, key) {
        Some(text) => bad_offset(text.text.as_str(), lx_text::length_of(&text.text), offsets),
        None => bad_offset("", 0, offsets),
    }
}

/// Why a text can't be split at these offsets, the first cause, if there is one.
pub fn split_fault(draft: &Draft, key: Key, offsets: &[u32]) -> Option<Cause>
    ensures { result ≡ conditions.split_fault key offsets.now draft.now.forest }
{
    let links = draft.links();
    links
        .missing(key)
        .or_else(|| no_text(links, key))
        .or_else(|| links.not_below(key))
        .or_else(|| bad_offset_at(draft, key, offsets))
}

/// The second doesn't come right after the first.
fn no_next(links: &Links, first: Key, second: Key) -> Option<Cause>
    ensures { result ≡ conditions.no_next links.now first second }
{
    match links.next(first) {
        Some(next) => {
            if next == second {
                None
            } else {
                Some(Cause::BadPlace(second.number() as u64))
            }
        }
        None => Some(Cause::BadPlace(second.number() as u64)),
    }
}

pub(crate) fn join_fault(links: &Links, first: Key, second: Key) -> Option<Cause>
    ensures { result ≡ conditions.join_fault first second links.now }
{
    links
        .missing(first)
        .or_else(|| links.missing(second))
        .or_else(|| no_text(links, first))
        .or_else(|| no_text(links, second))
        .or_else(|| no_next(links, first, second))
}
