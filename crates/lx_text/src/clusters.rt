//! Where a caret goes in a text: over a cluster of characters, or over a word. Clusters and words are those of
//! `unicode_segmentation`, the extended grapheme clusters and the word bounds of Unicode. Offsets count as those of
//! `slice`.

ghost use Rattle.std.specs.Prelude.{◌≡◌, IfOk, IfErr, chars, min, reverse};
ghost use Rattle.std.specs.Result.{is_ok};
ghost use Rattle.std.specs.List.{list_all};
ghost use Rattle.std.specs.Char.{is_whitespace};
ghost use Rattle.lx_node.specs.declared.cause.Cause.TheVariants.{BadPlace};
ghost use Rattle.lx_node.specs.declared.cause.Fault.TheVariants as fault;
ghost use Rattle.lx_text.specs.Texts.{is_offset};
ghost use Rattle.lx_text.specs.Clusters as clusters;

use crate::offsets::parted;
use crate::pieces::{bad_place, units};
use lx_node::Fault;
use unicode_segmentation::UnicodeSegmentation;

/// The length of the last cluster of a text, and 0 where there is none.
fn last_cluster(text: &str) -> u32
    ensures { result ≡ min (clusters.over_first (reverse (clusters.clusters (chars text.now)))) 4294967295 }
{
    match text.graphemes(true).next_back() {
        Some(cluster) => units(cluster),
        None => 0,
    }
}

/// The length of the first cluster of a text, and 0 where there is none.
fn first_cluster(text: &str) -> u32
    ensures { result ≡ min (clusters.over_first (clusters.clusters (chars text.now))) 4294967295 }
{
    match text.graphemes(true).next() {
        Some(cluster) => units(cluster),
        None => 0,
    }
}

/// Where the last cluster of the text up to an offset begins: at the offset itself where there is none. It is
/// refused with `BadPlace` and the offset where that is past the end or inside a pair.
#[tactic(auto, unfolding(crate::specs::Clusters::cluster_before))]
pub fn cluster_before(text: &str, at: u32) -> Result<u32, Fault>
    ensures start { IfOk result (λ start. start ≡ clusters.cluster_before (chars text.now) at) }
    ensures allowed { is_ok result ≡ is_offset at (chars text.now) }
    ensures refused { IfErr result (λ e. e ≡ fault.Cause (BadPlace at)) }
{
    match parted(text, at) {
        Some((front, _)) => Ok(at.saturating_sub(last_cluster(front))),
        None => Err(bad_place(at)),
    }
}

/// Where the first cluster of the text from an offset on ends: at the offset itself where there is none. It is
/// refused with `BadPlace` and the offset where that is past the end or inside a pair.
#[tactic(auto, unfolding(crate::specs::Clusters::cluster_after))]
pub fn cluster_after(text: &str, at: u32) -> Result<u32, Fault>
    ensures end { IfOk result (λ end. end ≡ clusters.cluster_after (chars text.now) at) }
    ensures allowed { is_ok result ≡ is_offset at (chars text.now) }
    ensures refused { IfErr result (λ e. e ≡ fault.Cause (BadPlace at)) }
{
    match parted(text, at) {
        Some((_, rest)) => Ok(at.saturating_add(first_cluster(rest))),
        None => Err(bad_place(at)),
    }
}

/// Whether a piece is white space alone.
fn is_white(piece: &str) -> bool
    ensures { result ≡ list_all is_whitespace (chars piece.now) }
{
    piece.chars().all(|c| c.is_whitespace())
}

/// The length of the pieces of white space at the end of a text, and of the piece before them.
fn last_word(text: &str) -> u32
    ensures { result ≡ min (clusters.over_word (reverse (clusters.words (chars text.now)))) 4294967295 }
{
    let mut pieces = text.split_word_bounds();
    let mut over: u32 = 0;
    while let Some(piece) = pieces.next_back() {
        over = over.saturating_add(units(piece));
        if !is_white(piece) {
            return over;
        }
    }
    over
}

/// The length of the pieces of white space at the start of a text, and of the piece after them.
fn first_word(text: &str) -> u32
    ensures { result ≡ min (clusters.over_word (clusters.words (chars text.now))) 4294967295 }
{
    let mut pieces = text.split_word_bounds();
    let mut over: u32 = 0;
    while let Some(piece) = pieces.next() {
        over = over.saturating_add(units(piece));
        if !is_white(piece) {
            return over;
        }
    }
    over
}

/// Where the last word of the text up to an offset begins: white space at its end is passed over first. It is the
/// offset itself where there is nothing before. It is refused with `BadPlace` and the offset where that is past the
/// end or inside a pair.
#[tactic(auto, unfolding(crate::specs::Clusters::word_before))]
pub fn word_before(text: &str, at: u32) -> Result<u32, Fault>
    ensures start { IfOk result (λ start. start ≡ clusters.word_before (chars text.now) at) }
    ensures allowed { is_ok result ≡ is_offset at (chars text.now) }
    ensures refused { IfErr result (λ e. e ≡ fault.Cause (BadPlace at)) }
{
    match parted(text, at) {
        Some((front, _)) => Ok(at.saturating_sub(last_word(front))),
        None => Err(bad_place(at)),
    }
}

/// Where the first word of the text from an offset on ends: white space at its start is passed over first. It is the
/// offset itself where there is nothing after. It is refused with `BadPlace` and the offset where that is past the
/// end or inside a pair.
#[tactic(auto, unfolding(crate::specs::Clusters::word_after))]
pub fn word_after(text: &str, at: u32) -> Result<u32, Fault>
    ensures end { IfOk result (λ end. end ≡ clusters.word_after (chars text.now) at) }
    ensures allowed { is_ok result ≡ is_offset at (chars text.now) }
    ensures refused { IfErr result (λ e. e ≡ fault.Cause (BadPlace at)) }
{
    match parted(text, at) {
        Some((_, rest)) => Ok(at.saturating_add(first_word(rest))),
        None => Err(bad_place(at)),
    }
}
