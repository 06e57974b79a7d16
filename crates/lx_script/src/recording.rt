//! How a line is recorded: its time, and its tags.

ghost use Rattle.std.specs.Prelude.{◌≡◌, ◌||◌, codes, option_map};
ghost use Rattle.std.specs.Str.{bytes_eq};
ghost use Rattle.serde_json.specs.Find.{as_str};
ghost use Rattle.serde_json.specs.View.{view, items_view};
ghost use Rattle.lx_script.specs.Grammar as grammar;
ghost use Rattle.lx_fields.specs.Values as values;

use lx_fields::number_within;
use lx_step::Tags;
use serde_json::Value;

/// The greatest time, 2^53 - 1: up to it a number of double precision holds each whole number.
const MOST_MOMENT: u64 = 9_007_199_254_740_991;

/// The time of a line, in milliseconds, which may be missing.
pub(crate) fn moment_of(value: &Value) -> Option<Option<u64>>
    ensures { result ≡ grammar.moment_of (view value.now) }
{
    match value.get("at") {
        Some(value) => match number_within(0, MOST_MOMENT, value) {
            Some(moment) => Some(Some(moment)),
            None => None,
        },
        None => Some(None),
    }
}

/// What the tags say once this word is one of them.
fn with_tag(tags: Tags, word: &str) -> Tags
    ensures historic { result.historic ≡ (tags.historic || bytes_eq word.now (codes "historic")) }
    ensures merge { result.merge ≡ (tags.merge || bytes_eq word.now (codes "history-merge")) }
    ensures push { result.push ≡ (tags.push || bytes_eq word.now (codes "history-push")) }
{
    Tags {
        historic: tags.historic || word == "historic",
        merge: tags.merge || word == "history-merge",
        push: tags.push || word == "history-push",
    }
}

/// What a list of tags says, each of which is a string.
fn tags_among(items: &[Value]) -> Option<Tags>
    ensures { result ≡ option_map grammar.tags_among (values.all_of as_str (items_view items.now)) }
{
    let mut tags = Tags::none();
    'items: for item in items {
        match item.as_str() {
            Some(word) => tags = with_tag(tags, word),
            None => return None,
        }
    }
    Some(tags)
}

/// What the tags of a line say, which may be missing.
pub(crate) fn tags_of(value: &Value) -> Option<Tags>
    ensures { result ≡ grammar.tags_of (view value.now) }
{
    match value.get("tags") {
        Some(value) => match value.as_array() {
            Some(items) => tags_among(items.as_slice()),
            None => None,
        },
        None => Some(Tags::none()),
    }
}
