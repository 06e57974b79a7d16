//! What lines about views, and about the outline, ask for.

ghost use Rattle.std.specs.Prelude.{◌≡◌, option_and_then, option_map};
ghost use Rattle.serde_json.specs.Find.{as_array};
ghost use Rattle.serde_json.specs.View.{view, items_view};
ghost use Rattle.lx_node.specs.Limits.{last_u32};
ghost use Rattle.lx_fields.specs.Values.{number_within};
ghost use Rattle.lx_serving.specs.Asked as asked;

use serde_json::Value;

/// What a line about views asks for.
#[derive(Clone, Copy, Debug, PartialEq, Eq, Hash)]
pub(crate) enum AboutViews {
    /// A new view.
    Attach,
    /// That a view takes its next batch.
    Deliver(u32),
    /// The HTML of a view.
    Html(u32),
    /// That a view is let go.
    Detach(u32),
}

/// What a line about the outline asks for.
#[derive(Clone, Copy, Debug, PartialEq, Eq, Hash)]
pub(crate) enum AboutOutline {
    /// The sums and the headings.
    Headings,
    /// What the last commit did to nodes.
    LastEvents,
}

/// The value of the member of that name, where an object has it and no other.
pub(crate) fn sole_member<'v>(name: &str, value: &'v Value) -> Option<&'v Value>
    ensures { option_map (λ found. view found.now) result ≡ asked.sole_member name.now (view value.now) }
{
    let members = value.as_object()?;
    let is_only = members.len() == 1;
    if !is_only {
        return None;
    }
    let (first, member) = members.first_key_value()?;
    if first.as_str() == name {
        Some(member)
    } else {
        None
    }
}

/// A view's number, from 0 to 4,294,967,295.
fn number_of(value: &Value) -> Option<u32>
    ensures { result ≡ number_within 0 last_u32 (view value.now) }
{
    match value.as_u64() {
        Some(number) => {
            let is_within = number <= 4_294_967_295;
            if is_within { Some(number as u32) } else { None }
        }
        None => None,
    }
}

/// What a word asks of a view.
fn asked_of(word: &Value, number: &Value) -> Option<AboutViews>
    ensures { result ≡ asked.asked_of (view word.now) (view number.now) }
{
    let number = number_of(number)?;
    match word.as_str() {
        Some("deliver") => Some(AboutViews::Deliver(number)),
        Some("html") => Some(AboutViews::Html(number)),
        Some("detach") => Some(AboutViews::Detach(number)),
        _ => None,
    }
}

/// What two items ask for: a word, and a view's number.
fn about_one(items: &[Value]) -> Option<AboutViews>
    ensures { result ≡ asked.about_one (items_view items.now) }
{
    if items.len() != 2 {
        return None;
    }
    asked_of(&items[0], &items[1])
}

/// What a list asks for.
fn about_listed(value: &Value) -> Option<AboutViews>
    ensures { result ≡ option_and_then asked.about_one (as_array (view value.now)) }
{
    match value.as_array() {
        Some(items) => about_one(items.as_slice()),
        None => None,
    }
}

/// What the value of a member `hub` asks for: `"attach"`, or `["deliver",V]`, `["html",V]` or `["detach",V]`.
pub(crate) fn about_views(value: &Value) -> Option<AboutViews>
    ensures { result ≡ asked.about_views (view value.now) }
{
    match value.as_str() {
        Some("attach") => Some(AboutViews::Attach),
        _ => about_listed(value),
    }
}

/// What the value of a member `ask` asks for: `"outline"` or `"events"`.
pub(crate) fn about_outline(value: &Value) -> Option<AboutOutline>
    ensures { result ≡ asked.about_outline (view value.now) }
{
    match value.as_str() {
        Some("outline") => Some(AboutOutline::Headings),
        Some("events") => Some(AboutOutline::LastEvents),
        _ => None,
    }
}
