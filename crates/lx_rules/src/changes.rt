ghost use Rattle.std.specs.Prelude.{◌≡◌, ◌↔◌, IsTrue, not};
ghost use Rattle.std.specs.List.{list_any};
ghost use Rattle.lx_node.specs.Same.{same_fields};
ghost use Rattle.lx_step.specs.Patches.{with_extra, element_with_member, text_with_member, with_member, with_members};
ghost use Rattle.lx_rules.specs.Places as places;

use lx_node::{ElementFields, Extra, Fields, TextFields, Txt};
use lx_step::Member;

/// Whether another member is written into the place of one.
#[tactic(auto, unfolding(crate::specs::Places::rewrites))]
fn rewrites(member: &Member, other: &Member) -> bool
    ensures { result ≡ places.rewrites member.now other.now }
{
    match (member, other) {
        (Member::Direction(_), Member::Direction(_))
        | (Member::Align(_), Member::Align(_))
        | (Member::Indent(_), Member::Indent(_))
        | (Member::TextFormat(_), Member::TextFormat(_))
        | (Member::TextStyle(_), Member::TextStyle(_))
        | (Member::Start(_), Member::Start(_))
        | (Member::Checked(_), Member::Checked(_))
        | (Member::Rel(_), Member::Rel(_))
        | (Member::Target(_), Member::Target(_))
        | (Member::Title(_), Member::Title(_))
        | (Member::Url(_), Member::Url(_))
        | (Member::HeaderState(_), Member::HeaderState(_))
        | (Member::ColSpan(_), Member::ColSpan(_))
        | (Member::RowSpan(_), Member::RowSpan(_))
        | (Member::Background(_), Member::Background(_))
        | (Member::Text(_), Member::Text(_))
        | (Member::Format(_), Member::Format(_))
        | (Member::Style(_), Member::Style(_))
        | (Member::Detail(_), Member::Detail(_))
        | (Member::Mode(_), Member::Mode(_))
        | (Member::Src(_), Member::Src(_))
        | (Member::Other(_), Member::Other(_)) => true,
        _ => false,
    }
}

/// Whether a later member is written into the same place.
fn is_rewritten(member: &Member, later: &[Member]) -> bool
    ensures { result ≡ list_any (places.rewrites member.now) later.now }
{
    later.iter().any(|other| rewrites(member, other))
}

/// Whether both texts are absent, or both are there and equal.
fn is_same(a: &Option<Txt>, b: &Option<Txt>) -> bool
    ensures { IsTrue result ↔ (a.now ≡ b.now) }
{
    match (a, b) {
        (None, None) => true,
        (Some(a), Some(b)) => a.is_equal(b),
        _ => false,
    }
}

/// Whether what only some elements have stays as it is where the member is written.
#[tactic(auto, unfolding(lx_step::specs::Patches::with_extra))]
fn keeps_extra(member: &Member, extra: &Extra) -> bool
    ensures { IsTrue result ↔ (with_extra member.now extra.now ≡ extra.now) }
{
    match (member, extra) {
        (Member::Start(new), Extra::List { start }) => *new == *start,
        (Member::Checked(new), Extra::Item { checked, .. }) => *new == *checked,
        (Member::Rel(new), Extra::Link { rel, .. }) => is_same(new, rel),
        (Member::Target(new), Extra::Link { target, .. }) => is_same(new, target),
        (Member::Title(new), Extra::Link { title, .. }) => is_same(new, title),
        (Member::Url(new), Extra::Link { url, .. }) => new.is_equal(url),
        (Member::HeaderState(new), Extra::Cell { header, .. }) => *new == *header,
        (Member::ColSpan(new), Extra::Cell { col_span, .. }) => *new == *col_span,
        (Member::RowSpan(new), Extra::Cell { row_span, .. }) => *new == *row_span,
        (Member::Background(new), Extra::Cell { background, .. }) => is_same(new, background),
        _ => true,
    }
}

/// Whether what an element has stays as it is where the member is written.
#[tactic(auto, unfolding(lx_step::specs::Patches::element_with_member))]
fn keeps_element(member: &Member, fields: &ElementFields) -> bool
    ensures { IsTrue result ↔ (element_with_member member.now fields.now ≡ fields.now) }
{
    match member {
        Member::Direction(new) => *new == fields.direction,
        Member::Align(new) => *new == fields.format,
        Member::Indent(new) => *new == fields.indent,
        Member::TextFormat(new) => *new == fields.text_format,
        Member::TextStyle(new) => new.is_equal(&fields.text_style),
        _ => keeps_extra(member, &fields.extra),
    }
}

/// Whether what a text has stays as it is where the member is written.
#[tactic(auto, unfolding(lx_step::specs::Patches::text_with_member))]
fn keeps_text(member: &Member, fields: &TextFields) -> bool
    ensures { IsTrue result ↔ (text_with_member member.now fields.now ≡ fields.now) }
{
    match member {
        Member::Text(new) => new.is_equal(&fields.text),
        Member::Format(new) => *new == fields.format,
        Member::Style(new) => new.is_equal(&fields.style),
        Member::Detail(new) => *new == fields.detail,
        Member::Mode(new) => *new == fields.mode,
        _ => true,
    }
}

/// Whether fields stay as they are where the member is written.
#[tactic(auto, unfolding(lx_step::specs::Patches::with_member, lx_step::specs::Patches::with_source))]
fn keeps(member: &Member, fields: &Fields) -> bool
    ensures { IsTrue result ↔ (with_member member.now fields.now ≡ fields.now) }
{
    match (fields, member) {
        (Fields::Element(fields), _) => keeps_element(member, fields),
        (Fields::Text(fields), _) => keeps_text(member, fields),
        (Fields::Embed(source), Member::Src(new)) => new.is_equal(source),
        _ => true,
    }
}

/// Whether writing members into fields, in their order, changes these. Nothing is written and no text is copied: a
/// member changes them where it says something else, and no later one is written into its place.
pub(crate) fn differs(fields: &Fields, members: &[Member]) -> bool
    ensures { result ≡ not (same_fields (with_members members.now fields.now) fields.now) }
{
    let mut rest = members;
    while let Some((member, later)) = rest.split_first() {
        if !keeps(member, fields) && !is_rewritten(member, later) {
            return true;
        }
        rest = later;
    }
    false
}
