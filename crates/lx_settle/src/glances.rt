//! Nodes of a draft at a glance.

ghost use Rattle.std.specs.Prelude.{◌≡◌, option_map, option_and_then, option_copied};
ghost use Rattle.lx_forest.specs.Views as views;
ghost use Rattle.lx_rules.specs.Glances.{glance_of, text_fields_in};

use lx_links::Links;
use lx_node::{Fields, Key, Kind, TextFields};
use lx_rules::Glance;

/// The node of a key at a glance, where there is one.
#[tactic(auto, using(crate::proofs::Glanced::glanced))]
pub(crate) fn glance_at(links: &Links, key: Key) -> Option<Glance>
    ensures { result ≡ option_map glance_of (views.view_of links.now key) }
{
    let Some(node) = links.node(key) else {
        return None;
    };
    Some(Glance {
        kind: node.kind,
        parent: kind_at(links, node.parent),
        prev: kind_at(links, node.prev),
        next: kind_at(links, node.next),
        is_childless: node.first.is_none(),
    })
}

/// The kind of the node of a key, where one is given and there is one.
fn kind_at(links: &Links, key: Option<Key>) -> Option<Kind>
    ensures { result ≡ views.kind_at links.now key }
{
    match key {
        Some(key) => links.kind(key),
        None => None,
    }
}

/// The fields of the node of a key, where it is a text or a tab.
pub(crate) fn text_at(links: &Links, key: Key) -> Option<&TextFields>
    ensures { option_copied result ≡ option_and_then (λ v. text_fields_in v.fields) (views.view_of links.now key) }
{
    let Some(node) = links.node(key) else {
        return None;
    };
    match &node.fields {
        Fields::Text(own) => Some(own),
        _ => None,
    }
}
