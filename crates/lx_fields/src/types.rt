//! The kinds of the nodes of documents.

ghost use Rattle.std.specs.Prelude.{◌≡◌};
ghost use Rattle.serde_json.specs.View.{view};
ghost use Rattle.lx_fields.specs.Types as types;

use crate::words::{level_of, list_type_of, made_kind};
use lx_node::Kind;
use serde_json::Value;

/// The kind of a type, for all kinds: none where the text is no type. A heading and a list are those that they are by
/// default.
pub fn kind_of_type(text: &str) -> Option<Kind>
    ensures { result ≡ types.kind_of_type text.now }
{
    if Kind::Root.type_name() == text {
        return Some(Kind::Root);
    }
    made_kind(text)
}

/// A node's kind with what the members of its object say of that: a heading's `tag` its level, and a list's `listType`
/// its type. Where they say nothing it stays what it is.
#[tactic(auto, unfolding(crate::specs::Types::kind_told))]
pub fn kind_told(kind: Kind, object: &Value) -> Kind
    ensures { result ≡ types.kind_told kind (view object.now) }
{
    match kind {
        Kind::Heading(_) => match object.get("tag").and_then(level_of) {
            Some(level) => Kind::Heading(level),
            None => kind,
        },
        Kind::List(_) => match object.get("listType").and_then(list_type_of) {
            Some(list_type) => Kind::List(list_type),
            None => kind,
        },
        _ => kind,
    }
}
