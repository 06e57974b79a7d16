//! Rules of scripts.

ghost use Rattle.std.specs.Prelude.{◌≡◌, IfOk};
ghost use Rattle.serde_json.specs.View.{view};
ghost use Rattle.lx_script.specs.Rules as rules;

use crate::conditions::asked_by;
use crate::edits::done_by;
use crate::words::type_of;
use lx_fields::has_only;
use lx_node::{Kind, NoMemory};
use lx_step::{Rule, TypeRow};
use serde_json::Value;
use std::alloc::Global;

/// A rule at nodes of the kind's type.
fn rule_on(alloc: Global, kind: Kind, value: &Value) -> Result<Option<Rule>, NoMemory>
    ensures { IfOk result (λ made. made ≡ rules.rule_on kind (view value.now)) }
{
    let conditions = asked_by(alloc, value)?;
    let edits = done_by(alloc, kind, value)?;
    match conditions.zip(edits) {
        Some((conditions, edits)) => Ok(Some(Rule {
            on: TypeRow::of(kind),
            conditions,
            edits,
        })),
        None => Ok(None),
    }
}

/// A rule.
pub(crate) fn rule_of(alloc: Global, value: &Value) -> Result<Option<Rule>, NoMemory>
    ensures { IfOk result (λ made. made ≡ rules.rule_of (view value.now)) }
{
    if !has_only(&["on", "if", "do"], value) {
        return Ok(None);
    }
    match value.get("on").and_then(type_of) {
        Some(kind) => rule_on(alloc, kind, value),
        None => Ok(None),
    }
}
