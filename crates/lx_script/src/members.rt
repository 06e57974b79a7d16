//! Members of an object that are looked for in one way by several readers.

ghost use Rattle.std.specs.Prelude.{◌≡◌, [], ◌∷◌, None, codes, option_map, if◌then◌else◌};
ghost use Rattle.serde_json.specs.Find.{get};
ghost use Rattle.serde_json.specs.View.{view};
ghost use Rattle.lx_fields.specs.Values.{has_only};
ghost use Rattle.lx_script.specs.NewNodes.{unless_null};
ghost use Rattle.lx_script.specs.Steps as steps;

use lx_fields::has_only;
use serde_json::Value;

/// The truth value of a member, which is false where it is missing.
pub(crate) fn truth_in(name: &str, value: &Value) -> Option<bool>
    ensures { result ≡ steps.truth_in (get name.now (view value.now)) }
{
    match value.get(name) {
        Some(value) => value.as_bool(),
        None => Some(false),
    }
}

/// The value of a member that isn't null.
pub(crate) fn told_in<'v>(name: &str, value: &'v Value) -> Option<&'v Value>
    ensures { option_map (λ found. view found.now) result ≡ unless_null (get name.now (view value.now)) }
{
    let found = value.get(name)?;
    if found.is_null() { None } else { Some(found) }
}

/// What a line has under this name, where it has nothing else but its time.
pub(crate) fn alone_in<'v>(name: &str, value: &'v Value) -> Option<&'v Value>
    ensures { option_map (λ found. view found.now) result ≡ (if has_only (codes "at" ∷ name.now ∷ []) (view value.now) then get name.now (view value.now) else None) }
{
    let found = value.get(name)?;
    if has_only(&["at", name], value) {
        Some(found)
    } else {
        None
    }
}
