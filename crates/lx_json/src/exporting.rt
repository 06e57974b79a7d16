ghost use Rattle.std.specs.Prelude.{◌≡◌, ◌≢◌, ℕ, ◌+◌, ◌<◌, ◌≤◌, codes, [], ◌∷◌, true, None, IfOk};
ghost use Rattle.serde_json.specs.Data.{object, member, no_members, item, no_items};
ghost use Rattle.serde_json.specs.View.{view};
ghost use Rattle.lx_node.specs.Limits.{most_key};
ghost use Rattle.lx_trees.specs.NamedTrees.{total};
ghost use Rattle.lx_forest.specs.Lookups.{roots, alone, has, children_of, IsForest};
ghost use Rattle.lx_links.specs.Stands.{Sound};
ghost use Rattle.lx_draft.specs.Freezing.{limits_fault};
ghost use Rattle.lx_json.specs.Exporting.{exported, trees_data};
ghost use Rattle.lx_json.specs.GivenBack.{AreGivenBack};
ghost use Rattle.lx_json.specs.Back.{ReadsBack};

use lx_draft::State;
use lx_fields::node_value;
use lx_links::Links;
use lx_node::{Key, NoMemory};
use serde_json::{Value, json};
use std::alloc::{AllocError, Global};

/// The document of a state's tree, in which nothing is detached. Where the root has children, and the tree is within the
/// limits of a document, `import` reads it back as the same tree, up to keys, with any next key for which there are keys
/// enough: the next key after the tree's nodes is at most 1,048,576.
pub fn export(alloc: Global, state: &State) -> Result<Value, NoMemory>
    requires order { IsForest state.now.links }
    requires alone { roots state.now.links ≡ 0 ∷ [] }
    ensures written { IfOk result (λ document. view document ≡ exported state.now.links) }
    ensures back { (next : ℕ) → 0 < next → next + total state.now.links ≤ most_key + 1 → children_of state.now.links 0 ≢ [] → limits_fault state.now.links 1 ≡ None → IfOk result (λ document. ReadsBack (view document) next state.now.links) }
{
    let root = tree_value(alloc, &state.links, Key::root())?;
    let document = document_value(alloc, root)?;
    Ok(document)
}

/// The document of the root's object.
fn document_value(alloc: Global, root: Value) -> Result<Value, AllocError>
    ensures { IfOk result (λ document. view document ≡ object (member (codes "root") (view root) no_members)) }
{
    json!(in alloc; {"root": root})
}

/// The object that is written for the node of the key, which holds what is written for its children.
fn tree_value(alloc: Global, links: &Links, key: Key) -> Result<Value, NoMemory>
    requires there { has key links.now ≡ true }
    ensures written { IfOk result (λ value. trees_data (alone key links.now) ≡ item (view value) no_items) }
    ensures told { IfOk result (λ value. AreGivenBack (alone key links.now)) }
    ensures sound { Sound links.now }
{
    let Some(node) = links.node(key) else {
        unreachable!();
    };
    let mut children = Vec::new(alloc);
    for child in links.children(key) {
        let value = tree_value(alloc, links, child)?;
        children.push(value)?;
    }
    node_value(alloc, node.kind, &node.fields, children)
}
