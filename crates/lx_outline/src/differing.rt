//! Whether a node of two trees is another in the second.

ghost use Rattle.std.specs.Prelude.{◌≡◌, ◌↔◌, IsTrue};
ghost use Rattle.lx_forest.specs.Lookups.{children_of};
ghost use Rattle.lx_marks.specs.Marks as marked;
ghost use Rattle.lx_outline.specs.Covers.{IsCovered};
ghost use Rattle.lx_outline.specs.Events.{IsCreated, IsUpdated};
ghost use Rattle.lx_outline.specs.Parts.{IsSameNode};

use lx_links::{Children, Links};
use lx_marks::Marks;
use lx_node::{Key, Node};

/// Whether two lists of children are the same. They are looked at up to the first difference.
fn is_same_list(mut old: Children<'_>, mut new: Children<'_>) -> bool
    ensures { IsTrue result ↔ (old.entry ≡ new.entry) }
{
    while let Some(a) = old.next() {
        match new.next() {
            Some(b) => {
                if a != b {
                    return false;
                }
            }
            None => return false,
        }
    }
    new.next().is_none()
}

/// Whether the children of a node are the same in both, in the same order. Where they aren't as many, none is looked at.
fn has_same_children(before: &Links, after: &Links, key: Key) -> bool
    ensures { IsTrue result ↔ (children_of before.now key ≡ children_of after.now key) }
{
    if before.size(key) != after.size(key) {
        return false;
    }
    is_same_list(before.children(key), after.children(key))
}

/// Whether two nodes have the same parent.
fn has_same_parent(old: &Node, new: &Node) -> bool
    ensures { IsTrue result ↔ (old.now.parent ≡ new.now.parent) }
{
    match (old.parent, new.parent) {
        (Some(a), Some(b)) => a == b,
        (None, None) => true,
        _ => false,
    }
}

/// Whether two nodes have the same kind, the same fields and the same parent. Texts are compared last.
fn is_same_node(old: &Node, new: &Node) -> bool
    ensures { IsTrue result ↔ IsSameNode old.now new.now }
{
    old.kind == new.kind && has_same_parent(old, new) && old.fields.is_equal(&new.fields)
}

/// Whether the second tree alone has the node.
pub(crate) fn is_created(before: &Links, after: &Links, key: Key) -> bool
    ensures { IsTrue result ↔ IsCreated before.now after.now key }
{
    !before.has(key) && after.has(key)
}

/// Whether a node of both trees has other fields, another parent or another list of children in the second.
fn is_updated(before: &Links, after: &Links, key: Key) -> bool
    ensures { IsTrue result ↔ IsUpdated before.now after.now key }
{
    let Some(old) = before.node(key) else {
        return false;
    };
    let Some(new) = after.node(key) else {
        return false;
    };
    !is_same_node(old, new) || !has_same_children(before, after, key)
}

/// Whether a node is marked itself.
pub(crate) fn is_touched(marks: &Marks, key: Key) -> bool
    ensures { result ≡ marked.is_touched marks.now key }
{
    marks.has_leaf(key) || matches!(marks.element(key), Some(true))
}

/// The same as `is_updated`, where marks cover the two trees: a node that isn't marked itself is the same in both, so that its
/// children aren't looked at.
pub(crate) fn is_changed(before: &Links, after: &Links, marks: &Marks, key: Key) -> bool
    requires covered { IsCovered before.now after.now marks.now }
    ensures { IsTrue result ↔ IsUpdated before.now after.now key }
{
    if !is_touched(marks, key) {
        return false;
    }
    is_updated(before, after, key)
}
