//! The children of a list that are marked themselves.

ghost use Rattle.std.specs.Prelude.{ℕ, ◌≡◌, ◌++◌, true, [], ◌∷◌, IfSome, IfNone, MatchOption, Some};
ghost use Rattle.lx_forest.specs.Lookups as lookups;
ghost use Rattle.lx_forest.specs.Lookups.{IsForest};
ghost use Rattle.lx_marks.specs.Marks.{Marked};
ghost use Rattle.lx_list.specs.Parts.{AreUntouched, IsMarkedWindow};

use lx_links::Links;
use lx_marks::Marks;
use lx_node::Key;

/// Whether a node is among the siblings from the first up to the last.
fn is_between(links: &Links, first: Key, last: Key, key: Key) -> bool
    requires { IsForest links.now }
    ensures { result ≡ true → (m : Marked) (list : ℕ) → IsMarkedWindow links.now m list first last → IsMarkedWindow links.now (record m { leaves = key ∷ m.leaves }) list first last }
{
    let mut at = first;
    while at != key {
        if at == last {
            return false;
        }
        match links.next(at) {
            Some(next) => at = next,
            None => return false,
        }
    }
    true
}

/// The window that reaches to a sibling outside it. It looks to both sides in turn.
fn stretched(links: &Links, first: Key, last: Key, key: Key) -> (Key, Key)
    requires { IsForest links.now }
    ensures { (m : Marked) (list : ℕ) → lookups.parent_of links.now key ≡ Some list → IsMarkedWindow links.now m list first last → IsMarkedWindow links.now (record m { leaves = key ∷ m.leaves }) list result.0 result.1 }
{
    let mut before = first;
    let mut behind = last;
    loop {
        let previous = links.previous(before);
        if previous == Some(key) {
            return (key, last);
        }
        let next = links.next(behind);
        if next == Some(key) {
            return (first, key);
        }
        if previous.is_none() && next.is_none() {
            return (before, behind);
        }
        before = previous.unwrap_or(before);
        behind = next.unwrap_or(behind);
    }
}

/// The window with a sibling.
fn reaching(links: &Links, first: Key, last: Key, key: Key) -> (Key, Key)
    requires { IsForest links.now }
    ensures { (m : Marked) (list : ℕ) → lookups.parent_of links.now key ≡ Some list → IsMarkedWindow links.now m list first last → IsMarkedWindow links.now (record m { leaves = key ∷ m.leaves }) list result.0 result.1 }
{
    if is_between(links, first, last, key) {
        (first, last)
    } else {
        stretched(links, first, last, key)
    }
}

/// The window with a node, where that is a child of the list.
fn widened(links: &Links, list: Key, window: Option<(Key, Key)>, key: Key) -> Option<(Key, Key)>
    requires { IsForest links.now }
    ensures { (m : Marked) → MatchOption window (AreUntouched m (lookups.children_of links.now list)) (λ ends. IsMarkedWindow links.now m list ends.0 ends.1) → MatchOption result (AreUntouched (record m { leaves = key ∷ m.leaves }) (lookups.children_of links.now list)) (λ ends. IsMarkedWindow links.now (record m { leaves = key ∷ m.leaves }) list ends.0 ends.1) }
{
    if links.parent(key) != Some(list) {
        return window;
    }
    match window {
        None => Some((key, key)),
        Some((first, last)) => Some(reaching(links, first, last, key)),
    }
}

/// The window with an element, if it is marked itself.
fn widened_if(
    links: &Links,
    list: Key,
    window: Option<(Key, Key)>,
    key: Key,
    flag: bool,
) -> Option<(Key, Key)>
    requires { IsForest links.now }
    ensures { (m : Marked) → MatchOption window (AreUntouched m (lookups.children_of links.now list)) (λ ends. IsMarkedWindow links.now m list ends.0 ends.1) → MatchOption result (AreUntouched (record m { elements = m.elements ++ (key, flag) ∷ [] }) (lookups.children_of links.now list)) (λ ends. IsMarkedWindow links.now (record m { elements = m.elements ++ (key, flag) ∷ [] }) list ends.0 ends.1) }
{
    if flag {
        return widened(links, list, window, key);
    }
    window
}

/// The first and the last child of a list that are among these leaves.
fn window_of_leaves(links: &Links, leaves: &[Key], list: Key) -> Option<(Key, Key)>
    requires { IsForest links.now }
    ensures { MatchOption result (AreUntouched (record { leaves = leaves.now; elements = [] }) (lookups.children_of links.now list)) (λ ends. IsMarkedWindow links.now (record { leaves = leaves.now; elements = [] }) list ends.0 ends.1) }
{
    let mut window = None;
    for leaf in leaves {
        window = widened(links, list, window, *leaf);
    }
    window
}

/// The window of leaves with the children that are elements which are marked themselves.
fn with_elements(
    links: &Links,
    marks: &Marks,
    list: Key,
    of_leaves: Option<(Key, Key)>,
) -> Option<(Key, Key)>
    requires { IsForest links.now }
    ensures { MatchOption of_leaves (AreUntouched (record marks.now { elements = [] }) (lookups.children_of links.now list)) (λ ends. IsMarkedWindow links.now (record marks.now { elements = [] }) list ends.0 ends.1) → MatchOption result (AreUntouched marks.now (lookups.children_of links.now list)) (λ ends. IsMarkedWindow links.now marks.now list ends.0 ends.1) }
{
    let mut window = of_leaves;
    for (key, flag) in marks.elements() {
        window = widened_if(links, list, window, *key, *flag);
    }
    window
}

/// The first and the last child of a list that are marked themselves, where there are such. It takes as long as there are
/// marks, and as these children are apart.
pub(crate) fn window_of(links: &Links, marks: &Marks, list: Key) -> Option<(Key, Key)>
    requires { IsForest links.now }
    ensures some { IfSome result (λ ends. IsMarkedWindow links.now marks.now list ends.0 ends.1) }
    ensures none { IfNone result (AreUntouched marks.now (lookups.children_of links.now list)) }
{
    let of_leaves = window_of_leaves(links, marks.leaves(), list);
    with_elements(links, marks, list, of_leaves)
}
