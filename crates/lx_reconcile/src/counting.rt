//! How many nodes of one tree aren't kept from another one.

ghost use Rattle.std.specs.Prelude.{◌≡◌, ◌&&◌, ◌+◌, ℕ, List, length, true, None, Some, Ok, IfOk};
ghost use Rattle.lx_forest.specs.Lookups.{alone, trees_of, children_of, first_child, next_of, has, is_attached};
ghost use Rattle.lx_links.specs.Stands.{Sound};
ghost use Rattle.lx_reconcile.specs.Allowed as allowed;
ghost use Rattle.lx_reconcile.specs.Allowed.{AreUnkept, is_parent, is_only, places_of, is_tag};
ghost use Rattle.lx_render.specs.Render as shown;
ghost use Rattle.lx_reconcile.specs.Counting.{IsInTree, unkept_in};

use crate::looks::{Look, Looked, Reads};
use crate::reconciling::has_same_tag;
use lx_links::Records;
use lx_node::{Key, NoMemory, Node};

/// Whether a node is below this parent, or below none.
fn is_below(node: &Node, parent: Option<Key>) -> bool
    ensures { result ≡ is_parent node.now.parent parent }
{
    match (node.parent, parent) {
        (None, None) => true,
        (Some(own), Some(parent)) => own == parent,
        (None, Some(_)) => false,
        (Some(_), None) => false,
    }
}

/// Whether a node was below this parent with the element that it has now.
fn was_here(was: &Node, parent: Option<Key>, now: &Node) -> bool
    ensures { result ≡ (is_parent was.now.parent parent && is_tag (shown.tag_of was.now.kind was.now.fields) (shown.tag_of now.now.kind now.now.fields)) }
{
    is_below(was, parent) && has_same_tag(was, now)
}

/// Whether a node is kept, where it is known whether its parent is. It reads the node as it was.
fn is_kept<S, L: Look<S>>(
    before: &mut S,
    parent: Option<Key>,
    kept: bool,
    key: Key,
    now: &Node,
) -> bool
    requires in_tree { kept ≡ true → IsInTree (L.backing before.old).whole parent key }
    ensures sound { kept ≡ true → Sound (L.backing before.old).whole }
    ensures kept { result ≡ (kept && is_only parent (shown.tag_of now.now.kind now.now.fields) (places_of key None (alone 0 (L.backing before.old).whole))) }
    ensures in_tree { result ≡ true → is_attached (L.backing before.old).whole key ≡ true }
    ensures same { (L.backing before.new).whole ≡ (L.backing before.old).whole }
{
    if !kept {
        return false;
    }
    match L::look(before, key) {
        Some(was) => was_here(was.node(), parent, now),
        None => false,
    }
}

/// How many nodes of a node's tree aren't kept, where it is known whether its parent is, if it has one; and the key of
/// the node after it.
#[cycle(counting)]
fn count_child<B, A, O: Look<B>, N: Look<A>>(
    before: &mut B,
    after: &mut A,
    parent: Option<Key>,
    kept: bool,
    key: Key,
) -> (u32, Option<Key>)
    requires there { has key (N.backing after.old).whole ≡ true }
    requires in_tree { kept ≡ true → IsInTree (O.backing before.old).whole parent key }
    ensures count { result.0 ≡ unkept_in kept (alone 0 (O.backing before.old).whole) parent (alone key (N.backing after.old).whole) }
    ensures next { result.1 ≡ next_of (N.backing after.old).whole key }
    ensures sound_before { kept ≡ true → Sound (O.backing before.old).whole }
    ensures sound_after { Sound (N.backing after.old).whole }
    ensures before { (O.backing before.new).whole ≡ (O.backing before.old).whole }
    ensures after { (N.backing after.new).whole ≡ (N.backing after.old).whole }
{
    let Some(found) = N::look(after, key) else {
        unreachable!();
    };
    let node = found.node();
    let stays = is_kept::<B, O>(before, parent, kept, key, node);
    let below = count_children::<B, A, O, N>(before, after, key, stays, node.first);
    if stays {
        (below, node.next)
    } else {
        (below + 1, node.next)
    }
}

/// The same for all children of a node, of which this is the first.
#[cycle(counting)]
fn count_children<B, A, O: Look<B>, N: Look<A>>(
    before: &mut B,
    after: &mut A,
    key: Key,
    kept: bool,
    first: Option<Key>,
) -> u32
    requires sound { Sound (N.backing after.old).whole }
    requires first { first ≡ first_child (N.backing after.old).whole key }
    requires in_tree { kept ≡ true → is_attached (O.backing before.old).whole key ≡ true }
    ensures count { result ≡ unkept_in kept (alone 0 (O.backing before.old).whole) (Some key) (trees_of (N.backing after.old).whole (children_of (N.backing after.old).whole key)) }
    ensures before { (O.backing before.new).whole ≡ (O.backing before.old).whole }
    ensures after { (N.backing after.new).whole ≡ (N.backing after.old).whole }
{
    let mut at = first;
    let mut count = 0;
    while let Some(child) = at {
        let counted = count_child::<B, A, O, N>(before, after, Some(key), kept, child);
        count += counted.0;
        at = counted.1;
    }
    count
}

/// How many nodes of the root's tree in `after` aren't kept from that in `before`. The root is kept, and so is each node
/// that both trees have below the same kept parent with the same element. It reads each node of the later tree once, and
/// where its parent is kept, also that of its key before. A forest that is read has fewer than 2^32 nodes, so the number
/// is never capped. It takes no memory, and always has an answer.
pub fn unkept<'a, R: Records<'a>>(before: &mut R, after: &mut R) -> Result<u32, NoMemory>
    requires rooted_before { has 0 (R.forest before.old) ≡ true }
    requires rooted_after { has 0 (R.forest after.old) ≡ true }
    ensures count { result ≡ Ok (allowed.unkept (alone 0 (R.forest before.old)) None (alone 0 (R.forest after.old))) }
    ensures told { IfOk result (λ n. (keys : List ℕ) × AreUnkept (alone 0 (R.forest before.old)) (alone 0 (R.forest after.old)) keys × (length keys ≡ n)) }
    ensures before { R.forest before.new ≡ R.forest before.old }
    ensures after { R.forest after.new ≡ R.forest after.old }
{
    let all = count_child::<R, R, Reads<'a>, Reads<'a>>(before, after, None, true, Key::root());
    Ok(all.0)
}
