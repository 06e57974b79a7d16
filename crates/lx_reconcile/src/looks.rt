//! How a recursion reads a source of nodes. A bound that names a lifetime can't go through a cycle of calls, so the
//! functions of a cycle take a source of any type, with a type that says how to look into it.

ghost use Rattle.std.specs.Prelude.{true, ◌≡◌, ◌+◌, ◌-◌, ◌≤◌, ℕ, option_map};
ghost use Rattle.lx_node.specs.declared.node.Node.{Node};
ghost use Rattle.lx_forest.specs.Forest.{Forest};
ghost use Rattle.lx_forest.specs.Records.{record_at};
ghost use Rattle.lx_forest.specs.Lookups.{alone, has, next_of};
ghost use Rattle.lx_links.specs.Stands.{node_of, Sound};
ghost use Rattle.lx_reconcile.specs.Looking.{Backing, Stays};

use lx_links::Records;
use lx_node::{Key, Node};
use std::marker::PhantomData;

/// A node that was looked up, by what it lends.
pub trait Looked: Drop {
    /// The node.
    ghost lent: { Self → Node };

    /// The node itself.
    fn node(&self) -> &Node
        ensures { result.now ≡ lent self.now };
}

impl<'a> Looked for &'a Node {
    ghost lent = { λ n. n.now };

    fn node(&self) -> &Node {
        self
    }
}

/// A way to look nodes up in a source.
pub trait Look<S> {
    type Item: Looked;

    /// The forest that is read.
    ghost forest: { S → Forest };

    /// How many reads it has made.
    ghost count: { S → ℕ };

    /// The records behind it.
    ghost backing: { S → Backing };

    /// The node of the key, where the forest has one. It counts the call, up to 2^64 - 1.
    fn look(source: &mut S, key: Key) -> Option<Self::Item>
        ensures found { has key (forest source.old) ≡ true → option_map Self.Item.lent result ≡ option_map node_of (record_at (forest source.old) key) }
        ensures sound { Sound (forest source.old) }
        ensures whole_found { option_map Self.Item.lent result ≡ option_map node_of (record_at (backing source.old).whole key) }
        ensures whole_sound { Sound (backing source.old).whole }
        ensures same { forest source.new ≡ forest source.old }
        ensures reads { count source.new ≤ count source.old + 1 }
        ensures backing { Stays (backing source.old) (backing source.new) };
}

/// The way to look nodes up in records that lend them for this lifetime.
pub struct Reads<'a>(PhantomData<&'a Node>);

impl<'a, R: Records<'a>> Look<R> for Reads<'a> {
    type Item = &'a Node;

    ghost forest = { R.forest };

    ghost count = { R.count };

    ghost backing = { λ r. record { lag = 0; whole = R.forest r; place = 0 } };

    fn look(source: &mut R, key: Key) -> Option<&'a Node> {
        source.read(key)
    }
}

/// Records with a number of the reads that went through here.
#[derive(Drop)]
pub struct Tally<'r, R> {
    source: &'r mut R,
    reads: u64,
}

impl<'r, R> Tally<'r, R> {
    /// Nothing was read through it.
    pub(crate) fn new(source: &'r mut R) -> Tally<'r, R>
        ensures source { result.source.now ≡ source.entry.now }
        ensures place { result.source.ghost_name ≡ source.entry.ghost_name }
        ensures none { result.reads ≡ 0 }
    {
        Tally { source, reads: 0 }
    }

    /// How many reads went through here, up to 2^64 - 1.
    pub(crate) fn reads(&self) -> u64
        ensures { result ≡ self.now.reads }
    {
        self.reads
    }
}

/// The way to look nodes of the root's tree up through a tally.
pub struct Tallied<'a>(PhantomData<&'a Node>);

impl<'a, 'r, R: Records<'a>> Look<Tally<'r, R>> for Tallied<'a> {
    type Item = &'a Node;

    ghost forest = { λ t. alone 0 (R.forest t.source.now) };

    ghost count = { λ t. t.reads };

    ghost backing = { λ t. record { lag = R.count t.source.now - t.reads; whole = R.forest t.source.now; place = t.source.ghost_name } };

    fn look(tally: &mut Tally<'r, R>, key: Key) -> Option<&'a Node> {
        tally.reads = tally.reads.saturating_add(1);
        tally.source.read(key)
    }
}

/// The node of the key, which is there.
pub(crate) fn found<S, L: Look<S>>(source: &mut S, key: Key) -> L::Item
    requires there { has key (L.forest source.old) ≡ true }
    ensures found { Some (L.Item.lent result) ≡ option_map node_of (record_at (L.forest source.old) key) }
    ensures same { L.forest source.new ≡ L.forest source.old }
    ensures backing { Stays (L.backing source.old) (L.backing source.new) }
    ensures sound { Sound (L.forest source.old) }
    ensures reads { L.count source.new ≤ L.count source.old + 1 }
{
    match L::look(source, key) {
        Some(item) => item,
        None => unreachable!(),
    }
}

/// The key of the node after the one of this key, which is there.
pub(crate) fn next_after<S, L: Look<S>>(source: &mut S, key: Key) -> Option<Key>
    requires there { has key (L.forest source.old) ≡ true }
    ensures next { result ≡ next_of (L.forest source.old) key }
    ensures same { L.forest source.new ≡ L.forest source.old }
    ensures backing { Stays (L.backing source.old) (L.backing source.new) }
    ensures reads { L.count source.new ≤ L.count source.old + 1 }
{
    let item = found::<S, L>(source, key);
    item.node().next
}
