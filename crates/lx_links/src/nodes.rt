ghost use Rattle.std.specs.Prelude.{◌≡◌};
ghost use Rattle.lx_node.specs.declared.cause.Cause.TheVariants.{UnknownNode, BadPlace};
ghost use Rattle.lx_node.specs.declared.cause.Fault.TheVariants as fault;
ghost use Rattle.lx_node.specs.declared.cause.Named.TheVariants as named;
ghost use Rattle.lx_links.specs.Stands.{lone_node as a_lone_node};

use lx_node::{Cause, Fault, Fields, Key, Kind, Named, Node};

/// A node without links.
pub fn lone_node(kind: Kind, fields: Fields) -> Node
    ensures { result ≡ a_lone_node kind fields }
{
    Node {
        kind,
        fields,
        parent: None,
        prev: None,
        next: None,
        first: None,
        last: None,
        size: 0,
    }
}

/// There is no node of the key.
pub fn unknown(key: Key) -> Fault
    ensures { result ≡ fault.Cause (UnknownNode (named.Key key)) }
{
    Fault::Cause(Cause::UnknownNode(Named::Key(key)))
}

/// The node of the key can't be where it is asked for.
pub fn bad_place(key: Key) -> Fault
    ensures { result ≡ fault.Cause (BadPlace key) }
{
    Fault::Cause(Cause::BadPlace(key.number() as u64))
}
