ghost use Rattle.std.specs.Prelude.{◌≡◌};
ghost use Rattle.lx_rules.specs.Glances.{glance_of};

use lx_node::{Kind, View};

/// What a view shows at a glance: the node's kind and those beside and above it, and whether it has children. Neither
/// its fields nor its children are looked at, so that it costs the same for every node.
#[derive(Clone, Copy)]
pub struct Glance {
    pub kind: Kind,
    pub parent: Option<Kind>,
    pub prev: Option<Kind>,
    pub next: Option<Kind>,
    pub is_childless: bool,
}

impl Glance {
    /// What a view shows at a glance.
    pub fn of(view: &View) -> Glance
        ensures { result ≡ glance_of view.now }
    {
        Glance {
            kind: view.kind,
            parent: view.parent,
            prev: view.prev,
            next: view.next,
            is_childless: view.children.items().is_empty(),
        }
    }
}
