ghost use Rattle.std.specs.Prelude.{◌≡◌, ◌≢◌, IfOk, OnOk};
ghost use Rattle.lx_trees.specs.Trees.{nil};
ghost use Rattle.lx_forest.specs.Lookups as lookups;
ghost use Rattle.lx_forest.specs.Views as views;
ghost use Rattle.lx_links.specs.Stands.{Sound};

use crate::links::Links;
use lx_node::{ElementFields, Extra, Fields, Key, Kind, Kinds, NoMemory, View};
use std::alloc::Global;

impl Links {
    /// What a rule sees of the node, where there is one: its kind and its fields, an item's number as 1, and
    /// the kinds of its parent, of its neighbours and of its children.
    pub fn view(&self, key: Key) -> Result<Option<View>, NoMemory>
        ensures view { IfOk result (λ view. view ≡ views.view_of self.now key) }
        ensures living { OnOk result (self.now ≢ nil) }
        ensures sound { Sound self.now }
    {
        self.living()?;
        let Some(node) = self.node(key) else {
            return Ok(None);
        };
        let fields = seen_fields(self.alloc, &node.fields)?;
        let children = self.child_kinds(key)?;
        Ok(Some(View {
            kind: node.kind,
            fields,
            parent: self.kind_at(&node.parent),
            prev: self.kind_at(&node.prev),
            next: self.kind_at(&node.next),
            children,
        }))
    }

    /// The kind of the node of the key, where one is given and there is one.
    fn kind_at(&self, key: &Option<Key>) -> Option<Kind>
        ensures { result ≡ views.kind_at self.now key.now }
    {
        match key {
            Some(key) => self.kind(*key),
            None => None,
        }
    }

    /// The kinds of the node's children.
    fn child_kinds(&self, key: Key) -> Result<Kinds, NoMemory>
        ensures { IfOk result (λ kinds. kinds ≡ views.kinds_of self.now (lookups.children_of self.now key)) }
    {
        let mut kinds = Vec::new(self.alloc);
        for child in self.children(key) {
            if let Some(kind) = self.kind(child) {
                kinds.push(kind)?;
            }
        }
        Ok(Kinds::of(kinds))
    }
}

/// The fields as a rule sees them.
fn seen_fields(alloc: Global, fields: &Fields) -> Result<Fields, NoMemory>
    ensures { IfOk result (λ made. made ≡ views.seen_fields fields.now) }
{
    let copy = fields.copy(alloc)?;
    Ok(match copy {
        Fields::Element(element) => Fields::Element(unnumbered(element)),
        Fields::Text(text) => Fields::Text(text),
        Fields::Embed(source) => Fields::Embed(source),
        Fields::Bare => Fields::Bare,
    })
}

/// The element with an item's number put as 1.
fn unnumbered(element: ElementFields) -> ElementFields
    ensures { result ≡ record element { extra = views.unnumbered element.extra } }
{
    let ElementFields {
        direction,
        format,
        indent,
        text_format,
        text_style,
        extra,
    } = element;
    let extra = match extra {
        Extra::Item { checked, value: _ } => Extra::Item { value: 1, checked },
        other => other,
    };
    ElementFields {
        direction,
        format,
        indent,
        text_format,
        text_style,
        extra,
    }
}
