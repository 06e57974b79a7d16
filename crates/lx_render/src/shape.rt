ghost use Rattle.std.specs.Prelude.{◌≡◌, IfOk};
ghost use Rattle.lx_render.specs.Render as shown;

use crate::attributes::attributes_of;
use crate::tags::tag_of;
use lx_host::{Attrs, Tag};
use lx_node::{Fields, NoMemory, Node, Txt};
use std::alloc::Global;

/// What a node shows beside its children: its element, the attributes in byte order of their names, and a
/// text where it has one.
#[derive(Drop)]
pub struct Shape {
    pub tag: Tag,
    pub attrs: Attrs,
    pub text: Option<Txt>,
}

/// A copy of a text's characters, where the node is a text or tab.
fn text_of(alloc: Global, fields: &Fields) -> Result<Option<Txt>, NoMemory>
    ensures { IfOk result (λ text. text ≡ shown.text_of fields.now) }
{
    match fields {
        Fields::Text(text) => Ok(Some(text.text.copy(alloc)?)),
        _ => Ok(None),
    }
}

/// What shows a node. It takes memory for the attributes and for a copy of the text.
pub fn describe(alloc: Global, node: &Node) -> Result<Shape, NoMemory>
    ensures tag { IfOk result (λ shape. shape.tag ≡ shown.tag_of node.now.kind node.now.fields) }
    ensures attributes { IfOk result (λ shape. shape.attrs ≡ shown.attributes_of node.now.kind node.now.fields) }
    ensures text { IfOk result (λ shape. shape.text ≡ shown.text_of node.now.fields) }
{
    let tag = tag_of(node.kind, &node.fields);
    let attrs = attributes_of(alloc, node.kind, &node.fields)?;
    let text = text_of(alloc, &node.fields)?;
    Ok(Shape { tag, attrs, text })
}
