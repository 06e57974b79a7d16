ghost use Rattle.std.specs.Prelude.{◌≡◌, ◌==◌, ◌++◌, ℕ, List, chars, OnOk, Some};
ghost use Rattle.std.specs.FinMap as map;
ghost use Rattle.lx_node.specs.Cuts.{Cuts};
ghost use Rattle.lx_node.specs.declared.fields.Fields.TheVariants as fields;
ghost use Rattle.lx_node.specs.declared.fields.TextFields.{TextFields};
ghost use Rattle.lx_node.specs.declared.node.Node.{Node};
ghost use Rattle.lx_joints.specs.Changes.{Differs};
ghost use Rattle.lx_links.specs.Changes.{with_content};
ghost use Rattle.lx_links.specs.Splices.{node_spliced, FitsSplice};
ghost use Rattle.lx_links.specs.Sums.{own_sums};

use crate::sums::Sums;
use lx_node::{Fields, Key, NoMemory, Node};
use lx_store::{Copies, Edit, Store};

/// A text that comes in the place of a piece of a node's text: so many bytes come before the piece, and so many are in
/// it.
#[derive(Drop)]
pub struct TextSplice<'a> {
    pub front: usize,
    pub piece: usize,
    pub text: &'a str,
}

impl<'a> Edit<Node> for TextSplice<'a> {
    ghost fits = { FitsSplice };

    ghost edited = { node_spliced };

    fn edit(self, node: &mut Node) -> Result<(), NoMemory> {
        match &mut node.fields {
            Fields::Text(old) => old.text.splice(self.front, self.piece, self.text),
            _ => Ok(()),
        }
    }
}

/// Splices the text of a node where it is.
pub fn splice_node(
    store: &mut Store<Node>,
    key: Key,
    splice: TextSplice<'_>,
) -> Result<(), NoMemory>
    requires { (n : Node) → map.get store.old key ≡ Some n → FitsSplice splice n }
    ensures { OnOk result ((n : Node) (old : TextFields) (before within behind : List ℕ) → map.get store.old key ≡ Some n → n.fields ≡ fields.Text old → Cuts splice.entry.front splice.entry.piece before within behind old.text → Differs (λ q. with_content (fields.Text (record old { text = before ++ chars splice.entry.text.now ++ behind })) (q == key)) (map.get store.old) (map.get store.new)) }
{
    let mut copies = Copies::new();
    store.change(key, splice, &mut copies)?;
    Ok(())
}

/// What the node of a key has of the sums, where there is one.
pub fn node_sums(store: &Store<Node>, key: Key) -> Sums
    ensures { (n : Node) → map.get store.now key ≡ Some n → result ≡ own_sums n.kind n.fields }
{
    match store.get(key) {
        Some(node) => Sums::of(node.kind, &node.fields),
        None => Sums {
            characters: 0,
            items: 0,
            item_characters: 0,
        },
    }
}
