//! Rules that every editor has.

ghost use Rattle.lx_rules.specs.BuiltIn.{list_rows, list_merge, cell_rows, cell_paragraph};

use crate::glance::Glance;
use crate::transform::{KindSet, Transform};
use crate::types::is_kind;
use lx_node::{Fields, Kind, ListType, NoMemory, TextFields};
use lx_step::{NewNode, SelfEdit, TypeRow};
use std::alloc::Global;

/// A list takes in the list after it, where both are of one type.
#[derive(Clone, Copy, Debug)]
pub struct ListMerge;

impl Transform for ListMerge {
    ghost rows = { list_rows };

    ghost answers = { list_merge };

    fn on(&self) -> KindSet {
        KindSet::of_row(TypeRow::of(Kind::List(ListType::Bullet)))
    }

    #[tactic(auto, unfolding(crate::specs::BuiltIn::list_merge))]
    fn acts(
        &self,
        alloc: Global,
        glance: &Glance,
        _own: Option<&TextFields>,
    ) -> Result<Vec<SelfEdit>, NoMemory> {
        let mut edits = Vec::new(alloc);
        if is_kind(glance.next, glance.kind) {
            edits.push(SelfEdit::MergeNext)?;
        }
        Ok(edits)
    }
}

/// A cell without children gets a paragraph, so that there is a place for the caret.
#[derive(Clone, Copy, Debug)]
pub struct CellParagraph;

impl Transform for CellParagraph {
    ghost rows = { cell_rows };

    ghost answers = { cell_paragraph };

    fn on(&self) -> KindSet {
        KindSet::of_row(TypeRow::of(Kind::Cell))
    }

    #[tactic(auto, unfolding(crate::specs::BuiltIn::cell_paragraph))]
    fn acts(
        &self,
        alloc: Global,
        glance: &Glance,
        _own: Option<&TextFields>,
    ) -> Result<Vec<SelfEdit>, NoMemory> {
        let mut edits = Vec::new(alloc);
        if glance.is_childless {
            let paragraph = NewNode {
                kind: Kind::Paragraph,
                fields: Fields::plain_element(alloc),
            };
            edits.push(SelfEdit::Child(paragraph))?;
        }
        Ok(edits)
    }
}
