ghost use Rattle.lx_rules.specs.AnyRules.{any_rows, any_acts};

use crate::built_in::{CellParagraph, ListMerge};
use crate::glance::Glance;
use crate::transform::{KindSet, Transform};
use lx_node::{NoMemory, TextFields};
use lx_step::{Rule, SelfEdit};
use std::alloc::Global;

/// Any rule that an editor has.
#[derive(Debug, Drop)]
pub enum AnyRule {
    /// A list takes in the list after it.
    Merge(ListMerge),
    /// A cell without children gets a paragraph.
    Fill(CellParagraph),
    /// One that a script registered.
    Script(Rule),
}

impl Transform for AnyRule {
    ghost rows = { any_rows };

    ghost answers = { any_acts };

    fn on(&self) -> KindSet {
        match self {
            AnyRule::Merge(rule) => Transform::on(rule),
            AnyRule::Fill(rule) => Transform::on(rule),
            AnyRule::Script(rule) => Transform::on(rule),
        }
    }

    fn acts(
        &self,
        alloc: Global,
        glance: &Glance,
        own: Option<&TextFields>,
    ) -> Result<Vec<SelfEdit>, NoMemory> {
        match self {
            AnyRule::Merge(rule) => rule.acts(alloc, glance, own),
            AnyRule::Fill(rule) => rule.acts(alloc, glance, own),
            AnyRule::Script(rule) => rule.acts(alloc, glance, own),
        }
    }
}
