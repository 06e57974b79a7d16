ghost use Rattle.std.specs.Prelude.{◌≡◌, ℕ, IfOk, option_copied};
ghost use Rattle.lx_rules.specs.Answers.{Answers, AreAnswers, script_rows, script_acts};

use crate::conditions::are_met;
use crate::glance::Glance;
use lx_node::{Kind, NoMemory, TextFields};
use lx_step::{Rule, SelfEdit, TypeRow};
use std::alloc::Global;

/// A set of types of nodes: bit i stands for row i, from 0 to 14, of the table of kinds.
#[derive(Clone, Copy)]
pub struct KindSet(pub u32);

impl KindSet {
    ghost use Rattle.std.specs.Prelude.{◌==◌};
    ghost use Rattle.lx_node.specs.declared.kind.Kind.{Kind};
    ghost use Rattle.lx_step.specs.Types.{row_of};
    ghost use Rattle.lx_rules.specs.Types.{is_on, set_of_row};

    /// The set of one type: it has the kinds of that type and no others. It is empty where the row is beyond 14, the
    /// last one of the table.
    pub fn of_row(row: TypeRow) -> KindSet
        ensures bits { result.0 ≡ set_of_row row.0 }
        ensures has { (kind : Kind) → is_on result.0 kind ≡ (row.0 == row_of kind) }
    {
        if row.0 < 15 {
            KindSet(1 << row.0)
        } else {
            KindSet(0)
        }
    }

    /// Whether a kind's type is in the set.
    #[tactic(auto, using(crate::proofs::Rows::row_within))]
    pub fn has(self, kind: Kind) -> bool
        ensures { result ≡ is_on self.0 kind }
    {
        (self.0 >> TypeRow::of(kind).0) % 2 == 1
    }
}

/// A rule: of which types it is, and which edits of a node it answers at the node's view.
pub trait Transform {
    /// The types, as contracts see them.
    ghost rows: { Self → ℕ };

    /// What it answers at each view.
    ghost answers: { Self → Answers };

    /// The types at whose nodes it is asked.
    fn on(&self) -> KindSet
        ensures { result.0 ≡ rows self.now };

    /// Its edits of a node, which it tells by a glance at it and by its text, where it is one. It takes memory for the
    /// edits alone.
    fn acts(
        &self,
        alloc: Global,
        glance: &Glance,
        own: Option<&TextFields>,
    ) -> Result<Vec<SelfEdit>, NoMemory>
        ensures { IfOk result (λ edits. AreAnswers (answers self.now) glance.now (option_copied own.entry) edits.items) };
}

impl Transform for Rule {
    ghost rows = { script_rows };

    ghost answers = { script_acts };

    fn on(&self) -> KindSet {
        KindSet::of_row(self.on)
    }

    #[tactic(auto, unfolding(crate::specs::Answers::script_acts))]
    fn acts(
        &self,
        alloc: Global,
        glance: &Glance,
        own: Option<&TextFields>,
    ) -> Result<Vec<SelfEdit>, NoMemory> {
        if are_met(self.conditions.items(), glance, own) {
            Ok(self.edits.copy(alloc)?.into_vec())
        } else {
            Ok(Vec::new(alloc))
        }
    }
}
