//! An outline beside an editor, which is kept by the events of commits.

ghost use Rattle.std.specs.Prelude.{◌≡◌, OnOk};
ghost use Rattle.lx_outline.specs.Events.{AreEvents};
ghost use Rattle.lx_outline.specs.Outline.{IsOutlineOf};
ghost use Rattle.lx_serving.specs.Outlining.{IsWithin};

use lx_draft::State;
use lx_editor::Change;
use lx_links::{Counted, Links};
use lx_node::NoMemory;
use lx_outline::{Event, Outline, events};
use std::alloc::Global;
use std::marker::Model;

/// An outline, and what the last commit did to nodes: nothing before the first.
pub(crate) struct Outlined {
    outline: Outline,
    events: Vec<Event>,
}

// Written out, so that who drops one calls this.
impl Drop for Outlined {
    fn drop(self) {
        let Outlined { outline, events } = self;
        drop(outline);
        drop(events);
    }
}

impl Model for Outlined {
    ghost use Rattle.std.specs.Coded.{codes};
    ghost use Rattle.lx_serving.specs.Outlining.{OutlinedView};

    ghost Value = { OutlinedView };

    ghost coded = { Prim.hlevel codes };

    ghost view = { λ o. record { outline = o.outline; events = o.events.items } };
}

impl Outlined {
    ghost use Rattle.std.specs.Prelude.{IfOk};
    ghost use Rattle.lx_forest.specs.Forest.{root_alone};
    ghost use Rattle.lx_forest.specs.Covered.{AreCovered};
    ghost use Rattle.lx_reconcile.specs.Allowing.{marking};
    ghost use Rattle.lx_serving.specs.Outlining.{new_outlined};

    /// The outline of a new editor's tree, and no events.
    pub(crate) fn new(alloc: Global) -> Result<Outlined, NoMemory>
        ensures made { IfOk result (λ made. made ≡ new_outlined) }
        ensures outline { OnOk result (IsOutlineOf new_outlined.outline root_alone) }
    {
        let outline = Outline::new(alloc)?;
        Ok(Outlined {
            outline,
            events: Vec::new(alloc),
        })
    }

    /// The outline.
    pub(crate) fn outline(&self) -> &Outline
        ensures { result.now ≡ self.now.outline }
    {
        &self.outline
    }

    /// What the last commit did to nodes.
    pub(crate) fn events(&self) -> &[Event]
        ensures { result.now ≡ self.now.events }
    {
        self.events.as_slice()
    }

    /// Takes what a commit changed: it is then the outline of the state after it, and the events are those of the commit. Once
    /// memory has run out it is only fit to be dropped.
    #[tactic(auto, using(lx_outline::proofs::Covers::covered_widely))]
    pub(crate) fn follow(
        &mut self,
        alloc: Global,
        change: &Change,
        after: &State,
    ) -> Result<(), NoMemory>
        requires outline { IsOutlineOf self.old.outline change.now.before.links }
        requires before { IsWithin change.now.before.links }
        requires after { IsWithin after.now.links }
        requires covered { AreCovered change.now.before.links after.now.links (marking change.now.marks) }
        ensures outline { OnOk result (IsOutlineOf self.new.outline after.now.links) }
        ensures events { OnOk result (AreEvents change.now.before.links after.now.links self.new.events) }
    {
        let told = events(alloc, &change.before, after, &change.marks)?;
        let old = &change.before.links;
        follow_events(&mut self.outline, told.as_slice(), old, &after.links)?;
        self.events = told;
        Ok(())
    }
}

/// Has an outline of the tree before follow the events between two trees. It counts its reads of them, which are few.
fn follow_events<'t>(
    outline: &mut Outline,
    events: &[Event],
    before: &'t Links,
    after: &'t Links,
) -> Result<(), NoMemory>
    requires outline { IsOutlineOf outline.old before.now }
    requires events { AreEvents before.now after.now events.now }
    requires before { IsWithin before.now }
    requires after { IsWithin after.now }
    ensures { OnOk result (IsOutlineOf outline.new after.now) }
{
    let mut old = Counted::new(before);
    let mut new = Counted::new(after);
    outline.apply(events, &mut old, &mut new)
}
