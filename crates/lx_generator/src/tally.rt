use lx_editor::Outcome;

/// How many lines committed, were idle, and were refused.
#[derive(Clone, Copy)]
pub(crate) struct Tally {
    pub(crate) commits: u32,
    pub(crate) idle: u32,
    pub(crate) refused: u32,
}

impl Tally {
    ghost use Rattle.std.specs.Prelude.{◌≡◌, ◌+◌, ◌<◌, ◌≤◌};
    ghost use Rattle.lx_node.specs.Limits.{last_u32};
    ghost use Rattle.lx_generator.specs.Sessions.{counted, no_tally};

    /// The tally of no line.
    pub(crate) fn none() -> Tally
        ensures { result ≡ no_tally }
    {
        Tally {
            commits: 0,
            idle: 0,
            refused: 0,
        }
    }

    /// Counts a line by its outcome.
    pub(crate) fn count(&mut self, outcome: &Outcome)
        requires room { self.old.commits + self.old.idle + self.old.refused < last_u32 }
        ensures counted { self.new ≡ counted outcome.now self.old }
        ensures few { self.new.commits + self.new.idle + self.new.refused ≤ self.old.commits + self.old.idle + self.old.refused + 1 }
    {
        match outcome {
            Outcome::Committed { .. } => self.commits += 1,
            Outcome::Idle => self.idle += 1,
            Outcome::Refused { .. } => self.refused += 1,
            Outcome::Gathered { .. } => {}
        }
    }
}
