ghost use Rattle.std.specs.Prelude.{◌≡◌, ℕ, true};
ghost use Rattle.lx_joints.specs.Changes.{changed, Fits};

/// The links of an entry: the entry below which it is, its neighbours there, the ends of what is below it, and how many
/// that are.
#[derive(Clone, Copy)]
pub struct Links {
    pub parent: Option<u32>,
    pub prev: Option<u32>,
    pub next: Option<u32>,
    pub first: Option<u32>,
    pub last: Option<u32>,
    pub size: u32,
}

/// What of the links of one entry an edit changes.
#[derive(Drop)]
pub enum Change {
    /// This one comes right after it.
    Next(Option<u32>),
    /// This one comes right before it.
    Prev(Option<u32>),
    /// It goes below a parent, or below none, between these neighbours.
    Place {
        parent: Option<u32>,
        prev: Option<u32>,
        next: Option<u32>,
    },
    /// A child that came between these has left it.
    Left {
        prev: Option<u32>,
        next: Option<u32>,
    },
    /// This child has come below it, between these.
    Joined {
        name: u32,
        behind: Option<u32>,
        before: Option<u32>,
    },
}

impl Links {
    /// Makes a change of them.
    pub fn change(&mut self, change: Change)
        requires { Fits change self.old }
        ensures { self.new ≡ changed change true self.old }
    {
        match change {
            Change::Next(next) => self.next = next,
            Change::Prev(prev) => self.prev = prev,
            Change::Place { parent, prev, next } => {
                self.parent = parent;
                self.prev = prev;
                self.next = next;
            }
            Change::Left { prev, next } => {
                if prev.is_none() {
                    self.first = next;
                }
                if next.is_none() {
                    self.last = prev;
                }
                self.size = self.size.saturating_sub(1);
            }
            Change::Joined {
                name,
                behind,
                before,
            } => {
                if behind.is_none() {
                    self.first = Some(name);
                }
                if before.is_none() {
                    self.last = Some(name);
                }
                self.size += 1;
            }
        }
    }
}
