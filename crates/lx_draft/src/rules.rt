use crate::draft::Draft;
use lx_node::{Key, Point, Txt};

/// How points move with an edit, with the numbers and the text of the rule. Offsets count UTF-16 code units of a
/// text, or children of an element.
#[derive(Drop)]
pub enum PointRule {
    /// A child comes to an index of the parent.
    Put {
        parent: Key,
        index: u32,
    },
    /// A child leaves an index of the parent.
    Take {
        parent: Key,
        index: u32,
    },
    /// A piece of a text is replaced by one of so many.
    Splice {
        key: Key,
        from: u32,
        to: u32,
        len: u32,
    },
    /// A text is this one now.
    Set {
        key: Key,
        text: Txt,
    },
    /// What comes after an offset of a text is in a new one now.
    Split {
        key: Key,
        at: u32,
        new: Key,
    },
    /// The second text is after the first, which was so long, in that one.
    Join {
        first: Key,
        len: u32,
        second: Key,
    },
    /// The children of one element are after those of another, which had so many.
    Children {
        from: Key,
        to: Key,
        size: u32,
    },
    /// The children of an element are in its place, at an index of its parent.
    Unwrap {
        key: Key,
        parent: Key,
        index: u32,
    },
    /// A text gives way to this one, of another key.
    Replace {
        old: Key,
        new: Key,
        text: Txt,
    },
    /// Every point on the key becomes this one.
    Move {
        key: Key,
        to: Point,
    },
}

impl Draft {
    ghost use Rattle.std.specs.Prelude.{◌≡◌};
    ghost use Rattle.lx_select.specs.Selection.{each_point, with_format, carried};
    ghost use Rattle.lx_select.specs.Rules.{carry_moves};
    ghost use Rattle.lx_draft.specs.Points.{moved_by};

    /// Moves the points of the selection by a rule.
    pub fn point_rule(&mut self, rule: PointRule)
        ensures { self.new ≡ record self.old { selection = each_point (moved_by rule) self.old.selection } }
    {
        match rule {
            PointRule::Put { parent, index } => self.selection.after_put(parent, index),
            PointRule::Take { parent, index } => self.selection.after_take(parent, index),
            PointRule::Splice { key, from, to, len } => {
                self.selection.after_splice(key, from, to, len)
            }
            PointRule::Set { key, text } => self.selection.after_set(key, text.as_str()),
            PointRule::Split { key, at, new } => self.selection.after_split(key, at, new),
            PointRule::Join { first, len, second } => self.selection.after_join(first, len, second),
            PointRule::Children { from, to, size } => self.selection.after_children(from, to, size),
            PointRule::Unwrap { key, parent, index } => {
                self.selection.after_unwrap(key, parent, index)
            }
            PointRule::Replace { old, new, text } => {
                self.selection.after_replace(old, new, text.as_str())
            }
            PointRule::Move { key, to } => self.selection.move_points(key, to),
        }
    }

    /// Puts both points of a range at one place, which is a caret there. Its format stays.
    pub fn put_points(&mut self, to: Point)
        ensures { self.new ≡ record self.old { selection = each_point (λ _. to) self.old.selection } }
    {
        self.selection.put_points(to);
    }

    /// Gives a range another format, whose bits are those of a text's format.
    pub fn put_format(&mut self, format: u16)
        ensures { self.new ≡ record self.old { selection = with_format format self.old.selection } }
    {
        self.selection.put_format(format);
    }

    /// Brings points along with what a node had, after the edits that moved that elsewhere. The two points of the
    /// range `before` those edits show which were on the key `from`: such a point goes to the key `to`, where what
    /// was at 0 of the one is now at the offset `at`. Every other point stays where the edits left it.
    pub fn carry_points(&mut self, before: Option<(Point, Point)>, from: Key, to: Key, at: u32)
        ensures { self.new ≡ record self.old { selection = carried from (carry_moves from to at) before self.old.selection } }
    {
        self.selection.carry(before, from, to, at);
    }
}
