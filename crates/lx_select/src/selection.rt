use crate::keys::{Keys, are_equal};
use crate::rules;
use lx_node::{Key, NoMemory, Point, SelectionKind};
use std::alloc::Global;

/// What is selected.
#[derive(Debug, Drop)]
pub enum Selection {
    /// Nothing at all.
    Nothing,
    /// What lies between two points, of which `anchor` stays where the other is dragged. Text that is typed
    /// there gets `format`, whose bits are those of a text's format.
    Range {
        anchor: Point,
        focus: Point,
        format: u16,
    },
    /// Some nodes, each as a whole.
    Nodes(Keys),
    /// The cells of a table from the cell `anchor` to the cell `focus`.
    Cells {
        table: Key,
        anchor: Key,
        focus: Key,
    },
}

impl Selection {
    ghost use Rattle.std.specs.Prelude.{◌≡◌, ◌↔◌, IfOk, OnErr, IsTrue, chars};
    ghost use Rattle.lx_node.specs.declared.cause.Point.{Point};
    ghost use Rattle.lx_select.specs.Same.{same_selection};
    ghost use Rattle.lx_select.specs.Selection.{kind_of_selection, each_point, with_format, has_point_on, ends_of, carried};
    ghost use Rattle.lx_select.specs.Rules.{put_moves, take_moves, splice_moves, set_moves, split_moves, join_moves, children_moves, unwrap_moves, replace_moves, carry_moves, moved_to};

    /// An equal selection. It takes memory for the keys of nodes, and none for any other selection.
    pub fn copy(&self, alloc: Global) -> Result<Selection, NoMemory>
        ensures ok { IfOk result (λ made. made ≡ self.now) }
        ensures err_only_at_nodes { OnErr result (kind_of_selection self.now ≡ SelectionKind.Nodes) }
    {
        match self {
            Selection::Nothing => Ok(Selection::Nothing),
            Selection::Range {
                anchor,
                focus,
                format,
            } => Ok(Selection::Range {
                anchor: *anchor,
                focus: *focus,
                format: *format,
            }),
            Selection::Nodes(keys) => Ok(Selection::Nodes(Keys::of(Vec::from_slice(
                alloc,
                keys.items(),
            )?))),
            Selection::Cells {
                table,
                anchor,
                focus,
            } => Ok(Selection::Cells {
                table: *table,
                anchor: *anchor,
                focus: *focus,
            }),
        }
    }

    /// Whether both are the same selection.
    pub fn is_equal(&self, other: &Selection) -> bool
        ensures same { result ≡ same_selection self.now other.now }
        ensures told { IsTrue result ↔ (self.now ≡ other.now) }
    {
        self.has_equal_parts(other)
    }

    fn has_equal_parts(&self, other: &Selection) -> bool
        ensures { IsTrue result ↔ (self.now ≡ other.now) }
    {
        match (self, other) {
            (Selection::Nothing, Selection::Nothing) => true,
            (
                Selection::Range {
                    anchor,
                    focus,
                    format,
                },
                Selection::Range {
                    anchor: other_anchor,
                    focus: other_focus,
                    format: other_format,
                },
            ) => anchor == other_anchor && focus == other_focus && format == other_format,
            (Selection::Nodes(keys), Selection::Nodes(other_keys)) => are_equal(keys, other_keys),
            (
                Selection::Cells {
                    table,
                    anchor,
                    focus,
                },
                Selection::Cells {
                    table: other_table,
                    anchor: other_anchor,
                    focus: other_focus,
                },
            ) => table == other_table && anchor == other_anchor && focus == other_focus,
            _ => false,
        }
    }

    /// What the selection is, without its places.
    pub fn kind(&self) -> SelectionKind
        ensures { result ≡ kind_of_selection self.now }
    {
        match self {
            Selection::Nothing => SelectionKind::Nothing,
            Selection::Range { .. } => SelectionKind::Range,
            Selection::Nodes(_) => SelectionKind::Nodes,
            Selection::Cells { .. } => SelectionKind::Cells,
        }
    }

    /// The two points of a range, the anchor first.
    pub fn ends(&self) -> Option<(Point, Point)>
        ensures { result ≡ ends_of self.now }
    {
        match self {
            Selection::Range { anchor, focus, .. } => Some((*anchor, *focus)),
            _ => None,
        }
    }

    /// Whether a point of the selection is on the key.
    pub fn has_point_on(&self, key: Key) -> bool
        ensures { result ≡ has_point_on key self.now }
    {
        match self {
            Selection::Range { anchor, focus, .. } => anchor.key == key || focus.key == key,
            _ => false,
        }
    }

    /// Moves both points of a range, and leaves every other selection as it is.
    fn move_each<F: Fn(Point) -> Point>(&mut self, moved: F)
        requires { F.IsAlwaysCallable moved }
        ensures { (rule : Point → Point) → ((p q : Point) → F.post moved p q → q ≡ rule p)
            → self.new ≡ each_point rule self.old }
    {
        if let Selection::Range { anchor, focus, .. } = self {
            *anchor = moved(*anchor);
            *focus = moved(*focus);
        }
    }

    /// Moves the points where a child came to the index, counted from 0, of the parent. Those among the
    /// parent's children, at an offset above the index, go one child on.
    pub fn after_put(&mut self, parent: Key, index: u32)
        ensures { self.new ≡ each_point (put_moves parent index) self.old }
    {
        self.move_each(|point| rules::put_moved(point, parent, index));
    }

    /// Moves the points where the child at the index, counted from 0, of the parent went. Those among the
    /// parent's children, at an offset above the index, go one child back.
    pub fn after_take(&mut self, parent: Key, index: u32)
        ensures { self.new ≡ each_point (take_moves parent index) self.old }
    {
        self.move_each(|point| rules::take_moved(point, parent, index));
    }

    /// Moves the points on the key where a piece of `len` code units came in the place of those from the
    /// offset `from` to the offset `to`. A point at most at `from` stays, one at least at `to` keeps its
    /// place in the text after, and one between goes to the end of the piece.
    pub fn after_splice(&mut self, key: Key, from: u32, to: u32, len: u32)
        ensures { self.new ≡ each_point (splice_moves key from to len) self.old }
    {
        self.move_each(|point| rules::splice_moved(point, key, from, to, len));
    }

    /// Moves the points on the key where it got the text: an offset past its length becomes that, and one inside
    /// a surrogate pair of it becomes the pair's start.
    pub fn after_set(&mut self, key: Key, text: &str)
        ensures { self.new ≡ each_point (set_moves key (chars text.now)) self.old }
    {
        self.move_each(|point| rules::set_moved(point, key, text));
    }

    /// Moves the points on the key where its text from the offset `at` on became the text of the key
    /// `new`: those at an offset above `at` go with them.
    pub fn after_split(&mut self, key: Key, at: u32, new: Key)
        ensures { self.new ≡ each_point (split_moves key at new) self.old }
    {
        self.move_each(|point| rules::split_moved(point, key, at, new));
    }

    /// Moves the points on the second key where its text went after that of the first, which had `len` code
    /// units.
    #[tactic(auto, unfolding(crate::specs::Rules::join_moves))]
    pub fn after_join(&mut self, first: Key, len: u32, second: Key)
        ensures { self.new ≡ each_point (join_moves first len second) self.old }
    {
        self.move_each(|point| rules::carry_moved(point, second, first, len));
    }

    /// Moves the points on the key `from` where its children went after those of the key `to`, which had
    /// `size` of them.
    #[tactic(auto, unfolding(crate::specs::Rules::children_moves))]
    pub fn after_children(&mut self, from: Key, to: Key, size: u32)
        ensures { self.new ≡ each_point (children_moves from to size) self.old }
    {
        self.move_each(|point| rules::carry_moved(point, from, to, size));
    }

    /// Moves the points on the key where its children came in its place, which was at the index of the
    /// parent.
    #[tactic(auto, unfolding(crate::specs::Rules::unwrap_moves))]
    pub fn after_unwrap(&mut self, key: Key, parent: Key, index: u32)
        ensures { self.new ≡ each_point (unwrap_moves key parent index) self.old }
    {
        self.move_each(|point| rules::carry_moved(point, key, parent, index));
    }

    /// Moves the points on the key `old` where the key `new`, which has the text, came in its place: they keep their
    /// offsets, but one past the text's length becomes that, and one inside a surrogate pair the pair's start.
    pub fn after_replace(&mut self, old: Key, new: Key, text: &str)
        ensures { self.new ≡ each_point (replace_moves old new (chars text.now)) self.old }
    {
        self.move_each(|point| rules::replace_moved(point, old, new, text));
    }

    /// Brings points along with what a node had, after the edits that moved that elsewhere. The two points of the
    /// range `before` those edits show which were on the key `from`: such a point goes to the key `to`, where what
    /// was at 0 of the one is now at the offset `at`. Every other point stays where the edits left it.
    pub fn carry(&mut self, before: Option<(Point, Point)>, from: Key, to: Key, at: u32)
        ensures { self.new ≡ carried from (carry_moves from to at) before self.old }
    {
        if let (Some((was_anchor, was_focus)), Selection::Range { anchor, focus, .. }) = (
            before, self,
        ) {
            *anchor = rules::carried(*anchor, was_anchor, from, to, at);
            *focus = rules::carried(*focus, was_focus, from, to, at);
        }
    }

    /// Makes both points of a range the point `to`, which is a caret there. Its format stays.
    pub fn put_points(&mut self, to: Point)
        ensures { self.new ≡ each_point (λ _. to) self.old }
    {
        self.move_each(|_| to);
    }

    /// Gives a range another format, whose bits are those of a text's format.
    pub fn put_format(&mut self, new: u16)
        ensures { self.new ≡ with_format new self.old }
    {
        if let Selection::Range { format, .. } = self {
            *format = new;
        }
    }

    /// Makes every point on the key the point `to`.
    pub fn move_points(&mut self, key: Key, to: Point)
        ensures { self.new ≡ each_point (moved_to key to) self.old }
    {
        self.move_each(|point| rules::moved_to(point, key, to));
    }
}
