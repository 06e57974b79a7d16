//! How much there is in a text. Neither number is above the number of the text's bytes, so that both fit.

ghost use Rattle.std.specs.Prelude.{◌≡◌, ◌<◌, ◌^◌, ◌++◌, ◌∷◌, [], List, ℕ, chars};
ghost use Rattle.lx_node.specs.Strings.{capped};
ghost use Rattle.lx_node.specs.Units.{units};
ghost use Rattle.lx_node.specs.Counted.{AreCounted};
ghost use Rattle.lx_node.specs.Cuts.{Cuts, IsCut};

/// How many characters, Unicode scalar values, a text has, and how many UTF-16 code units.
#[derive(Clone, Copy)]
pub(crate) struct Counts {
    pub(crate) characters: u64,
    pub(crate) units: u64,
}

impl Counts {
    /// Those of the text without characters.
    pub(crate) fn none() -> Counts
        ensures { AreCounted result [] }
    {
        Counts {
            characters: 0,
            units: 0,
        }
    }

    /// Those of two texts together.
    pub(crate) fn with(self, more: Counts) -> Counts
        ensures { (front back : List ℕ) → AreCounted self front → AreCounted more back → units (front ++ back) < 2 ^ 64 → AreCounted result (front ++ back) }
    {
        Counts {
            characters: self.characters.saturating_add(more.characters),
            units: self.units.saturating_add(more.units),
        }
    }

    /// Those of a text with another piece in the place of one of its own.
    pub(crate) fn spliced(self, piece: Counts, new: Counts) -> Counts
        ensures { (front middle more back : List ℕ) → AreCounted self (front ++ middle ++ back) → AreCounted piece middle → AreCounted new more → units (front ++ more ++ back) < 2 ^ 64 → AreCounted result (front ++ more ++ back) }
    {
        Counts {
            characters: self
                .characters
                .saturating_sub(piece.characters)
                .saturating_add(new.characters),
            units: self
                .units
                .saturating_sub(piece.units)
                .saturating_add(new.units),
        }
    }
}

/// Those of one character.
fn one(character: char) -> Counts
    ensures { AreCounted result (character ∷ []) }
{
    Counts {
        characters: 1,
        units: character.len_utf16() as u64,
    }
}

/// What there is in a string, in one pass.
pub(crate) fn count(text: &str) -> Counts
    ensures { AreCounted result (chars text.now) }
{
    let mut counts = Counts::none();
    for character in text.chars() {
        counts = counts.with(one(character));
    }
    counts
}

/// What there is in a piece of a string: so many bytes come before it, and so many are in it.
pub(crate) fn count_piece(text: &str, front: usize, piece: usize) -> Counts
    requires { IsCut front piece (chars text.now) }
    ensures { (before within behind : List ℕ) → Cuts front piece before within behind (chars text.now) → AreCounted result within }
{
    count(piece_of(text, front, piece))
}

/// The piece itself.
pub(crate) fn piece_of(text: &str, front: usize, piece: usize) -> &str
    requires { IsCut front piece (chars text.now) }
    ensures { (before within behind : List ℕ) → Cuts front piece before within behind (chars text.now) → chars result.now ≡ within }
{
    let (_, rest) = text.split_at(front);
    let (piece, _) = rest.split_at(piece);
    piece
}

/// How many UTF-16 code units a string has. From 18,446,744,073,709,551,615 on it stands still.
pub fn units(text: &str) -> u64
    ensures { result ≡ capped (units (chars text.now)) }
{
    count(text).units
}
