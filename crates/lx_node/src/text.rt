use crate::counts::{Counts, count, count_piece, piece_of};
use crate::memory::NoMemory;
use std::alloc::Global;
use std::fmt::{self, Debug};
use std::marker::Model;

/// A text, as the list of its Unicode scalar values. It keeps how many there are, and how many UTF-16 code units, so that
/// both are a read.
#[derive(Drop)]
pub struct Txt {
    text: String,
    counts: Counts,
}

/// It is shown as the string that it is.
impl Debug for Txt {
    fn fmt<W: fmt::Write>(&self, f: &mut fmt::Formatter<W>) -> fmt::Result {
        self.as_str().fmt(f)
    }
}

impl Model for Txt {
    ghost use Rattle.std.specs.Prelude.{List, ℕ, string_bytes, chars};

    ghost Value = { List ℕ };

    ghost view = { λ t. chars (string_bytes t.text) };

    ghost use Rattle.lx_node.specs.Counted.{AreCounted};

    ghost invariant = { λ t. AreCounted t.counts (chars (string_bytes t.text)) };
}

impl Txt {
    ghost use Rattle.std.specs.Prelude.{◌≡◌, ◌==◌, ◌++◌, [], IfOk, chars, length, string_bytes, encode_utf8_all};
    ghost use Rattle.lx_node.specs.Strings.{capped};
    ghost use Rattle.lx_node.specs.Units.{units};

    /// The text of a string, which is taken over. It takes no memory.
    pub fn of(text: String) -> Txt
        ensures { result ≡ chars (string_bytes text) }
    {
        let counts = count(text.as_str());
        Txt { text, counts }
    }

    /// The text without characters. It takes no memory.
    pub fn empty(alloc: Global) -> Txt
        ensures { result ≡ [] }
    {
        Txt {
            text: String::new(alloc),
            counts: Counts::none(),
        }
    }

    /// The text. It takes memory for its bytes.
    pub fn new(alloc: Global, text: &str) -> Result<Txt, NoMemory>
        ensures { IfOk result (λ made. made ≡ chars text.now) }
    {
        Ok(Txt::of(String::from_str(alloc, text)?))
    }

    /// The same text, as Rust has it.
    pub fn as_str(&self) -> &str
        ensures bytes { result.now ≡ encode_utf8_all self.now }
        ensures text { chars result.now ≡ self.now }
    {
        self.text.as_str()
    }

    /// Whether there is no character in it.
    pub fn is_empty(&self) -> bool
        ensures { result ≡ (length self.now == 0) }
    {
        self.as_str().is_empty()
    }

    ghost use Rattle.std.specs.Prelude.{◌↔◌, IsTrue};
    ghost use Rattle.lx_node.specs.Same.{same_text};

    /// Whether they are equal texts.
    pub fn is_equal(&self, other: &Txt) -> bool
        ensures same { result ≡ same_text self.now other.now }
        ensures told { IsTrue result ↔ (self.now ≡ other.now) }
    {
        self.as_str() == other.as_str()
    }

    /// Whether it is this text.
    pub fn is(&self, text: &str) -> bool
        ensures { IsTrue result ↔ (self.now ≡ chars text.now) }
    {
        self.as_str() == text
    }

    /// How many characters, Unicode scalar values, it has: from 0 to 18,446,744,073,709,551,615, which also
    /// stands for any number above. It is a read: the number is kept with the text.
    pub fn characters(&self) -> u64
        ensures { result ≡ capped (length self.now) }
    {
        self.counts.characters
    }

    /// How many UTF-16 code units it has: from 0 to 18,446,744,073,709,551,615, which also stands for any number
    /// above. It is a read as well.
    pub fn units(&self) -> u64
        ensures { result ≡ capped (units self.now) }
    {
        self.counts.units
    }

    /// An equal text.
    pub fn copy(&self, alloc: Global) -> Result<Txt, NoMemory>
        ensures { IfOk result (λ made. made ≡ self.now) }
    {
        let text = String::from_str(alloc, self.as_str())?;
        Ok(Txt {
            text,
            counts: self.counts,
        })
    }

    ghost use Rattle.std.specs.Prelude.{List, ℕ, OnOk, OnErr};
    ghost use Rattle.lx_node.specs.Cuts.{Cuts, IsCut};

    /// Puts `new` in the place of a piece, in place: so many bytes come before the piece, and so many are in it. What
    /// comes after it is moved, and the piece and what is new alone are counted. It takes memory where there is no room
    /// for what is more. Where none was left the text is as it was.
    pub fn splice(&mut self, front: usize, piece: usize, new: &str) -> Result<(), NoMemory>
        requires { IsCut front piece self.old }
        ensures spliced { OnOk result ((before within behind : List ℕ) → Cuts front piece before within behind self.old → self.new ≡ before ++ chars new.now ++ behind) }
        ensures unchanged { OnErr result (self.new ≡ self.old) }
    {
        let gone = count_piece(self.text.as_str(), front, piece);
        self.text.replace_range(front..front + piece, new)?;
        self.counts = self.counts.spliced(gone, count(new));
        Ok(())
    }

    /// Whether a piece is this text: so many bytes come before the piece, and so many are in it.
    pub fn has_piece(&self, front: usize, piece: usize, text: &str) -> bool
        requires { IsCut front piece self.now }
        ensures { (before within behind : List ℕ) → Cuts front piece before within behind self.now → result ≡ same_text within (chars text.now) }
    {
        piece_of(self.as_str(), front, piece) == text
    }

    ghost use Rattle.lx_node.specs.OfKind.{is_tab_text};

    /// Whether it is the one character of a tab, U+0009.
    pub(crate) fn is_tab(&self) -> bool
        ensures { result ≡ is_tab_text self.now }
    {
        self.as_str() == "\t"
    }
}

ghost use Rattle.std.specs.Prelude.{◌≡◌, IfOk};

/// The same text, where there is one.
pub fn copy_optional(alloc: Global, text: &Option<Txt>) -> Result<Option<Txt>, NoMemory>
    ensures { IfOk result (λ made. made ≡ text.now) }
{
    match text {
        None => Ok(None),
        Some(text) => Ok(Some(text.copy(alloc)?)),
    }
}
