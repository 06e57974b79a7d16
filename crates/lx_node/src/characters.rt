ghost use Rattle.std.specs.Prelude.{◌≡◌};
ghost use Rattle.lx_node.specs.Strings as strings;

use crate::fields::{ElementFields, Extra, Fields, TextFields};
use crate::text::Txt;

/// How many characters a text has, where there is one.
#[tactic(auto, using(crate::proofs::Strings::capped_zero), unfolding(crate::specs::Strings::characters_of_optional))]
fn optional_characters(text: &Option<Txt>) -> u64
    ensures { result ≡ strings.capped (strings.characters_of_optional text.now) }
{
    match text {
        Some(text) => text.characters(),
        None => 0,
    }
}

impl TextFields {
    /// How many characters its text and its style have.
    #[tactic(auto, using(crate::proofs::Strings::capped_add), unfolding(crate::specs::Strings::characters_of_text))]
    fn characters(&self) -> u64
        ensures { result ≡ strings.capped (strings.characters_of_text self.now) }
    {
        self.text
            .characters()
            .saturating_add(self.style.characters())
    }
}

impl Extra {
    /// How many characters its strings have.
    #[tactic(auto, using(crate::proofs::Strings::capped_zero, crate::proofs::Strings::capped_add), unfolding(crate::specs::Strings::characters_of_extra))]
    fn characters(&self) -> u64
        ensures { result ≡ strings.capped (strings.characters_of_extra self.now) }
    {
        match self {
            Extra::Link {
                rel,
                target,
                title,
                url,
            } => optional_characters(rel)
                .saturating_add(optional_characters(target))
                .saturating_add(optional_characters(title))
                .saturating_add(url.characters()),
            Extra::Cell { background, .. } => optional_characters(background),
            _ => 0,
        }
    }
}

impl ElementFields {
    /// How many characters its strings have.
    #[tactic(auto, using(crate::proofs::Strings::capped_add), unfolding(crate::specs::Strings::characters_of_element))]
    fn characters(&self) -> u64
        ensures { result ≡ strings.capped (strings.characters_of_element self.now) }
    {
        self.text_style
            .characters()
            .saturating_add(self.extra.characters())
    }
}

impl Fields {
    /// How many characters, Unicode scalar values, all strings of the fields have: a text and its style; an
    /// element's text style, with a link's rel, target, title and url, or a cell's background; an embed's
    /// source. From 0 to 18,446,744,073,709,551,615, which also stands for any number above.
    #[tactic(auto, using(crate::proofs::Strings::capped_zero), unfolding(crate::specs::Strings::characters_of))]
    pub fn characters(&self) -> u64
        ensures { result ≡ strings.capped (strings.characters_of self.now) }
    {
        match self {
            Fields::Element(fields) => fields.characters(),
            Fields::Text(fields) => fields.characters(),
            Fields::Embed(source) => source.characters(),
            Fields::Bare => 0,
        }
    }
}
