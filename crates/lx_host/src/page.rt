//! HTML as it is written, from the front to the back.

use crate::tag::{Inner, Name, Outer, Tag};
use lx_node::{NoMemory, Txt};
use std::alloc::Global;
use std::marker::Model;

/// The HTML that was written so far, as the list of its Unicode scalar values. After memory ran out a page
/// is only fit to be dropped.
#[derive(Drop)]
pub struct Page {
    written: String,
}

impl Model for Page {
    ghost use Rattle.std.specs.Prelude.{List, ℕ, string_bytes, chars};

    ghost Value = { List ℕ };

    ghost view = { λ p. chars (string_bytes p.written) };
}

impl Page {
    ghost use Rattle.std.specs.Prelude.{◌≡◌, ◌++◌, [], ◌∷◌, OnOk, chars};
    ghost use Rattle.lx_host.specs.Html.{text_html, escaped, attribute_html, attributes_html, start_tag, end_tag, ending_html};
    ghost use Rattle.lx_host.specs.Pieces.{inline_opening, inline_closing, opening, closing};

    /// An empty page.
    pub fn new(alloc: Global) -> Page
        ensures { result ≡ [] }
    {
        Page {
            written: String::new(alloc),
        }
    }

    /// What was written, as a text. It takes no memory.
    pub fn into_text(self) -> Txt
        ensures { result ≡ self }
    {
        Txt::of(self.written)
    }

    /// Writes this as it is.
    fn push(&mut self, html: &str) -> Result<(), NoMemory>
        ensures { OnOk result (self.new ≡ self.old ++ chars html.now) }
    {
        self.written.push_str(html)?;
        Ok(())
    }

    /// Writes a character, by its name if HTML would take it for more than itself.
    fn push_escaped(&mut self, character: char) -> Result<(), NoMemory>
        ensures { OnOk result (self.new ≡ self.old ++ escaped character) }
    {
        match character {
            '&' => self.push("&amp;"),
            '<' => self.push("&lt;"),
            '>' => self.push("&gt;"),
            '"' => self.push("&quot;"),
            _ => {
                self.written.push(character)?;
                Ok(())
            }
        }
    }

    /// Writes a text, or an attribute's value.
    pub fn push_text(&mut self, text: &str) -> Result<(), NoMemory>
        ensures { OnOk result (self.new ≡ self.old ++ text_html (chars text.now)) }
    {
        for character in text.chars() {
            self.push_escaped(character)?;
        }
        Ok(())
    }

    fn push_attribute(&mut self, name: Name, value: &Txt) -> Result<(), NoMemory>
        ensures { OnOk result (self.new ≡ self.old ++ attribute_html (name, value.now)) }
    {
        self.push(" ")?;
        self.push(name.word())?;
        self.push("=\"")?;
        self.push_text(value.as_str())?;
        self.push("\"")
    }

    fn push_attributes(&mut self, attributes: &[(Name, Txt)]) -> Result<(), NoMemory>
        ensures { OnOk result (self.new ≡ self.old ++ attributes_html attributes.now) }
    {
        for (name, value) in attributes {
            self.push_attribute(*name, value)?;
        }
        Ok(())
    }

    fn push_start(&mut self, word: &str, attributes: &[(Name, Txt)]) -> Result<(), NoMemory>
        ensures { OnOk result (self.new ≡ self.old ++ start_tag (chars word.now) attributes.now) }
    {
        self.push("<")?;
        self.push(word)?;
        self.push_attributes(attributes)?;
        self.push(">")
    }

    fn push_end(&mut self, word: &str) -> Result<(), NoMemory>
        ensures { OnOk result (self.new ≡ self.old ++ end_tag (chars word.now)) }
    {
        self.push("</")?;
        self.push(word)?;
        self.push(">")
    }

    /// Writes how a host begins. Of two elements, one in the other, the outer one has the attributes.
    #[tactic(auto, unfolding(crate::specs::Pieces::opening))]
    pub fn open(&mut self, tag: Tag, attributes: &[(Name, Txt)]) -> Result<(), NoMemory>
        ensures { OnOk result (self.new ≡ self.old ++ opening tag attributes.now) }
    {
        match tag {
            Tag::Inline(outer, inner) => self.open_inline(outer, inner, attributes),
            _ => self.push_start(tag.word(), attributes),
        }
    }

    fn open_inline(
        &mut self,
        outer: Option<Outer>,
        inner: Inner,
        attributes: &[(Name, Txt)],
    ) -> Result<(), NoMemory>
        ensures { OnOk result (self.new ≡ self.old ++ inline_opening outer inner attributes.now) }
    {
        match outer {
            None => self.push_start(inner.word(), attributes),
            Some(outer) => {
                self.push_start(outer.word(), attributes)?;
                self.push_start(inner.word(), &[])
            }
        }
    }

    /// Writes a line break, if one ends the host.
    pub fn push_ending(&mut self, ending: bool) -> Result<(), NoMemory>
        ensures { OnOk result (self.new ≡ self.old ++ ending_html ending) }
    {
        if ending { self.push("<br>") } else { Ok(()) }
    }

    /// Writes how a host ends that has an end.
    #[tactic(auto, unfolding(crate::specs::Pieces::closing))]
    pub fn close(&mut self, tag: Tag) -> Result<(), NoMemory>
        ensures { OnOk result (self.new ≡ self.old ++ closing tag) }
    {
        match tag {
            Tag::Inline(outer, inner) => self.close_inline(outer, inner),
            _ => self.push_end(tag.word()),
        }
    }

    fn close_inline(&mut self, outer: Option<Outer>, inner: Inner) -> Result<(), NoMemory>
        ensures { OnOk result (self.new ≡ self.old ++ inline_closing outer inner) }
    {
        match outer {
            None => self.push_end(inner.word()),
            Some(outer) => {
                self.push_end(inner.word())?;
                self.push_end(outer.word())
            }
        }
    }
}
