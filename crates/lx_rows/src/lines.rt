use anyhow::{Context, Result, bail};
use std::alloc::Global;

/// What begins a line that stands for another. No line of JSON begins so.
const MARK: &[u8] = b"*** ";

/// A text of a document.
const TEXT: &[u8] = b"{\"type\":\"text\",\"text\":\"one of many texts, \"}";

/// A paragraph of a document.
const PARAGRAPH: &[u8] = b"{\"type\":\"paragraph\"}";

/// What is stored of a session: its arguments, its input, and whether its last reply alone comes out.
#[derive(Drop)]
pub(crate) struct Session {
    pub(crate) words: Vec<String>,
    pub(crate) input: Vec<u8>,
    pub(crate) tells_last: bool,
}

impl Session {
    /// No arguments, and no input.
    pub(crate) fn new(alloc: Global) -> Session {
        Session {
            words: Vec::new(alloc),
            input: Vec::new(alloc),
            tells_last: false,
        }
    }

    /// Adds a stored line: the line itself, or what it stands for.
    pub(crate) fn add_line(&mut self, alloc: Global, line: &[u8]) -> Result<()> {
        let Some(marked) = line.strip_prefix(MARK) else {
            return add(&mut self.input, line);
        };
        let text = str::from_utf8(marked)?.trim_end();
        if text == "last" {
            self.tells_last = true;
            return Ok(());
        }
        match text.strip_prefix("words ") {
            Some(words) => add_words(alloc, &mut self.words, words),
            None => add_made(&mut self.input, text),
        }
    }
}

/// Adds arguments of the command line, with spaces between them.
fn add_words(alloc: Global, words: &mut Vec<String>, text: &str) -> Result<()> {
    for word in text.split(' ') {
        words.push(String::from_str(alloc, word)?)?;
    }
    Ok(())
}

fn add(session: &mut Vec<u8>, bytes: &[u8]) -> Result<()> {
    session.extend_from_slice(bytes)?;
    Ok(())
}

/// Adds the line for which these words stand.
fn add_made(session: &mut Vec<u8>, words: &str) -> Result<()> {
    match words.split_once(' ') {
        Some(("steps", rest)) => {
            let (count, step) = rest.split_once(' ').context("no step")?;
            add_steps(session, count.parse()?, step)
        }
        Some(("times", rest)) => {
            let (count, line) = rest.split_once(' ').context("no line")?;
            add_times(session, count.parse()?, line)
        }
        Some(("keys", count)) => add_keys(session, count.parse()?),
        Some(("letters", count)) => add_letters(session, count.parse()?),
        Some(("deep", count)) => add_deep(session, count.parse()?),
        Some(("wide", count)) => add_wide(session, count.parse()?),
        Some(("blocks", count)) => add_blocks(session, count.parse()?),
        Some(("texts", count)) => add_texts(session, count.parse()?),
        Some(("long", count)) => add_long(session, count.parse()?),
        Some(("unended", line)) => add(session, line.as_bytes()),
        _ => bail!("a line that stands for no other: {words}"),
    }
}

/// Adds the line so many times.
fn add_times(session: &mut Vec<u8>, count: u32, line: &str) -> Result<()> {
    for _ in 0..count {
        add(session, line.as_bytes())?;
        add(session, b"\n")?;
    }
    Ok(())
}

/// Adds an update with the step so many times.
fn add_steps(session: &mut Vec<u8>, count: u32, step: &str) -> Result<()> {
    add(session, b"{\"update\":[")?;
    for index in 0..count {
        if 0 < index {
            add(session, b",")?;
        }
        add(session, step.as_bytes())?;
    }
    add(session, b"]}\n")
}

/// Adds so many key presses: letters, and now and then a space, a deletion, a break, or bold on or off.
fn add_keys(session: &mut Vec<u8>, count: u32) -> Result<()> {
    for index in 0..count {
        add(session, key_press(index))?;
        add(session, b"\n")?;
    }
    Ok(())
}

/// The line of a key press.
fn key_press(index: u32) -> &'static [u8] {
    if index % 97 == 96 {
        b"{\"dispatch\":\"format-text\",\"payload\":\"bold\"}"
    } else if index % 50 == 49 {
        b"{\"dispatch\":\"insert-paragraph\"}"
    } else if index % 11 == 10 {
        b"{\"dispatch\":\"delete-character\",\"payload\":\"back\"}"
    } else if index % 5 == 4 {
        b"{\"dispatch\":\"insert-text\",\"payload\":\" \"}"
    } else {
        b"{\"dispatch\":\"insert-text\",\"payload\":\"e\"}"
    }
}

/// Adds an update that appends a text of so many letters.
fn add_letters(session: &mut Vec<u8>, count: u32) -> Result<()> {
    add(session, b"{\"update\":[{\"append\":\"")?;
    add_repeated(session, count, b"x")?;
    add(session, b"\"}]}\n")
}

/// Adds a text so many times.
fn add_repeated(session: &mut Vec<u8>, count: u32, text: &[u8]) -> Result<()> {
    for _ in 0..count {
        add(session, text)?;
    }
    Ok(())
}

/// Adds a load of so many lists and items, each below the one before it.
fn add_deep(session: &mut Vec<u8>, count: u32) -> Result<()> {
    add(session, b"{\"load\":{\"root\":{\"children\":[")?;
    for index in 0..count {
        if index % 2 == 0 {
            add(session, b"{\"type\":\"list\",\"children\":[")?;
        } else {
            add(session, b"{\"type\":\"listitem\",\"children\":[")?;
        }
    }
    add_repeated(session, count, b"]}")?;
    add(session, b"]}}}\n")
}

/// Adds a load of so many paragraphs.
fn add_wide(session: &mut Vec<u8>, count: u32) -> Result<()> {
    add(session, b"{\"load\":{\"root\":{\"children\":[")?;
    add_list(session, count, PARAGRAPH)?;
    add(session, b"]}}}\n")
}

/// Adds a load of so many quotes.
fn add_blocks(session: &mut Vec<u8>, count: u32) -> Result<()> {
    add(session, b"{\"load\":{\"root\":{\"children\":[")?;
    for index in 0..count {
        if 0 < index {
            add(session, b",")?;
        }
        add_block(session)?;
    }
    add(session, b"]}}}\n")
}

/// Adds a quote of 99 paragraphs.
fn add_block(session: &mut Vec<u8>) -> Result<()> {
    add(session, b"{\"type\":\"quote\",\"children\":[")?;
    add_list(session, 99, PARAGRAPH)?;
    add(session, b"]}")
}

/// Adds a load of a paragraph of so many texts.
fn add_texts(session: &mut Vec<u8>, count: u32) -> Result<()> {
    add(
        session,
        b"{\"load\":{\"root\":{\"children\":[{\"type\":\"paragraph\",\"children\":[",
    )?;
    add_list(session, count, TEXT)?;
    add(session, b"]}]}}}\n")
}

/// Adds a text so many times, with commas between.
fn add_list(session: &mut Vec<u8>, count: u32, text: &[u8]) -> Result<()> {
    for index in 0..count {
        if 0 < index {
            add(session, b",")?;
        }
        add(session, text)?;
    }
    Ok(())
}

/// Adds a load of one text of so many letters.
fn add_long(session: &mut Vec<u8>, count: u32) -> Result<()> {
    add(
        session,
        b"{\"load\":{\"root\":{\"children\":[{\"type\":\"paragraph\",\"children\":[{\"type\":\"text\",\"text\":\"",
    )?;
    add_repeated(session, count, b"x")?;
    add(session, b"\"}]}]}}}\n")
}
