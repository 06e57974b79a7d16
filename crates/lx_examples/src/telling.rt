//! What an update left, in words.

use anyhow::Result;
use lx_blocks::{Ranged, selected_lines, shown_range};
use lx_draft::{Frozen, State};
use lx_links::Links;
use lx_marks::Marks;
use lx_node::Key;
use lx_reconcile::fresh;
use lx_script::{Reply, write_reply};
use std::alloc::Global;

/// The line that says what an update left.
pub(crate) fn tell(alloc: Global, frozen: &Frozen) -> Result<Vec<u8>> {
    let mut words = String::new(alloc);
    let html = fresh(alloc, &frozen.state)?.print_html()?;
    write!(words, "{} keys", html.as_str())?;
    tell_keys(&frozen.state.links, &mut words)?;
    tell_selection(alloc, &frozen.state, &mut words)?;
    tell_lines(alloc, &frozen.state, &mut words)?;
    write!(words, " next {}", frozen.next_key)?;
    tell_leaves(&frozen.marks, &mut words)?;
    tell_elements(&frozen.marks, &mut words)?;
    Ok(words.into_bytes())
}

/// The keys of the tree, in preorder.
fn tell_keys(links: &Links, words: &mut String) -> Result<()> {
    let mut at = Some(Key::root());
    for _ in 0..links.len() {
        if let Some(key) = at {
            write!(words, " {}", key.number())?;
            at = behind(links, key);
        }
    }
    Ok(())
}

/// The key after this one in preorder.
fn behind(links: &Links, key: Key) -> Option<Key> {
    let depth = links.depth(key)?;
    let (next, _) = links.next_in_tree(key, depth)?;
    Some(next)
}

fn tell_selection(alloc: Global, state: &State, words: &mut String) -> Result<()> {
    let selection = state.selection.copy(alloc)?;
    let reply = write_reply(alloc, &Reply::Selection(selection))?;
    write!(words, " {}", str::from_utf8(reply.as_slice())?)?;
    Ok(())
}

/// The lines that a range selects, where it lies in the tree.
fn tell_lines(alloc: Global, state: &State, words: &mut String) -> Result<()> {
    match shown_range(&state.selection) {
        Some(range) => tell_lines_of(alloc, &state.links, &range, words),
        None => Ok(()),
    }
}

fn tell_lines_of(alloc: Global, links: &Links, range: &Ranged, words: &mut String) -> Result<()> {
    if !links.is_attached(range.anchor.key) || !links.is_attached(range.focus.key) {
        return Ok(());
    }
    words.push_str(" lines")?;
    for key in &selected_lines(alloc, links, range)? {
        write!(words, " {}", key.number())?;
    }
    Ok(())
}

fn tell_leaves(marks: &Marks, words: &mut String) -> Result<()> {
    words.push_str(" leaves")?;
    for key in marks.leaves() {
        write!(words, " {}", key.number())?;
    }
    Ok(())
}

/// The elements, each with `!` where it was marked itself and not only for a node below it.
fn tell_elements(marks: &Marks, words: &mut String) -> Result<()> {
    words.push_str(" elements")?;
    for i in 0..u32::MAX {
        match marks.element_at(i) {
            Some((key, flag)) => write!(words, " {}{}", key.number(), sign(flag))?,
            None => break,
        }
    }
    Ok(())
}

fn sign(flag: bool) -> &'static str {
    if flag { "!" } else { "" }
}
