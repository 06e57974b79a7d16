//! Calls that register rules and listeners.

use crate::editing::room;
use anyhow::Result;
use lx_editor::Editor;
use lx_node::{Fields, Kind, NoMemory, Txt};
use lx_step::{
    Condition, Conditions, Listener, NewNode, Rule, SelfEdit, SelfEdits, Step, Steps, TypeRow, When,
};
use std::alloc::Global;

/// After a heading that comes last there is a paragraph.
fn paragraph_behind_headings(alloc: Global) -> Result<Rule, NoMemory> {
    let paragraph = NewNode {
        kind: Kind::Paragraph,
        fields: Fields::plain_element(alloc),
    };
    Ok(Rule {
        on: TypeRow::of(Kind::Heading(1)),
        conditions: Conditions::of(vec![in alloc; Condition::Next(None)]?),
        edits: SelfEdits::of(vec![in alloc; SelfEdit::After(paragraph)]?),
    })
}

/// Registers a rule.
pub(crate) fn rule(alloc: Global, editor: &mut Editor) -> Result<String> {
    room(editor)?;
    let rule = paragraph_behind_headings(alloc)?;
    let outcome = editor.register_rule(alloc, rule, 6000)?;
    Ok(format!(in alloc; "{outcome:?}")?)
}

/// Registers a listener that signs.
pub(crate) fn listener(alloc: Global, editor: &mut Editor) -> Result<String> {
    let listener = Listener {
        priority: 2,
        on: Txt::new(alloc, "sign")?,
        when: When {
            payload: Some(Txt::new(alloc, "us")?),
            selection: None,
            block: None,
        },
        steps: Steps::of(vec![in alloc; Step::Append(Txt::new(alloc, "The editors")?)]?),
        handled: true,
    };
    let registered = editor.register_listener(listener)?;
    Ok(format!(in alloc; "{registered:?}")?)
}
