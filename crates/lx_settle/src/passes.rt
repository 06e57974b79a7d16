ghost use Rattle.std.specs.Prelude.{◌≡◌, ◌≤◌, ◌&&◌, true, length, IfOk, IfErr, is_some, option_copied};
ghost use Rattle.lx_marks.specs.Marks.{flag_in};
ghost use Rattle.lx_forest.specs.Lookups.{is_attached};
ghost use Rattle.lx_forest.specs.Views.{view_of};
ghost use Rattle.lx_edit.specs.InTurn.{in_turn};
ghost use Rattle.lx_rules.specs.Idle.{looks_within};
ghost use Rattle.lx_links.specs.Stands.{Sound};
ghost use Rattle.lx_draft.specs.Working.{IsWorking};
ghost use Rattle.lx_edit.specs.Standing.{Does};
ghost use Rattle.lx_rules.specs.Answers.{asked, AreAnswers};
ghost use Rattle.lx_settle.specs.Acting as acting;
ghost use Rattle.lx_settle.specs.Acting.{all_asked};
ghost use Rattle.lx_settle.specs.Exhausted.{IsExhausted};
ghost use Rattle.lx_settle.specs.Passes as passes;

use crate::acting::act;
use crate::glances::{glance_at, text_at};
use lx_draft::Draft;
use lx_edit::join_around;
use lx_node::{Fault, Key, NoMemory, TextFields};
use lx_rules::{Glance, Transform, idle_at_glance, idle_within};
use lx_step::SelfEdit;
use std::alloc::Global;

/// Whether an edit has something to do at the node of a key. No view is made where a glance tells.
#[tactic(auto, unfolding(lx_rules::specs::Idle::idle_at))]
fn has_work(draft: &Draft, edit: &SelfEdit, key: Key) -> Result<bool, NoMemory>
    ensures work { IfOk result (λ work. work ≡ (is_attached draft.now.forest key && acting.has_work_at (view_of draft.now.forest key) edit.now)) }
    ensures sound { Sound draft.now.forest }
    ensures holds { IsWorking draft.now }
{
    if !draft.links().is_attached(key) {
        return Ok(false);
    }
    let Some(glance) = glance_at(draft.links(), key) else {
        return Ok(false);
    };
    match idle_at_glance(&glance, edit) {
        Some(idle) => Ok(!idle),
        None => has_work_within(draft, edit, key),
    }
}

/// Whether an edit that looks at a node's fields or its children has something to do there.
#[tactic(auto, unfolding(lx_rules::specs::Idle::idle_at))]
fn has_work_within(draft: &Draft, edit: &SelfEdit, key: Key) -> Result<bool, NoMemory>
    requires { looks_within edit.now ≡ true }
    ensures { IfOk result (λ work. work ≡ acting.has_work_at (view_of draft.now.forest key) edit.now) }
{
    match draft.links().view(key)? {
        Some(view) => Ok(!idle_within(&view, edit)),
        None => Ok(false),
    }
}

/// An edit, passed over where it is idle at its present view, and where the node isn't in the root's
/// tree any more.
#[tactic(auto, unfolding(crate::specs::Acting::edit_step), using(crate::proofs::Told::act_told))]
fn run_edit(alloc: Global, draft: &mut Draft, edit: &SelfEdit, key: Key) -> Result<(), Fault>
    ensures does { Does (acting.edit_step key edit.now draft.old) draft.new result }
    ensures refused { IfErr result IsExhausted }
{
    if has_work(draft, edit, key)? {
        act(alloc, draft, edit, key)
    } else {
        Ok(())
    }
}

/// Edits of a node, in turn.
#[tactic(auto, unfolding(lx_edit::specs::InTurn::in_turn))]
fn run_edits(alloc: Global, draft: &mut Draft, edits: &[SelfEdit], key: Key) -> Result<(), Fault>
    ensures does { Does (in_turn (acting.edit_step key) edits.now draft.old) draft.new result }
    ensures refused { IfErr result IsExhausted }
{
    for edit in edits {
        run_edit(alloc, draft, edit, key)?;
    }
    Ok(())
}

/// What a rule answers at a node that is seen so at a glance, where it is of the rule's types.
fn answer<T: Transform>(
    alloc: Global,
    rule: &T,
    glance: &Glance,
    own: Option<&TextFields>,
) -> Result<Vec<SelfEdit>, NoMemory>
    ensures { IfOk result (λ edits. AreAnswers (asked (T.rows rule.now) (T.answers rule.now)) glance.now (option_copied own.entry) edits.items) }
{
    if rule.on().has(glance.kind) {
        rule.acts(alloc, glance, own)
    } else {
        Ok(Vec::new(alloc))
    }
}

/// What a rule answers at the node of a key.
fn answered<T: Transform>(
    alloc: Global,
    draft: &Draft,
    rule: &T,
    key: Key,
) -> Result<Vec<SelfEdit>, NoMemory>
    ensures { IfOk result (λ edits. edits.items ≡ acting.answered_at (view_of draft.now.forest key) (asked (T.rows rule.now) (T.answers rule.now))) }
{
    let links = draft.links();
    match glance_at(links, key) {
        Some(glance) => answer(alloc, rule, &glance, text_at(links, key)),
        None => Ok(Vec::new(alloc)),
    }
}

/// A rule at a node.
#[tactic(auto, unfolding(crate::specs::Acting::rule_step))]
fn run_rule<T: Transform>(alloc: Global, draft: &mut Draft, rule: &T, key: Key) -> Result<(), Fault>
    ensures does { Does (acting.rule_step key (asked (T.rows rule.now) (T.answers rule.now)) draft.old) draft.new result }
    ensures refused { IfErr result IsExhausted }
{
    let edits = answered(alloc, draft, rule, key)?;
    run_edits(alloc, draft, edits.as_slice(), key)
}

/// The rules of a list from the first one on that is of the type of the node of a key.
#[tactic(auto, using(crate::proofs::Quiet::quiet_passed))]
fn from_due<'a, T: Transform>(draft: &Draft, rules: &'a [T], key: Key) -> &'a [T]
    ensures same { in_turn (acting.rule_step key) (all_asked T.rows T.answers result.now) draft.now ≡ in_turn (acting.rule_step key) (all_asked T.rows T.answers rules.now) draft.now }
    ensures fewer { length result.now ≤ length rules.now }
{
    let Some(kind) = draft.links().kind(key) else {
        return rules;
    };
    let mut rest = rules;
    while let Some((rule, later)) = rest.split_first() {
        if rule.on().has(kind) {
            return rest;
        }
        rest = later;
    }
    rest
}

/// The rules at a node, in their order.
#[tactic(auto, unfolding(crate::specs::Acting::rules_step, lx_edit::specs::InTurn::in_turn))]
pub(crate) fn run_rules<T: Transform>(
    alloc: Global,
    draft: &mut Draft,
    rules: &[T],
    key: Key,
) -> Result<(), Fault>
    ensures does { Does (acting.rules_step (all_asked T.rows T.answers rules.now) key draft.old) draft.new result }
    ensures refused { IfErr result IsExhausted }
{
    let mut rest = from_due(draft, rules, key);
    while let Some((rule, later)) = rest.split_first() {
        run_rule(alloc, draft, rule, key)?;
        rest = from_due(draft, later, key);
    }
    Ok(())
}

/// A leaf in its turn, if it is in the root's tree: it is joined with what is around it, and then the rules.
#[tactic(auto, unfolding(crate::specs::Passes::leaf_step), using(crate::proofs::Told::join_told))]
fn take_leaf<T: Transform>(
    alloc: Global,
    draft: &mut Draft,
    rules: &[T],
    key: Key,
) -> Result<(), Fault>
    ensures does { Does (passes.leaf_step (all_asked T.rows T.answers rules.now) key draft.old) draft.new result }
    ensures refused { IfErr result IsExhausted }
{
    if draft.links().is_attached(key) {
        join_around(alloc, draft, key)?;
        run_rules(alloc, draft, rules, key)
    } else {
        Ok(())
    }
}

/// Leaves in their order.
#[tactic(auto, unfolding(crate::specs::Passes::leaf_pass, lx_edit::specs::InTurn::in_turn))]
pub(crate) fn leaf_pass<T: Transform>(
    alloc: Global,
    draft: &mut Draft,
    rules: &[T],
    keys: &[Key],
) -> Result<(), Fault>
    ensures does { Does (passes.leaf_pass (all_asked T.rows T.answers rules.now) keys.now draft.old) draft.new result }
    ensures refused { IfErr result IsExhausted }
{
    for key in keys {
        take_leaf(alloc, draft, rules, *key)?;
    }
    Ok(())
}

/// An element in its turn: the rules, where its flag is true and it isn't the root, whose turn comes last.
#[tactic(auto, unfolding(crate::specs::Passes::element_step))]
fn take_element<T: Transform>(
    alloc: Global,
    draft: &mut Draft,
    rules: &[T],
    element: &(Key, bool),
) -> Result<(), Fault>
    ensures does { Does (passes.element_step (all_asked T.rows T.answers rules.now) element.now draft.old) draft.new result }
    ensures refused { IfErr result IsExhausted }
{
    let (node, flag) = *element;
    if flag && node != Key::root() {
        run_rules(alloc, draft, rules, node)
    } else {
        Ok(())
    }
}

/// Elements in their order, without the root.
#[tactic(auto, unfolding(lx_edit::specs::InTurn::in_turn))]
fn take_elements<T: Transform>(
    alloc: Global,
    draft: &mut Draft,
    rules: &[T],
    elements: &[(Key, bool)],
) -> Result<(), Fault>
    ensures does { Does (in_turn (passes.element_step (all_asked T.rows T.answers rules.now)) elements.now draft.old) draft.new result }
    ensures refused { IfErr result IsExhausted }
{
    for element in elements {
        take_element(alloc, draft, rules, element)?;
    }
    Ok(())
}

/// Whether the root is among elements.
fn has_root(elements: &[(Key, bool)]) -> bool
    ensures { result ≡ is_some (flag_in elements.now 0) }
{
    for element in elements {
        if element.0 == Key::root() {
            return true;
        }
    }
    false
}

/// The root in its turn, if it is among the elements at all.
#[tactic(auto, unfolding(crate::specs::Passes::root_step))]
fn take_root<T: Transform>(
    alloc: Global,
    draft: &mut Draft,
    rules: &[T],
    elements: &[(Key, bool)],
) -> Result<(), Fault>
    ensures does { Does (passes.root_step (all_asked T.rows T.answers rules.now) elements.now draft.old) draft.new result }
    ensures refused { IfErr result IsExhausted }
{
    if has_root(elements) {
        run_rules(alloc, draft, rules, Key::root())
    } else {
        Ok(())
    }
}

/// The rules on elements whose flag is true, in their order, and on the root last if it is there at all.
#[tactic(auto, using(crate::proofs::Elements::element_turns))]
pub(crate) fn element_pass<T: Transform>(
    alloc: Global,
    draft: &mut Draft,
    rules: &[T],
    elements: &[(Key, bool)],
) -> Result<(), Fault>
    ensures does { Does (passes.element_pass (all_asked T.rows T.answers rules.now) elements.now draft.old) draft.new result }
    ensures refused { IfErr result IsExhausted }
{
    take_elements(alloc, draft, rules, elements)?;
    take_root(alloc, draft, rules, elements)
}
