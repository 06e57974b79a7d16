ghost use Rattle.lx_node.specs.Limits.{last_u32};

use crate::change::covering;
use crate::outcome::{Outcome, Verdict};
use crate::pending::{Pending, forget};
use crate::reconciling::follow;
use crate::recording::Recording;
use crate::registering::built_in_rules;
use crate::saying::{Outcomes, Saying};
use lx_bus::Bus;
use lx_clip::slice;
use lx_draft::{Frozen, State};
use lx_history::History;
use lx_host::HostTree;
use lx_marks::Marks;
use lx_node::{NoMemory, Txt};
use lx_reconcile::Batch;
use lx_rules::AnyRule;
use lx_script::{Reply, write_reply, write_slice, write_state};
use lx_step::{Shown, Step, Tags};
use std::alloc::Global;
use std::marker::Model;

/// An editor: the state that is committed, the next key, what is pending, the number of commits, the view, which always
/// shows the state's tree, the operations of the last commit, the history, the time of the last line, the rules and
/// listeners that are registered, and whether its replies to commits include the view.
pub struct Editor {
    pub(crate) state: State,
    pub(crate) next_key: u32,
    /// Updates that wait for a line which commits them, if there are any.
    pub(crate) pending: Option<Box<Pending>>,
    pub(crate) commits: u32,
    pub(crate) view: HostTree,
    pub(crate) last: Option<Batch>,
    pub(crate) history: History,
    /// In milliseconds.
    pub(crate) moment: u64,
    pub(crate) rules: Vec<AnyRule>,
    pub(crate) bus: Bus,
    pub(crate) tells_view: bool,
}

// Written out, so that who drops an editor calls this: how each part of one is dropped is proved here alone.
impl Drop for Editor {
    fn drop(self) {
        let Editor {
            state,
            next_key: _,
            pending,
            commits: _,
            view,
            last,
            history,
            moment: _,
            rules,
            bus,
            tells_view: _,
        } = self;
        drop(state);
        drop(pending);
        drop(view);
        drop(last);
        drop(history);
        drop(rules);
        drop(bus);
    }
}

impl Model for Editor {
    ghost use Rattle.std.specs.Coded.{codes};
    ghost use Rattle.lx_trees.specs.Trees.{trees_code};
    ghost use Rattle.lx_step.specs.contracts.step.Steps as steps;
    ghost use Rattle.lx_editor.specs.Editor.{Editor};

    ghost Value = { Editor };

    ghost coded = { Prim.hlevel (codes, trees_code, steps.the_row.coded) };

    ghost use Rattle.lx_editor.specs.Standing.{editor_of, IsWhole};

    ghost view = { editor_of };

    ghost invariant = { IsWhole };
}

impl Editor {
    ghost use Rattle.std.specs.Prelude.{◌≡◌, ◌↔◌, ◌+◌, ◌<◌, ◌≤◌, None, All, IfOk, OnOk, OnErr};
    ghost use Rattle.std.specs.Option.{option_copied};
    ghost use Rattle.lx_host.specs.Html.{html_of};
    ghost use Rattle.lx_render.specs.Render.{render};
    ghost use Rattle.lx_step.specs.Sound.{IsSound};
    ghost use Rattle.lx_reconcile.specs.Allowed.{Shows};
    ghost use Rattle.lx_editor.specs.declared.outcome.Outcome.{Outcome as OutcomeOf};
    ghost use Rattle.lx_editor.specs.Changes.{IsUncommitted};
    ghost use Rattle.lx_editor.specs.Editor.{new_editor, Editor as EditorOf};
    ghost use Rattle.lx_editor.specs.Standing.{IsState};
    ghost use Rattle.lx_editor.specs.Gathering.{recording, with_nothing_pending};
    ghost use Rattle.lx_editor.specs.Updated.{IsUpdatedBy, IsCommitted, what_is_left};
    ghost use Rattle.lx_editor.specs.Judged.{MayCommit, MayConclude, IsConcluded, IsCoveredBy, covering};

    /// A new editor: the root alone, nothing selected, no commit, no rule but the two that are built in, no listener,
    /// nothing recorded, and a view that shows it. Its replies to commits include the view, as HTML, where `tells_view`
    /// is true. Typing goes on in one entry of the history while less than `delay` milliseconds lie between two
    /// commits.
    pub fn new(alloc: Global, tells_view: bool, delay: u64) -> Result<Editor, NoMemory>
        ensures { IfOk result (λ made. made ≡ new_editor tells_view delay) }
    {
        Ok(Editor {
            state: State::new(alloc)?,
            next_key: 1,
            commits: 0,
            view: HostTree::new(alloc)?,
            last: None,
            history: History::new(alloc, delay)?,
            moment: 0,
            rules: built_in_rules(alloc)?,
            bus: Bus::new(alloc)?,
            tells_view,
            // It comes last, so that no call that fails has one to drop.
            pending: None,
        })
    }

    /// The state that is committed: one tree, in which the selection lies. Its texts are joined: no simple text is
    /// empty, and no two that are beside each other have one format and style. Its items are numbered: each has the
    /// number with which its list begins, and one more for each item before it whose first child isn't a list.
    pub fn state(&self) -> &State
        ensures tree { result.now.links ≡ self.now.tree }
        ensures selection { result.now.selection ≡ self.now.selection }
        ensures state { IsState self.now.tree self.now.selection self.now.next_key }
    {
        &self.state
    }

    /// The tree of hosts that shows the committed tree. It has no unplaced host.
    pub fn hosts(&self) -> &HostTree
        ensures view { result.now.tree ≡ self.now.view }
        ensures shows { Shows self.now.view self.now.tree }
    {
        &self.view
    }

    /// The view as HTML: that of the committed tree's rendering.
    pub fn view(&self) -> Result<Txt, NoMemory>
        ensures html { IfOk result (λ html. html ≡ html_of (render self.now.tree)) }
    {
        self.view.print_html()
    }

    /// The number of the last commit, and 0 before the first. Each call that can commit needs it to be below
    /// 4,294,967,295.
    pub fn commits(&self) -> u32
        ensures { result ≡ self.now.commits }
    {
        self.commits
    }

    /// The operations of the last commit, and by how many reads they were found. There are none exactly where
    /// nothing was committed yet.
    pub fn last_batch(&self) -> Option<&Batch>
        ensures last { option_copied result ≡ self.now.last }
        ensures none { (self.now.last ≡ None) ↔ (self.now.commits ≡ 0) }
    {
        self.last.as_ref()
    }

    /// Runs steps one after another, lets what they leave come to rest under the rules, and commits it. What they dispatch
    /// is offered to the listeners, and what is queued runs after all of them. A refused update changes nothing: its
    /// outcome gives the step that was refused, or none where what was queued was refused, where the rules didn't come
    /// to rest, or where what is left is beyond a limit or has lost its selection. Steps that mark nothing and leave the
    /// selection equal commit nothing. A commit is recorded in the history as the tags and the time say, which is in
    /// milliseconds. Updates that wait are taken in: the steps run after theirs, and what all of them leave is
    /// committed, or dropped. Where memory runs out nothing is pending, and the editor is as it was in all else.
    pub fn update(
        &mut self,
        alloc: Global,
        steps: &[Step],
        tags: Tags,
        moment: u64,
    ) -> Result<Outcome, NoMemory>
        requires sound { All IsSound steps.now }
        requires room { self.old.commits < last_u32 }
        ensures updated { IfOk result (λ outcome. IsUpdatedBy self.old steps.now (recording tags moment) outcome self.new) }
        ensures commits { self.new.commits ≤ self.old.commits + 1 }
        ensures unchanged { OnErr result (self.new ≡ with_nothing_pending self.old) }
    {
        let mut outcomes = Outcomes;
        self.update_saying(alloc, steps, Recording { tags, moment }, &mut outcomes)
    }

    /// The same, said by a sayer.
    pub(crate) fn update_saying<S: Saying>(
        &mut self,
        alloc: Global,
        steps: &[Step],
        how: Recording,
        sayer: &mut S,
    ) -> Result<S::Said, NoMemory>
        requires sound { All IsSound steps.now }
        requires room { self.old.commits < last_u32 }
        ensures updated { IfOk result (λ said. (outcome : OutcomeOf) × IsUpdatedBy self.old steps.now how outcome self.new × S.tells sayer.old None self.old outcome self.new said sayer.new) }
        ensures commits { self.new.commits ≤ self.old.commits + 1 }
        ensures unchanged { OnErr result (self.new ≡ with_nothing_pending self.old) }
    {
        let all = self.recording(how);
        let draft = self.take_draft(alloc)?;
        let verdict = self.judge(alloc, draft, steps)?;
        self.conclude(alloc, verdict, None, all, sayer)
    }

    /// Commits what is to be committed, once that is said.
    pub(crate) fn conclude<S: Saying>(
        &mut self,
        alloc: Global,
        verdict: Verdict,
        handled: Option<bool>,
        how: Recording,
        sayer: &mut S,
    ) -> Result<S::Said, NoMemory>
        requires room { self.old.commits < last_u32 }
        requires may { MayConclude self.old verdict }
        ensures concluded { IfOk result (λ said. (outcome : OutcomeOf) × IsConcluded self.old how verdict outcome self.new × ((old : EditorOf) → IsUncommitted old self.old → S.tells sayer.old handled old outcome self.new said sayer.new)) }
        ensures commits { self.new.commits ≤ self.old.commits + 1 }
        ensures unchanged { OnErr result (self.new ≡ self.old) }
    {
        match verdict {
            Verdict::Commit {
                frozen,
                batch,
                shown,
            } => {
                let left = frozen.as_ref();
                let marks = covering(left, &shown);
                let said = sayer.say_commit(alloc, self, &left.state, &batch, marks, handled)?;
                self.commit(alloc, frozen, batch, shown, how)?;
                Ok(said)
            }
            Verdict::Turned {
                turn,
                state,
                batch,
                marks,
            } => {
                let next = state.as_ref();
                let said = sayer.say_commit(alloc, self, next, &batch, marks.as_ref(), handled)?;
                self.commit_entry(alloc, turn, state, batch, how.moment)?;
                Ok(said)
            }
            Verdict::Refused { cause, step } => sayer.say_refused(alloc, cause, step),
            Verdict::Idle => sayer.say_idle(alloc, handled),
        }
    }

    /// The number of the next commit.
    pub(crate) fn next_commit(&self) -> u32
        requires { self.now.commits < last_u32 }
        ensures { result ≡ self.now.commits + 1 }
    {
        self.commits + 1
    }

    /// Commits what is left, with operations for the view, and records it. The marks that cover the trees before and after are
    /// those that are shown, where there are such, and else those of what is frozen. All memory that can be
    /// wanting is taken first. Without it the editor is as it was.
    pub(crate) fn commit(
        &mut self,
        alloc: Global,
        frozen: Box<Frozen>,
        batch: Batch,
        shown: Option<Box<Marks>>,
        how: Recording,
    ) -> Result<(), NoMemory>
        requires room { self.old.commits < last_u32 }
        requires may { MayCommit self.old (what_is_left self.old.rules frozen.value) batch }
        requires covered { IsCoveredBy self.old frozen.value.state.links (covering frozen.value shown) }
        ensures committed { OnOk result (IsCommitted self.old how (what_is_left self.old.rules frozen.value) (self.old.commits + 1) batch.ops self.new) }
        ensures commits { OnOk result (self.new.commits ≡ self.old.commits + 1) }
        ensures unchanged { OnErr result (self.new ≡ self.old) }
    {
        let frozen = Box::into_inner(frozen);
        let ops = batch.copy_ops(alloc)?;
        let entry = frozen.state.copy(alloc)?;
        self.history.prepare()?;
        follow(&mut self.view, ops)?;
        let marks = covering(&frozen, &shown);
        self.history
            .stray(&self.state.links, &frozen.state.links, marks);
        self.history
            .note_strayed(&self.state, entry, &frozen.marks, how.tags, how.moment);
        self.state = frozen.state;
        self.next_key = frozen.next_key;
        forget(&mut self.pending);
        self.commits += 1;
        self.last = Some(batch);
        Ok(())
    }

    ghost use Rattle.lx_step.specs.declared.line.Shown.TheVariants as shown;
    ghost use Rattle.lx_editor.specs.Follows.{shown_text};

    /// Shows what is committed, as the bytes of a reply: the document, the HTML of the view, or the selection; how many entries
    /// the history has; or the slice of what is selected, if there is one.
    pub fn show(&self, alloc: Global, shown: Shown) -> Result<Vec<u8>, NoMemory>
        ensures { IfOk result (λ reply. reply.items ≡ shown_text shown self.now) }
    {
        match shown {
            Shown::State => self.show_state(alloc),
            Shown::View => self.show_view(alloc),
            Shown::Selection => {
                let selection = self.state.selection.copy(alloc)?;
                write_reply(alloc, &Reply::Selection(selection))
            }
            Shown::History => {
                let (undo, redo) = self.depths();
                write_reply(alloc, &Reply::History { redo, undo })
            }
            Shown::Slice => self.show_slice(alloc),
        }
    }

    /// Shows the document.
    fn show_state(&self, alloc: Global) -> Result<Vec<u8>, NoMemory>
        ensures { IfOk result (λ reply. reply.items ≡ shown_text shown.State self.now) }
    {
        let document = self.export(alloc)?;
        write_state(alloc, document)
    }

    /// Shows what of the document the selection covers.
    fn show_slice(&self, alloc: Global) -> Result<Vec<u8>, NoMemory>
        ensures { IfOk result (λ reply. reply.items ≡ shown_text shown.Slice self.now) }
    {
        let slice = slice(alloc, &self.state)?;
        write_slice(alloc, slice)
    }

    /// Shows the view.
    fn show_view(&self, alloc: Global) -> Result<Vec<u8>, NoMemory>
        ensures { IfOk result (λ reply. reply.items ≡ shown_text shown.View self.now) }
    {
        let html = self.view()?;
        write_reply(alloc, &Reply::View(html))
    }
}
