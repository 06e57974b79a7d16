ghost use Rattle.std.specs.Prelude.{◌≡◌, IfOk, IfErr, OnOk, OnErr, Some, All};
ghost use Rattle.std.specs.List.{list_all};
ghost use Rattle.lx_node.specs.OfKind.{IsOfKind};
ghost use Rattle.lx_step.specs.Patches as patches;
ghost use Rattle.lx_step.specs.Patches.{patched, RefusesKind, IsInRange};

use crate::member::{Member, Members};
use lx_node::{
    Cause, ElementFields, Extra, Fault, Fields, Kind, NoMemory, TextFields, Txt, copy_optional,
};
use std::alloc::Global;

/// Members that are written into a node's fields in their order, so that of two that are alike the later
/// one stays.
#[derive(Debug, Drop)]
pub struct Patch {
    pub members: Members,
}

/// Writes a text in the place of another.
fn rewrite(alloc: Global, text: &mut Txt, new: &Txt) -> Result<(), NoMemory>
    ensures ok { OnOk result (text.new ≡ new.now) }
    ensures err { OnErr result (text.new ≡ text.old) }
{
    *text = new.copy(alloc)?;
    Ok(())
}

/// Writes a text, or none, in the place of another.
fn rewrite_optional(
    alloc: Global,
    text: &mut Option<Txt>,
    new: &Option<Txt>,
) -> Result<(), NoMemory>
    ensures ok { OnOk result (text.new ≡ new.now) }
    ensures err { OnErr result (text.new ≡ text.old) }
{
    *text = copy_optional(alloc, new)?;
    Ok(())
}

impl Member {
    /// Writes the member into what only some elements have, if that has it.
    #[tactic(auto, unfolding(crate::specs::Patches::with_extra))]
    fn write_extra(&self, alloc: Global, extra: &mut Extra) -> Result<(), NoMemory>
        ensures ok { OnOk result (extra.new ≡ patches.with_extra self.now extra.old) }
        ensures err { OnErr result (extra.new ≡ extra.old) }
    {
        match (self, extra) {
            (Member::Start(new), Extra::List { start }) => *start = *new,
            (Member::Checked(new), Extra::Item { checked, .. }) => *checked = *new,
            (Member::Rel(new), Extra::Link { rel, .. }) => {
                return rewrite_optional(alloc, rel, new);
            }
            (Member::Target(new), Extra::Link { target, .. }) => {
                return rewrite_optional(alloc, target, new);
            }
            (Member::Title(new), Extra::Link { title, .. }) => {
                return rewrite_optional(alloc, title, new);
            }
            (Member::Url(new), Extra::Link { url, .. }) => return rewrite(alloc, url, new),
            (Member::HeaderState(new), Extra::Cell { header, .. }) => *header = *new,
            (Member::ColSpan(new), Extra::Cell { col_span, .. }) => *col_span = *new,
            (Member::RowSpan(new), Extra::Cell { row_span, .. }) => *row_span = *new,
            (Member::Background(new), Extra::Cell { background, .. }) => {
                return rewrite_optional(alloc, background, new);
            }
            _ => {}
        }
        Ok(())
    }

    /// Writes the member into what an element has, if that has it.
    #[tactic(auto, unfolding(crate::specs::Patches::element_with_member))]
    fn write_element(&self, alloc: Global, fields: &mut ElementFields) -> Result<(), NoMemory>
        ensures ok { OnOk result (fields.new ≡ patches.element_with_member self.now fields.old) }
        ensures err { OnErr result (fields.new ≡ fields.old) }
    {
        match self {
            Member::Direction(new) => fields.direction = *new,
            Member::Align(new) => fields.format = *new,
            Member::Indent(new) => fields.indent = *new,
            Member::TextFormat(new) => fields.text_format = *new,
            Member::TextStyle(new) => return rewrite(alloc, &mut fields.text_style, new),
            _ => return self.write_extra(alloc, &mut fields.extra),
        }
        Ok(())
    }

    /// Writes the member into what a text has, if that has it.
    #[tactic(auto, unfolding(crate::specs::Patches::text_with_member))]
    fn write_text(&self, alloc: Global, fields: &mut TextFields) -> Result<(), NoMemory>
        ensures ok { OnOk result (fields.new ≡ patches.text_with_member self.now fields.old) }
        ensures err { OnErr result (fields.new ≡ fields.old) }
    {
        match self {
            Member::Text(new) => return rewrite(alloc, &mut fields.text, new),
            Member::Format(new) => fields.format = *new,
            Member::Style(new) => return rewrite(alloc, &mut fields.style, new),
            Member::Detail(new) => fields.detail = *new,
            Member::Mode(new) => fields.mode = *new,
            _ => {}
        }
        Ok(())
    }

    /// Writes the member into an embed's source, if it is one.
    #[tactic(auto, unfolding(crate::specs::Patches::with_source))]
    fn write_source(&self, alloc: Global, source: &mut Txt) -> Result<(), NoMemory>
        ensures ok { OnOk result (source.new ≡ patches.with_source self.now source.old) }
        ensures err { OnErr result (source.new ≡ source.old) }
    {
        match self {
            Member::Src(new) => rewrite(alloc, source, new),
            _ => Ok(()),
        }
    }

    /// Writes the member into fields, and leaves them as they are if they don't have it, or where memory for
    /// its text runs out.
    #[tactic(auto, unfolding(crate::specs::Patches::with_member))]
    pub fn write(&self, alloc: Global, fields: &mut Fields) -> Result<(), NoMemory>
        ensures ok { OnOk result (fields.new ≡ patches.with_member self.now fields.old) }
        ensures err { OnErr result (fields.new ≡ fields.old) }
    {
        match fields {
            Fields::Element(fields) => self.write_element(alloc, fields),
            Fields::Text(fields) => self.write_text(alloc, fields),
            Fields::Embed(source) => self.write_source(alloc, source),
            Fields::Bare => Ok(()),
        }
    }
}

impl Patch {
    /// An equal patch. It takes memory for the list of members and for the texts in them.
    pub fn copy(&self, alloc: Global) -> Result<Patch, NoMemory>
        ensures { IfOk result (λ made. made ≡ self.now) }
    {
        Ok(Patch {
            members: self.members.copy(alloc)?,
        })
    }

    /// Whether each member can be set on nodes of the kind.
    pub fn is_of(&self, kind: Kind) -> bool
        ensures { result ≡ list_all (patches.has kind) self.now.members }
    {
        self.members.items().iter().all(|member| member.is_of(kind))
    }

    /// Writes the members into fields. After memory ran out some of them are written.
    fn write(&self, alloc: Global, fields: &mut Fields) -> Result<(), NoMemory>
        ensures { OnOk result (fields.new ≡ patches.with_members self.now.members fields.old) }
    {
        for member in self.members.items() {
            member.write(alloc, fields)?;
        }
        Ok(())
    }

    /// The fields of a node of the kind, with the members written into them. It is refused as `WrongKind`,
    /// with the kind, where a member can't be set on nodes of the kind; a format is an alignment on elements,
    /// and a number on texts and tabs. It takes memory for the texts.
    #[tactic(auto, unfolding(crate::specs::Patches::patched), using(crate::proofs::Kept::keeps_kind))]
    pub fn onto(&self, alloc: Global, kind: Kind, fields: &Fields) -> Result<Fields, Fault>
        requires { IsOfKind kind fields.now }
        ensures ok { IfOk result (λ made. patched kind self.now.members fields.now ≡ Some made) }
        ensures err { IfErr result (RefusesKind kind (patched kind self.now.members fields.now)) }
        ensures of_kind { All IsInRange self.now.members → IfOk result (IsOfKind kind) }
    {
        if !self.is_of(kind) {
            return Err(Fault::Cause(Cause::WrongKind(kind)));
        }
        let mut made = fields.copy(alloc)?;
        match self.write(alloc, &mut made) {
            Ok(()) => Ok(made),
            Err(_) => Err(Fault::Memory),
        }
    }
}
