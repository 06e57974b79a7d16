//! Which nodes a commit changed, as far as the kind of typing asks for them.

ghost use Rattle.std.specs.Prelude.{◌≡◌, ◌==◌, ◌&&◌, not, is_some, filter, IsTrue, if◌then◌else◌};
ghost use Rattle.lx_forest.specs.Lookups.{has};
ghost use Rattle.lx_history.specs.Changes.{text_fields_at, marked_elements, changed_keys};
ghost use Rattle.lx_history.specs.Few.{few_of, few_with, with_keys};
ghost use Rattle.lx_history.specs.declared.few.Few.TheVariants.{Several};

use crate::texts::text_at;
use lx_links::Links;
use lx_marks::Marks;
use lx_node::Key;

/// What is among some keys: nothing, one key alone, or more than one.
#[derive(Clone, Copy)]
pub(crate) enum Few {
    Empty,
    One(Key),
    Several,
}

impl Few {
    fn with(self, key: Key) -> Few
        ensures { result ≡ few_with key self }
    {
        match self {
            Few::Empty => Few::One(key),
            Few::One(_) | Few::Several => Few::Several,
        }
    }

    /// Whether no more keys change it.
    fn is_several(&self) -> bool
        ensures { IsTrue result → self.now ≡ Several }
    {
        match self {
            Few::Several => true,
            Few::Empty | Few::One(_) => false,
        }
    }
}

/// With the leaf, where it is a text or tab of the tree.
fn with_leaf(few: Few, links: &Links, key: Key) -> Few
    ensures { result ≡ (if is_some (text_fields_at links.now key) then few_with key few else few) }
{
    if text_at(links, key).is_some() {
        few.with(key)
    } else {
        few
    }
}

/// With the texts and tabs of the tree among these leaves. It goes no further than to the second one.
fn with_leaves(mut few: Few, links: &Links, leaves: &[Key]) -> Few
    ensures { result ≡ with_keys (filter (λ k. is_some (text_fields_at links.now k)) leaves.now) few }
{
    for key in leaves {
        few = with_leaf(few, links, *key);
        if few.is_several() {
            return few;
        }
    }
    few
}

/// With the element, where it was marked itself and is in the tree. The root isn't counted: it is marked whenever the
/// blocks below it are.
fn with_element(few: Few, links: &Links, key: Key, flag: bool) -> Few
    ensures { result ≡ (if flag && not (key == 0) && has key links.now then few_with key few else few) }
{
    if flag && key != Key::root() && links.has(key) {
        few.with(key)
    } else {
        few
    }
}

/// With the elements that were marked themselves and are in the tree, but for the root. It goes no further than to the
/// second one.
fn with_elements(mut few: Few, links: &Links, elements: &[(Key, bool)]) -> Few
    ensures { result ≡ with_keys (filter (λ k. has k links.now) (marked_elements elements.now)) few }
{
    for (key, flag) in elements {
        few = with_element(few, links, *key, *flag);
        if few.is_several() {
            return few;
        }
    }
    few
}

/// What changed in the tree, the new one.
pub(crate) fn few_changed(links: &Links, marks: &Marks) -> Few
    ensures { result ≡ few_of (changed_keys links.now marks.now) }
{
    let few = with_leaves(Few::Empty, links, marks.leaves());
    with_elements(few, links, marks.elements())
}
