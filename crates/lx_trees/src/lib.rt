//! Trees whose labels have names, the first of them the root's: what is looked up in them, their primitive edits, and the
//! records that stand for them, over any label. There is no code here. The functions below do nothing: their contracts are
//! the laws of all that, which whoever has such trees takes at its own names, as forests do at keys.
#![tactic(auto)]

ghost use Rattle.std.specs.Prelude.{ℕ};
ghost use Rattle.lx_trees.specs.Laws.{SpotsFollow, OrderIsKept, TreesFollow, AncestorsFollow, DepthsFollow, PreorderFollows, OrderFollows, TreesAreTold, RecordsFollow, BuildingFollows};

/// Where each name is after each primitive edit, as one equation for all names.
pub fn spots_follow<L>()
    ensures { (name : L → ℕ) → SpotsFollow name }
{}

/// Each primitive edit leaves trees in order.
pub fn order_is_kept<L>()
    ensures { (name : L → ℕ) → OrderIsKept name }
{}

/// Which names are in whose tree after each primitive edit, and so which are attached.
pub fn trees_follow<L>()
    ensures { (name : L → ℕ) → TreesFollow name }
{}

/// The names above each one after each primitive edit.
pub fn ancestors_follow<L>()
    ensures { (name : L → ℕ) → AncestorsFollow name }
{}

/// How deep each name of the root's tree is after each primitive edit.
pub fn depths_follow<L>()
    ensures { (name : L → ℕ) → DepthsFollow name }
{}

/// The names of the root's tree, in preorder, after each primitive edit.
pub fn preorder_follows<L>()
    ensures { (name : L → ℕ) → PreorderFollows name }
{}

/// Which of two names of the root's tree comes first after each primitive edit.
pub fn order_follows<L>()
    ensures { (name : L → ℕ) → OrderFollows name }
{}

/// Trees in order are equal where their names stand alike, or where one map of records stands for both.
pub fn trees_are_told<L>()
    ensures { (name : L → ℕ) → TreesAreTold name }
{}

/// The links of each name after each primitive edit, as one equation for all names.
pub fn records_follow<L>()
    ensures { (name : L → ℕ) → RecordsFollow name }
{}

/// Trees come after the children of a name by primitive edits: a new label put there, then those below it, and more after.
pub fn building_follows<L>()
    ensures { (name : L → ℕ) → BuildingFollows name }
{}
