//! Forests, which contracts speak of: nodes in nested lists, what is looked up in them, and their primitive edits. There
//! is no code here. The functions below do nothing: their contracts are the laws on which all else rests.
#![tactic(auto)]

ghost use Rattle.lx_forest.specs.Laws.{SpotsFollow, OrderIsKept, TreesFollow, AncestorsFollow, DepthsFollow, PreorderFollows, OrderFollows, ForestsAreTold, RecordsFollow, BuildingFollows};

/// Where each key is after each primitive edit, as one equation for all keys.
pub fn spots_follow()
    ensures { SpotsFollow }
{}

/// Each primitive edit leaves a forest in order.
pub fn order_is_kept()
    ensures { OrderIsKept }
{}

/// Which keys are in whose tree after each primitive edit, and so which are attached.
pub fn trees_follow()
    ensures { TreesFollow }
{}

/// The keys above each one after each primitive edit.
pub fn ancestors_follow()
    ensures { AncestorsFollow }
{}

/// How deep each key of the root's tree is after each primitive edit.
pub fn depths_follow()
    ensures { DepthsFollow }
{}

/// The keys of the root's tree, in preorder, after each primitive edit.
pub fn preorder_follows()
    ensures { PreorderFollows }
{}

/// Which of two keys of the root's tree comes first after each primitive edit.
pub fn order_follows()
    ensures { OrderFollows }
{}

/// Two forests in order are equal where their keys stand alike, or where one map of records stands for both.
pub fn forests_are_told()
    ensures { ForestsAreTold }
{}

/// The links of each node after each primitive edit, as one equation for all keys.
pub fn records_follow()
    ensures { RecordsFollow }
{}

/// Trees come after the children of a node by primitive edits: a new node put there, then those below it, and more after.
pub fn building_follows()
    ensures { BuildingFollows }
{}
