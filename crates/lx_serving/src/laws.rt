ghost use Rattle.std.specs.Prelude.{◌≡◌, ℕ, List, [], ◌∷◌};
ghost use Rattle.lx_serving.specs.declared.setup.Beside.TheVariants as beside;
ghost use Rattle.lx_serving.specs.declared.setup.Setup.{Setup};
ghost use Rattle.lx_serving.specs.Served.{Served, FollowsInTo, new_served};
ghost use Rattle.lx_serving.specs.Shown.{LeadsThrough, ViewsShow};

use lx_hub::views_lag;

/// Each view is the view that the editor had after the commit that it has reached, ids included, and shows the tree of
/// that commit, for every list of lines from a new editor and a new hub on. This function does nothing, and its
/// contract is that law: lines that may be answered lead through something, and whatever they lead through shows it.
pub fn views_show()
    ensures led { (old s : Served) (lines : List (List ℕ)) (bytes : List ℕ) → FollowsInTo old lines bytes s
        → (earlier : List Served) × LeadsThrough old lines bytes [] (s ∷ earlier) }
    ensures shown { (setup : Setup) (lines : List (List ℕ)) (bytes : List ℕ) (s : Served) (earlier : List Served) → setup.beside ≡ beside.Hub
        → LeadsThrough (new_served setup) lines bytes [] (s ∷ earlier) → ViewsShow (s ∷ earlier) s.layer }
{
    views_lag();
}
