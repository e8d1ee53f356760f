//! What the semigroup tree counts. Each function is a law: it does nothing, and its contract is proved once for all that
//! cite it.

ghost use Rattle.std.specs.Prelude.{◌≡◌, ◌+◌, ◌-◌, ◌*◌, ◌≤◌, ℕ, map, filter};
ghost use Rattle.std.specs.List.{range_with_len};
ghost use Rattle.yew_kinds.specs.DepthCounts.{depth_fold, saturated};
ghost use Rattle.yew_laws.specs.Bag.{SameBag};
ghost use Rattle.yew_laws.specs.SearchTree.{preorder};
ghost use Rattle.yew_semi.specs.Depth.{nodes_at};
ghost use Rattle.yew_semi.specs.Gaps.{is_gap_set, choices, gap_sets, semigroups_of_genus};
ghost use Rattle.yew_semi.specs.SemigroupTree.{semigroup_tree};

/// The nodes at depth k of the tree are the sets of gaps of genus k, each once, for each k up to the last genus. So the
/// fold by depth has at k the number of numerical semigroups of genus k, or 2^64 - 1 where that is greater.
pub fn nodes_by_genus(genus: u32)
    ensures each_once { (k : ℕ) → k ≤ genus → SameBag (nodes_at k (preorder (semigroup_tree genus))) (gap_sets k) }
    ensures counts { depth_fold (semigroup_tree genus) genus ≡ map (λ k. saturated (semigroups_of_genus k)) (range_with_len 0 (genus + 1)) }
{
    let _ = genus;
}

/// A set of k gaps has no member above 2k - 1: sets of numbers from 1 to any greater end add none.
pub fn greater_gaps_add_none()
    ensures { (k high : ℕ) → 2 * k - 1 ≤ high → SameBag (filter is_gap_set (choices k (range_with_len 1 high))) (gap_sets k) }
{}
