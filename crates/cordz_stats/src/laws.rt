//! What the sums promise, of every tree.
ghost use Rattle.std.specs.Prelude.{◌≡◌, ◌+◌, ◌≤◌, suc, sum_by, map};
ghost use Rattle.node_forest.specs.Forest.{children};
ghost use Rattle.tree_shapes.specs.Shape.{Shape};
ghost use Rattle.cordz_stats.specs.Sums.{statistics_of};

/// Each node is of one of the five kinds.
pub fn nodes_are_of_five_kinds()
    ensures { (s : Shape) → let t = statistics_of s in t.nodes ≡ t.flat + t.external + t.part + t.sum + t.branch }
{}
