//! What the answers of several calls tell together.
ghost use Rattle.std.specs.Prelude.{◌≡◌, ℕ, List};
ghost use Rattle.node_forest.specs.Label.{Node};
ghost use Rattle.pool_rule.specs.Marks.{IsLonePath};
ghost use Rattle.pool_rule.specs.Views.{View};
ghost use Rattle.node_pool.specs.Paths.{node_at, IsPathIn, found_lone};

/// A path is lone for `mark` where a look at its end answered yes, and the nodes above it are lone.
pub fn paths_that_looks_find_are_lone()
    ensures { (root : Node) (path : List ℕ) (v w : View) → IsPathIn v.lone root path → w ≡ found_lone (node_at root path) v → IsLonePath root path w }
{}
