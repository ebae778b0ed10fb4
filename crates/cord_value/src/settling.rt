//! The tree of a pass exchanged for a new one.
ghost use Rattle.std.specs.Prelude.{◌≡◌, ◌≤◌, [], ◌∷◌, length};
ghost use Rattle.node_edges.specs.Ways.{branches_down};
ghost use Rattle.pool_rule.specs.Trades.{HasHolds, Trades};
ghost use Rattle.cord_value.specs.Workers.{IsReplaced};

use cord_port::Releaser;
use node_pool::{Edge, Naming, Pass, Pool, Worker};

/// Leaves the old tree, and fills the pass with the new one.
pub(crate) fn replace_tree<P: Naming, B: Releaser>(
    pool: &Pool<P, B>,
    w: &mut Worker<P>,
    pass: &mut Pass<P>,
    root: &mut Edge,
    made: Edge,
)
    requires empty { pass.old.holds ≡ [] }
    requires held { HasHolds w.old.holds (root.old ∷ made ∷ []) }
    requires short { branches_down root.old ≤ 12 }
    requires room { length w.old.holds ≤ 196 }
    ensures root { root.new ≡ made }
    ensures pass { pass.new.holds ≡ made ∷ [] }
    ensures traded { Trades w.old.holds (root.old ∷ made ∷ []) [] w.new.holds }
    ensures replaced { IsReplaced w.old w.new }
{
    pool.finish(w, root);
    pool.fill(w, pass, &made);
    *root = made;
}
