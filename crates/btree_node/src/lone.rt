//! How far down a path nobody else holds its nodes.
ghost use Rattle.std.specs.Prelude.{◌≡◌, ◌+◌, ◌≤◌, [], ◌∷◌, length};
ghost use Rattle.node_forest.specs.Paths.{Leads};
ghost use Rattle.pool_rule.specs.Marks.{IsLonePath};
ghost use Rattle.pool_rule.specs.Trades.{HasHolds};
ghost use Rattle.btree_node.specs.Lone.{AreLoneTo, found_lone_to, IsFoundShared};

use cord_port::Releaser;
use node_pool::{Edge, Naming, Pool, Worker};

/// How many nodes from the root along a path, its end included, looks find lone before the first that they don't. The numbers of
/// these are lone numbers of the worker then, and the look that answered no is noted.
pub fn lone_depth<P: Naming, B: Releaser>(
    pool: &Pool<P, B>,
    w: &mut Worker<P>,
    root: &Edge,
    path: &[u8],
) -> u8
    requires held { HasHolds w.old.holds (root.now ∷ []) }
    requires leads { Leads root.now path.now }
    requires short { length path.now ≤ 12 }
    ensures few { result ≤ length path.now + 1 }
    ensures lone { AreLoneTo result root.now path.now w.new }
    ensures whole { result ≡ length path.now + 1 → w.new ≡ found_lone_to result root.now path.now w.old }
    ensures path { result ≡ length path.now + 1 → IsLonePath root.now path.now w.new }
    ensures shared { result ≤ length path.now → IsFoundShared result root.now path.now w.old w.new }
    ensures holds { w.new.holds ≡ w.old.holds }
{
    let mut depth = 0;
    while depth <= path.len() {
        if !pool.look(w, root, &path[..depth]) {
            return depth as u8;
        }
        depth += 1;
    }
    depth as u8
}
