//! A node added to a tree in place of which the new one is held then.
ghost use Rattle.std.specs.Prelude.{◌≡◌, ◌+◌, ◌<◌, ◌≤◌, [], ◌∷◌, length, Err, IfOk, IfErr};
ghost use Rattle.tree_shapes.specs.Shape.{level, IsTree};
ghost use Rattle.node_edges.specs.Trees.{shape_of, IsTreeAt, IsFilled};
ghost use Rattle.pool_rule.specs.Trades.{HasHolds};
ghost use Rattle.tree_shapes.specs.Growth.{no_meeting, added};
ghost use Rattle.node_pool.specs.declared.refusals.NodeError.TheVariants.{HeightLimit};
ghost use Rattle.btree_node.specs.Made.{IsMadeFrom, IsLeftAlone};
ghost use Rattle.btree_node.specs.Adding.{kept_added, IsAdded};

use crate::adding::with_node;
use cord_port::Releaser;
use node_pool::{Edge, Naming, NodeError, Pool, Side, Worker};
use std::alloc::Global;

/// Adds a node of any level below the root's at a side: the lowest node on the way that has fewer than 6 edges gets it, under Branches of
/// one edge as far as needed; where all are full, the tree comes under a new root beside it. The holds of root and node become one of
/// the new root. After a refusal they are as before; HeightLimit comes just where a new root would have the height 12.
pub fn add_node<P: Naming, B: Releaser>(
    alloc: Global,
    pool: &Pool<P, B>,
    w: &mut Worker<P>,
    root: &mut Edge,
    node: &Edge,
    side: Side,
) -> Result<(), NodeError>
    requires held { HasHolds w.old.holds (root.old ∷ node.now ∷ []) }
    requires tree { IsTree (shape_of root.old) }
    requires filled { IsFilled root.old }
    requires node { IsTreeAt (level (shape_of node.now)) node.now }
    requires lower { level (shape_of node.now) < level (shape_of root.old) }
    requires short { root.old.0.length + node.now.0.length ≤ 2147483647 }
    requires room { length w.old.holds ≤ 192 }
    ensures added { IfOk result (λ _. IsAdded no_meeting side root.old node.now root.new) }
    ensures made { IfOk result (λ _. IsMadeFrom (root.old ∷ node.now ∷ []) (kept_added no_meeting side root.old node.now) w.old w.new root.new) }
    ensures high { 12 < level (added side (shape_of root.old) (shape_of node.now)) → result ≡ Err (HeightLimit 12) }
    ensures refused { IfErr result (λ x. IsLeftAlone P.size (added side (shape_of root.old) (shape_of node.now)) x w.old w.new) }
    ensures stays { IfErr result (λ _. root.new ≡ root.old) }
{
    match with_node(alloc, pool, w, root, node, side, false) {
        Ok(made) => {
            pool.finish(w, root);
            pool.finish(w, node);
            *root = made;
            Ok(())
        }
        Err(error) => Err(error),
    }
}
