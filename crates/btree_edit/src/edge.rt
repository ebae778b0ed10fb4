//! One data edge added to a tree (`cord_rep_btree.h`).
ghost use Rattle.std.specs.Prelude.{◌≡◌, ◌+◌, ◌<◌, ◌≤◌, [], ◌∷◌, length, Err, IfOk, IfErr};
ghost use Rattle.node_edges.specs.Trees.{shape_of, IsTreeAt, IsFilled};
ghost use Rattle.pool_rule.specs.Trades.{HasHolds};
ghost use Rattle.tree_shapes.specs.Growth.{no_meeting, added};
ghost use Rattle.tree_shapes.specs.Shape.{level, IsTree};
ghost use Rattle.node_pool.specs.declared.refusals.NodeError.TheVariants.{HeightLimit};
ghost use Rattle.btree_node.specs.Made.{IsMadeFrom, IsLeftAlone};
ghost use Rattle.btree_node.specs.Adding.{kept_added, IsAdded};
ghost use Rattle.btree_edit.specs.Outcomes.{outcome_by, outcome_of};

use btree_node::{level_of, with_node};
use cord_port::Releaser;
use node_pool::{Edge, Naming, NodeError, Pool, Side, Worker};
use std::alloc::Global;

/// What became of a tree's root where a data edge was added.
#[derive(Clone, Copy, Debug, PartialEq, Eq)]
pub enum Outcome {
    /// The new root is higher than the old one.
    Popped,
    /// The root kept its number.
    Same,
    /// The root was made anew.
    Copied,
}

fn outcome_by(higher: bool, same: bool) -> Outcome
    ensures { result ≡ outcome_by higher same }
{
    if higher {
        Outcome::Popped
    } else if same {
        Outcome::Same
    } else {
        Outcome::Copied
    }
}

/// Adds a data edge at a side of the tree: the lowest node on the way that has fewer than 6 edges gets it, under Branches of one edge as
/// far as needed; where all are full, the tree comes under a new root beside it. The holds of root and edge become one of the new root.
/// After a refusal they are as before; HeightLimit comes just where a new root would have the height 12.
pub fn add_edge<P: Naming, B: Releaser>(
    alloc: Global,
    pool: &Pool<P, B>,
    w: &mut Worker<P>,
    root: &mut Edge,
    edge: &Edge,
    side: Side,
) -> Result<Outcome, NodeError>
    requires held { HasHolds w.old.holds (root.old ∷ edge.now ∷ []) }
    requires tree { IsTree (shape_of root.old) }
    requires filled { IsFilled root.old }
    requires edge { IsTreeAt 0 edge.now }
    requires short { root.old.0.length + edge.now.0.length ≤ 2147483647 }
    requires room { length w.old.holds ≤ 128 }
    ensures added { IfOk result (λ _. IsAdded no_meeting side root.old edge.now root.new) }
    ensures outcome { IfOk result (λ o. o ≡ outcome_of root.old root.new) }
    ensures made { IfOk result (λ _. IsMadeFrom (root.old ∷ edge.now ∷ []) (kept_added no_meeting side root.old edge.now) w.old w.new root.new) }
    ensures high { 12 < level (added side (shape_of root.old) (shape_of edge.now)) → result ≡ Err (HeightLimit 12) }
    ensures refused { IfErr result (λ x. IsLeftAlone P.size (added side (shape_of root.old) (shape_of edge.now)) x w.old w.new) }
    ensures stays { IfErr result (λ _. root.new ≡ root.old) }
{
    match with_node(alloc, pool, w, root, edge, side, false) {
        Ok(made) => {
            let higher = level_of(root) < level_of(&made);
            let outcome = outcome_by(higher, made.number() == root.number());
            pool.finish(w, root);
            pool.finish(w, edge);
            *root = made;
            Ok(outcome)
        }
        Err(error) => Err(error),
    }
}
