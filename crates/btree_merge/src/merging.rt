//! A tree that comes at a side of another.
ghost use Rattle.std.specs.Prelude.{◌≡◌, ◌+◌, ◌<◌, ◌≤◌, [], ◌∷◌, length, Err, IfOk, IfErr};
ghost use Rattle.node_edges.specs.Trees.{shape_of, IsFilled};
ghost use Rattle.pool_rule.specs.Trades.{HasHolds, Stands};
ghost use Rattle.tree_shapes.specs.Merge.{across, joined};
ghost use Rattle.tree_shapes.specs.Shape.{level, IsTree};
ghost use Rattle.node_pool.specs.declared.refusals.NodeError.TheVariants.{HeightLimit};
ghost use Rattle.btree_node.specs.Made.{IsMadeFrom, IsLeftAlone};
ghost use Rattle.btree_merge.specs.Merging.{kept_merged, IsMerged};

use btree_node::{level_of, with_node};
use cord_port::Releaser;
use node_pool::{Edge, Naming, NodeError, Pool, Side, Worker};
use std::alloc::Global;

/// The other side.
fn across(side: Side) -> Side
    ensures { result ≡ across side }
{
    match side {
        Side::Front => Side::Back,
        Side::Back => Side::Front,
    }
}

/// The two trees merged: the lower one is added to the other. The worker's holds stay, and one of the new tree is added; HeightLimit comes
/// just where a new root would have the height 12. At most one node a level is made, and one more.
pub fn merged<P: Naming, B: Releaser>(
    alloc: Global,
    pool: &Pool<P, B>,
    w: &mut Worker<P>,
    tree: &Edge,
    other: &Edge,
    side: Side,
) -> Result<Edge, NodeError>
    requires stands { Stands w.old.holds tree.now }
    requires other_stands { Stands w.old.holds other.now }
    requires tree { IsTree (shape_of tree.now) }
    requires filled { IsFilled tree.now }
    requires other { IsTree (shape_of other.now) }
    requires other_filled { IsFilled other.now }
    requires short { tree.now.0.length + other.now.0.length ≤ 2147483647 }
    requires room { length w.old.holds ≤ 192 }
    ensures merged { IfOk result (IsMerged side tree.now other.now) }
    ensures made { IfOk result (IsMadeFrom [] (kept_merged side tree.now other.now) w.old w.new) }
    ensures few { IfOk result (λ _. length w.new.taken ≤ length w.old.taken + 13) }
    ensures high { 12 < level (joined side (shape_of tree.now) (shape_of other.now)) → result ≡ Err (HeightLimit 12) }
    ensures refused { IfErr result (λ x. IsLeftAlone P.size (joined side (shape_of tree.now) (shape_of other.now)) x w.old w.new) }
{
    if level_of(other) <= level_of(tree) {
        return with_node(alloc, pool, w, tree, other, side, true);
    }
    with_node(alloc, pool, w, other, tree, across(side), true)
}

/// Merges the tree `other` at a side of the tree `root`. The lower of the two goes down the other's outermost nodes to one of its own
/// height, which takes in its edges if they are at most 6 together; else it is added there as a node. A data edge is added as one.
/// The holds of both become one of the new root. After a refusal they are as before; HeightLimit comes just where a new root would
/// have the height 12.
pub fn merge_trees<P: Naming, B: Releaser>(
    alloc: Global,
    pool: &Pool<P, B>,
    w: &mut Worker<P>,
    root: &mut Edge,
    other: &Edge,
    side: Side,
) -> Result<(), NodeError>
    requires held { HasHolds w.old.holds (root.old ∷ other.now ∷ []) }
    requires tree { IsTree (shape_of root.old) }
    requires filled { IsFilled root.old }
    requires other { IsTree (shape_of other.now) }
    requires other_filled { IsFilled other.now }
    requires short { root.old.0.length + other.now.0.length ≤ 2147483647 }
    requires room { length w.old.holds ≤ 192 }
    ensures merged { IfOk result (λ _. IsMerged side root.old other.now root.new) }
    ensures made { IfOk result (λ _. IsMadeFrom (root.old ∷ other.now ∷ []) (kept_merged side root.old other.now) w.old w.new root.new) }
    ensures high { 12 < level (joined side (shape_of root.old) (shape_of other.now)) → result ≡ Err (HeightLimit 12) }
    ensures refused { IfErr result (λ x. IsLeftAlone P.size (joined side (shape_of root.old) (shape_of other.now)) x w.old w.new) }
    ensures stays { IfErr result (λ _. root.new ≡ root.old) }
{
    match merged(alloc, pool, w, root, other, side) {
        Ok(made) => {
            pool.finish(w, root);
            pool.finish(w, other);
            *root = made;
            Ok(())
        }
        Err(error) => Err(error),
    }
}
