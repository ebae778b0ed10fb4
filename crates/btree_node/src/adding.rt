//! A node added to a tree: the nodes on the way to it are made anew, and all other trees are shared.
ghost use Rattle.std.specs.Prelude.{◌≡◌, ℕ, ◌+◌, ◌<◌, ◌≤◌, [], ◌∷◌, ◌++◌, length, sum_by, All, Ok, Err, Some, None, IfOk, IfErr, true};
ghost use Rattle.tree_shapes.specs.Shape.{level, IsTree};
ghost use Rattle.node_edges.specs.Text.{data_edges_at};
ghost use Rattle.node_edges.specs.Trees.{shape_of, IsTreeAt, IsFilled};
ghost use Rattle.pool_rule.specs.Trades.{Stands};
ghost use Rattle.tree_shapes.specs.Growth.{wrapped};
ghost use Rattle.node_pool.specs.declared.refusals.NodeError.TheVariants.{HeightLimit};
ghost use Rattle.btree_node.specs.Made.{IsMadeFrom, IsMadeIfSome, IsRefusedFrom, IsLeftAlone};
ghost use Rattle.btree_node.specs.Adding.{meet_of, shape_added, kept_below, kept_added, HasNoRoom, IsTreeOver, IsGrown, IsTopped, IsAdded};

use crate::branches::{branch_beside, joined_edges, new_branch};
use crate::opening::{level_of, opened, outermost};
use cord_port::Releaser;
use node_pool::{Edge, Naming, NodeError, Pool, Side, Worker};
use std::alloc::Global;
use std::slice;

/// The node under so many Branches of one edge.
fn wrapped<P: Naming, B: Releaser>(
    alloc: Global,
    pool: &Pool<P, B>,
    w: &mut Worker<P>,
    node: &Edge,
    level: u8,
    steps: u8,
) -> Result<Edge, NodeError>
    requires stands { Stands w.old.holds node.now }
    requires node { IsTreeAt level node.now }
    requires low { level + steps ≤ 12 }
    requires short { node.now.0.length ≤ 2147483647 }
    requires room { length w.old.holds ≤ 195 }
    ensures tree { IfOk result (IsTreeOver (level + steps) (wrapped steps (shape_of node.now)) (data_edges_at level node.now)) }
    ensures made { IfOk result (IsMadeFrom [] (node.now ∷ []) w.old w.new) }
    ensures refused { IfErr result (λ x. IsRefusedFrom P.size [] x w.old w.new) }
{
    let Ok(mut top) = node.again() else {
        return Err(NodeError::Memory);
    };
    pool.share(w, node);
    for i in 0..steps {
        match new_branch(alloc, pool, w, level + i, slice::from_ref(&top)) {
            Ok(above) => top = above,
            Err(error) => {
                pool.finish(w, &top);
                return Err(error);
            }
        }
    }
    Ok(top)
}

/// A Branch over these edges, which are shared, and at the side over the node under so many Branches of one edge.
fn topped<P: Naming, B: Releaser>(
    alloc: Global,
    pool: &Pool<P, B>,
    w: &mut Worker<P>,
    edges: &[Edge],
    node: &Edge,
    side: Side,
    level: u8,
    steps: u8,
) -> Result<Edge, NodeError>
    requires stand { All (Stands w.old.holds) edges.now }
    requires node_stands { Stands w.old.holds node.now }
    requires trees { All (IsTreeAt (level + steps)) edges.now }
    requires node { IsTreeAt level node.now }
    requires few { length edges.now ≤ 5 }
    requires low { level + steps ≤ 11 }
    requires short { sum_by (λ e. e.0.length) edges.now + node.now.0.length ≤ 2147483647 }
    requires room { length w.old.holds ≤ 192 }
    ensures tree { IfOk result (IsTopped side level steps edges.now node.now) }
    ensures made { IfOk result (IsMadeFrom [] (edges.now ++ node.now ∷ []) w.old w.new) }
    ensures refused { IfErr result (λ x. IsRefusedFrom P.size [] x w.old w.new) }
{
    let top = wrapped(alloc, pool, w, node, level, steps)?;
    let own = slice::from_ref(&top);
    branch_beside(alloc, pool, w, side, level + steps, edges, own)
}

/// One Branch with the edges of both, which are of one level, where they have at most 6 together; else None.
fn merged<P: Naming, B: Releaser>(
    alloc: Global,
    pool: &Pool<P, B>,
    w: &mut Worker<P>,
    tree: &Edge,
    node: &Edge,
    side: Side,
    level: u8,
) -> Result<Option<Edge>, NodeError>
    requires stands { Stands w.old.holds tree.now }
    requires node_stands { Stands w.old.holds node.now }
    requires tree { IsTreeAt level tree.now }
    requires node { IsTreeAt level node.now }
    requires low { level ≤ 12 }
    requires short { tree.now.0.length + node.now.0.length ≤ 2147483647 }
    requires room { length w.old.holds ≤ 192 }
    ensures grown { IfOk result (IsGrown (meet_of true side (shape_of node.now)) side level 0 tree.now node.now) }
    ensures made { IfOk result (IsMadeIfSome (kept_below side (meet_of true side (shape_of node.now)) 0 tree.now node.now) w.old w.new) }
    ensures full { HasNoRoom true side 0 tree.now node.now → (result ≡ Ok None) × (w.new ≡ w.old) }
    ensures refused { IfErr result (λ x. IsRefusedFrom P.size [] x w.old w.new) }
{
    if level == 0 {
        return Ok(None);
    }
    let edges = opened(tree, level - 1);
    let others = opened(node, level - 1);
    if edges.len() + others.len() > 6 {
        return Ok(None);
    }
    let Ok(all) = joined_edges(alloc, side, edges, others) else {
        return Err(NodeError::Memory);
    };
    let made = branch_beside(alloc, pool, w, Side::Back, level - 1, &all, &[])?;
    Ok(Some(made))
}

/// The tree with the node added, which belongs so many levels below its root, without a new root; None where no node on the way has room.
fn grown<P: Naming, B: Releaser>(
    alloc: Global,
    pool: &Pool<P, B>,
    w: &mut Worker<P>,
    tree: &Edge,
    node: &Edge,
    side: Side,
    level: u8,
    steps: u8,
    joining: bool,
) -> Result<Option<Edge>, NodeError>
    requires stands { Stands w.old.holds tree.now }
    requires node_stands { Stands w.old.holds node.now }
    requires tree { IsTreeAt (level + steps) tree.now }
    requires node { IsTreeAt level node.now }
    requires low { level + steps ≤ 12 }
    requires short { tree.now.0.length + node.now.0.length ≤ 2147483647 }
    requires room { length w.old.holds ≤ 192 }
    ensures grown { IfOk result (IsGrown (meet_of joining side (shape_of node.now)) side level steps tree.now node.now) }
    ensures made { IfOk result (IsMadeIfSome (kept_below side (meet_of joining side (shape_of node.now)) steps tree.now node.now) w.old w.new) }
    ensures full { HasNoRoom joining side steps tree.now node.now → (result ≡ Ok None) × (w.new ≡ w.old) }
    ensures refused { IfErr result (λ x. IsRefusedFrom P.size [] x w.old w.new) }
{
    if steps == 0 {
        return if joining {
            merged(alloc, pool, w, tree, node, side, level)
        } else {
            Ok(None)
        };
    }
    let height = level + (steps - 1);
    let (siblings, last) = outermost(tree, side, height);
    if let Some(child) = grown(alloc, pool, w, last, node, side, level, steps - 1, joining)? {
        let own = slice::from_ref(&child);
        let changed = branch_beside(alloc, pool, w, side, height, siblings, own)?;
        return Ok(Some(changed));
    }
    if siblings.len() == 5 {
        return Ok(None);
    }
    let edges = opened(tree, height);
    let more = topped(alloc, pool, w, edges, node, side, level, steps - 1)?;
    Ok(Some(more))
}

/// The tree with a node that is no higher added at a side. Where it is `joining`, a node of the node's own level on the way takes in its
/// edges if they are at most 6 together. The worker's holds stay, and one of the new tree is added.
pub fn with_node<P: Naming, B: Releaser>(
    alloc: Global,
    pool: &Pool<P, B>,
    w: &mut Worker<P>,
    tree: &Edge,
    node: &Edge,
    side: Side,
    joining: bool,
) -> Result<Edge, NodeError>
    requires stands { Stands w.old.holds tree.now }
    requires node_stands { Stands w.old.holds node.now }
    requires tree { IsTree (shape_of tree.now) }
    requires filled { IsFilled tree.now }
    requires node { IsTreeAt (level (shape_of node.now)) node.now }
    requires no_higher { level (shape_of node.now) ≤ level (shape_of tree.now) }
    requires short { tree.now.0.length + node.now.0.length ≤ 2147483647 }
    requires room { length w.old.holds ≤ 192 }
    ensures added { IfOk result (IsAdded (meet_of joining side (shape_of node.now)) side tree.now node.now) }
    ensures made { IfOk result (IsMadeFrom [] (kept_added (meet_of joining side (shape_of node.now)) side tree.now node.now) w.old w.new) }
    ensures high { 12 < level (shape_added joining side tree.now node.now) → result ≡ Err (HeightLimit 12) }
    ensures refused { IfErr result (λ x. IsLeftAlone P.size (shape_added joining side tree.now node.now) x w.old w.new) }
{
    let level = level_of(node);
    let steps = level_of(tree) - level;
    if let Some(made) = grown(alloc, pool, w, tree, node, side, level, steps, joining)? {
        return Ok(made);
    }
    if level + steps == 12 {
        return Err(NodeError::HeightLimit { height: 12 });
    }
    let root = slice::from_ref(tree);
    topped(alloc, pool, w, root, node, side, level, steps)
}
