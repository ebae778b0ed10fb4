//! Branches over edges that are held, and over edges that are shared.
ghost use Rattle.std.specs.Prelude.{◌≡◌, ◌+◌, ◌<◌, ◌≤◌, [], ◌++◌, length, sum_by, All, IfOk, IfErr};
ghost use Rattle.node_edges.specs.Body.{IsBranchOf};
ghost use Rattle.node_edges.specs.Trees.{IsTreeAt};
ghost use Rattle.pool_rule.specs.Trades.{HasHolds, Stands};
ghost use Rattle.tree_shapes.specs.Growth.{beside};
ghost use Rattle.btree_node.specs.Made.{IsMadeFrom, IsRefusedFrom};

use cord_port::Releaser;
use node_pool::{Body, Edge, Memory, Naming, NodeError, Pool, Side, Worker};
use std::alloc::Global;

/// The edges of one list, and then those of another.
fn appended(alloc: Global, first: &[Edge], second: &[Edge]) -> Result<Vec<Edge>, Memory>
    requires { length first.now + length second.now ≤ 12 }
    ensures { IfOk result (λ v. v.items ≡ first.now ++ second.now) }
{
    let mut all = Vec::with_capacity(alloc, first.len() + second.len())?;
    for edge in first {
        all.push_reserved(edge.again()?);
    }
    for edge in second {
        all.push_reserved(edge.again()?);
    }
    Ok(all)
}

/// The edges of both lists, the second at this side.
pub(crate) fn joined_edges(
    alloc: Global,
    side: Side,
    edges: &[Edge],
    others: &[Edge],
) -> Result<Vec<Edge>, Memory>
    requires { length edges.now + length others.now ≤ 12 }
    ensures { IfOk result (λ v. v.items ≡ beside side edges.now others.now) }
{
    match side {
        Side::Front => appended(alloc, others, edges),
        Side::Back => appended(alloc, edges, others),
    }
}

/// A Branch of this height over 1 to 6 direct holds, which are its edges then. The height is at most 11; the edges are data edges for
/// height 0, and else Branches of the height below. After a refusal they are direct holds as before.
pub fn new_branch<P: Naming, B: Releaser>(
    alloc: Global,
    pool: &Pool<P, B>,
    w: &mut Worker<P>,
    height: u8,
    edges: &[Edge],
) -> Result<Edge, NodeError>
    requires held { HasHolds w.old.holds edges.now }
    requires trees { All (IsTreeAt height) edges.now }
    requires some { 0 < length edges.now }
    requires few { length edges.now ≤ 6 }
    requires low { height ≤ 11 }
    requires small { sum_by (λ e. e.0.length) edges.now ≤ 2147483647 }
    requires room { length w.old.holds ≤ 256 }
    ensures branch { IfOk result (IsBranchOf height edges.now) }
    ensures tree { IfOk result (IsTreeAt (height + 1)) }
    ensures made { IfOk result (IsMadeFrom edges.now edges.now w.old w.new) }
    ensures refused { IfErr result (λ x. IsRefusedFrom P.size [] x w.old w.new) }
{
    let Ok(own) = appended(alloc, edges, &[]) else {
        return Err(NodeError::Memory);
    };
    match pool.take(alloc, w, Body::Branch { height, edges: own }) {
        Ok(edge) => Ok(edge),
        Err(error) => Err(NodeError::from(error)),
    }
}

/// A Branch over edges that are shared and, at the side, others whose holds are used up, whatever the answer is.
pub fn branch_beside<P: Naming, B: Releaser>(
    alloc: Global,
    pool: &Pool<P, B>,
    w: &mut Worker<P>,
    side: Side,
    height: u8,
    shared: &[Edge],
    own: &[Edge],
) -> Result<Edge, NodeError>
    requires stand { All (Stands w.old.holds) shared.now }
    requires held { HasHolds w.old.holds own.now }
    requires shared_trees { All (IsTreeAt height) shared.now }
    requires own_trees { All (IsTreeAt height) own.now }
    requires some { 0 < length shared.now + length own.now }
    requires few { length shared.now + length own.now ≤ 6 }
    requires low { height ≤ 11 }
    requires small { sum_by (λ e. e.0.length) shared.now + sum_by (λ e. e.0.length) own.now ≤ 2147483647 }
    requires room { length w.old.holds ≤ 196 }
    ensures branch { IfOk result (IsBranchOf height (beside side shared.now own.now)) }
    ensures tree { IfOk result (IsTreeAt (height + 1)) }
    ensures made { IfOk result (IsMadeFrom own.now (beside side shared.now own.now) w.old w.new) }
    ensures refused { IfErr result (λ x. IsRefusedFrom P.size own.now x w.old w.new) }
{
    let Ok(edges) = joined_edges(alloc, side, shared, own) else {
        pool.finish_all(w, own);
        return Err(NodeError::Memory);
    };
    pool.share_all(w, shared);
    match new_branch(alloc, pool, w, height, &edges) {
        Ok(edge) => Ok(edge),
        Err(error) => {
            pool.unshare_all(w, shared);
            pool.finish_all(w, own);
            Err(error)
        }
    }
}

/// A Branch of direct holds, which are used up, whatever the answer is.
pub fn branch_of<P: Naming, B: Releaser>(
    alloc: Global,
    pool: &Pool<P, B>,
    w: &mut Worker<P>,
    height: u8,
    edges: &[Edge],
) -> Result<Edge, NodeError>
    requires held { HasHolds w.old.holds edges.now }
    requires trees { All (IsTreeAt height) edges.now }
    requires some { 0 < length edges.now }
    requires few { length edges.now ≤ 6 }
    requires low { height ≤ 11 }
    requires small { sum_by (λ e. e.0.length) edges.now ≤ 2147483647 }
    requires room { length w.old.holds ≤ 196 }
    ensures branch { IfOk result (IsBranchOf height edges.now) }
    ensures made { IfOk result (IsMadeFrom edges.now edges.now w.old w.new) }
    ensures refused { IfErr result (λ x. IsRefusedFrom P.size edges.now x w.old w.new) }
{
    match new_branch(alloc, pool, w, height, edges) {
        Ok(edge) => Ok(edge),
        Err(error) => {
            pool.finish_all(w, edges);
            Err(error)
        }
    }
}
