//! Ranges of nodes: what the range holds whole is shared, and the nodes on the ways to its two ends are made anew.
ghost use Rattle.std.specs.Prelude.{◌≡◌, ◌+◌, ◌*◌, ◌<◌, ◌≤◌, [], ◌∷◌, length, vec_len, vec_capacity, All, IfOk, IfErr};
ghost use Rattle.node_edges.specs.Trees.{IsTreeAt};
ghost use Rattle.pool_rule.specs.Trades.{Stands, Trades};
ghost use Rattle.node_pool.specs.Refusals.{IsCause, IsOfNoHeight};
ghost use Rattle.chunk_reader.specs.Places.{long};
ghost use Rattle.btree_node.specs.Made.{GainedNodes, IsMadeFrom, IsRefusedFrom};
ghost use Rattle.btree_cut.specs.Ranges.{ranges};
ghost use Rattle.btree_cut.specs.Cutting.{kept_at, most_made, IsCut, AreCut};

use btree_node::{branch_of, opened};
use cord_port::Releaser;
use edge_nodes::part_of;
use node_pool::{Edge, Naming, NodeError, Pool, Worker};
use std::alloc::Global;
use std::slice;

/// The same node, with one hold more.
fn shared<P: Naming, B: Releaser>(
    pool: &Pool<P, B>,
    w: &mut Worker<P>,
    tree: &Edge,
) -> Result<Edge, NodeError>
    requires stands { Stands w.old.holds tree.now }
    requires room { length w.old.holds ≤ 190 }
    ensures same { IfOk result (λ e. e ≡ tree.now) }
    ensures made { IfOk result (IsMadeFrom [] (tree.now ∷ []) w.old w.new) }
    ensures none { length w.new.taken ≡ length w.old.taken }
    ensures refused { IfErr result (λ x. IsRefusedFrom P.size [] x w.old w.new) }
{
    let Ok(again) = tree.again() else {
        return Err(NodeError::Memory);
    };
    pool.share(w, tree);
    Ok(again)
}

/// Fewer bytes of a data edge than it has. Its holds stay.
fn part<P: Naming, B: Releaser>(
    alloc: Global,
    pool: &Pool<P, B>,
    w: &mut Worker<P>,
    edge: &Edge,
    start: u64,
    n: u64,
) -> Result<Edge, NodeError>
    requires stands { Stands w.old.holds edge.now }
    requires data { IsTreeAt 0 edge.now }
    requires some { 0 < n }
    requires less { n < edge.now.0.length }
    requires within { start + n ≤ edge.now.0.length }
    requires room { length w.old.holds ≤ 190 }
    ensures cut { IfOk result (IsCut 0 edge.now start n) }
    ensures made { IfOk result (IsMadeFrom [] (kept_at 0 edge.now start n) w.old w.new) }
    ensures few { IfOk result (λ _. length w.new.taken ≤ length w.old.taken + 1) }
    ensures refused { IfErr result (λ x. IsRefusedFrom P.size [] x w.old w.new) }
{
    pool.share(w, edge);
    match part_of(alloc, pool, w, edge, start, n) {
        Ok(made) => Ok(made),
        Err(error) => {
            pool.unshare_all(w, slice::from_ref(edge));
            Err(error)
        }
    }
}

/// `n` bytes of a node of this level, from the start on.
#[cycle(cutting)]
pub(crate) fn cut<P: Naming, B: Releaser>(
    alloc: Global,
    pool: &Pool<P, B>,
    w: &mut Worker<P>,
    tree: &Edge,
    level: u8,
    start: u64,
    n: u64,
) -> Result<Edge, NodeError>
    requires stands { Stands w.old.holds tree.now }
    requires tree { IsTreeAt level tree.now }
    requires some { 0 < n }
    requires within { start + n ≤ tree.now.0.length }
    requires short { n ≤ 2147483647 }
    requires low { level ≤ 12 }
    requires room { length w.old.holds + 5 * level ≤ 190 }
    ensures cut { IfOk result (IsCut level tree.now start n) }
    ensures made { IfOk result (IsMadeFrom [] (kept_at level tree.now start n) w.old w.new) }
    ensures few { IfOk result (λ _. length w.new.taken ≤ length w.old.taken + most_made level (record { node = tree.now; start = start; size = n })) }
    ensures refused { IfErr result (λ x. IsRefusedFrom P.size [] x w.old w.new) }
{
    if n == tree.length() {
        return shared(pool, w, tree);
    }
    if level == 0 {
        return part(alloc, pool, w, tree, start, n);
    }
    let edges = opened(tree, level - 1);
    let Ok(mut kept) = Vec::with_capacity(alloc, 6) else {
        return Err(NodeError::Memory);
    };
    match cut_edges(alloc, pool, w, edges, level - 1, start, n, &mut kept) {
        Ok(()) => branch_of(alloc, pool, w, level - 1, &kept),
        Err(error) => {
            pool.finish_all(w, &kept);
            Err(error)
        }
    }
}

/// Puts what `n` bytes from the start on give of each edge, of this level, behind the nodes that there are.
#[cycle(cutting)]
fn cut_edges<P: Naming, B: Releaser>(
    alloc: Global,
    pool: &Pool<P, B>,
    w: &mut Worker<P>,
    edges: &[Edge],
    level: u8,
    start: u64,
    n: u64,
    kept: &mut Vec<Edge>,
) -> Result<(), NodeError>
    requires stand { All (Stands w.old.holds) edges.now }
    requires trees { All (IsTreeAt level) edges.now }
    requires few { length edges.now ≤ 6 }
    requires none { kept.old.items ≡ [] }
    requires capacity { 6 ≤ vec_capacity kept.old }
    requires short { n ≤ 2147483647 }
    requires low { level ≤ 11 }
    requires room { length w.old.holds + 5 + 5 * level ≤ 190 }
    ensures cut { IfOk result (λ _. AreCut level (ranges edges.now start n) [] kept.new.items w.old w.new) }
    ensures trees { All (IsTreeAt level) kept.new.items }
    ensures few { length kept.new.items ≤ length edges.now }
    ensures traded { Trades w.old.holds [] kept.new.items w.new.holds }
    ensures gained { GainedNodes w.old w.new }
    ensures cause { IfErr result (λ x. IsCause P.size x w.old w.new) }
    ensures height { IfErr result (λ x. IsOfNoHeight x) }
{
    let mut at = start;
    let mut left = n;
    for edge in edges {
        match cut_edge(alloc, pool, w, edge, level, at, left, kept) {
            Ok(()) => {}
            Err(error) => return Err(error),
        }
        left = left.saturating_sub(edge.length().saturating_sub(at));
        at = at.saturating_sub(edge.length());
    }
    Ok(())
}

/// The same of one edge, which may have none of the bytes.
#[cycle(cutting)]
fn cut_edge<P: Naming, B: Releaser>(
    alloc: Global,
    pool: &Pool<P, B>,
    w: &mut Worker<P>,
    edge: &Edge,
    level: u8,
    start: u64,
    n: u64,
    kept: &mut Vec<Edge>,
) -> Result<(), NodeError>
    requires stands { Stands w.old.holds edge.now }
    requires tree { IsTreeAt level edge.now }
    requires capacity { vec_len kept.old < vec_capacity kept.old }
    requires short { n ≤ 2147483647 }
    requires low { level ≤ 11 }
    requires room { length w.old.holds + 5 * level ≤ 190 }
    ensures cut { IfOk result (λ _. AreCut level (ranges (edge.now ∷ []) start n) kept.old.items kept.new.items w.old w.new) }
    ensures capacity { vec_capacity kept.old ≤ vec_capacity kept.new }
    ensures stays { IfErr result (λ _. kept.new ≡ kept.old) }
    ensures refused { IfErr result (λ x. IsRefusedFrom P.size [] x w.old w.new) }
{
    let here = n.min(edge.length().saturating_sub(start));
    if here == 0 {
        return Ok(());
    }
    match cut(alloc, pool, w, edge, level, start, here) {
        Ok(piece) => {
            kept.push_reserved(piece);
            Ok(())
        }
        Err(error) => Err(error),
    }
}
