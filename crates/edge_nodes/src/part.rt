//! Parts of data edges, which share their bytes.
ghost use Rattle.std.specs.Prelude.{◌≡◌, ◌+◌, ◌<◌, ◌≤◌, [], ◌∷◌, length, take, drop, Contains, IfOk, IfErr};
ghost use Rattle.node_forest.specs.Forest.{children, forest};
ghost use Rattle.node_forest.specs.Label.{number};
ghost use Rattle.node_forest.specs.Limits.{length_limit};
ghost use Rattle.tree_shapes.specs.Keep.{part_of as part_shape};
ghost use Rattle.node_edges.specs.Text.{text};
ghost use Rattle.node_edges.specs.Trees.{shape_of, IsTreeAt};
ghost use Rattle.pool_rule.specs.Trades.{HasHolds, SameHolds, Trades};
ghost use Rattle.node_pool.specs.Refusals.{IsCause, IsOfNoHeight};
ghost use Rattle.edge_nodes.specs.Pieces.{piece_of, part_node, new_numbers, GainsPiece};

use cord_port::Releaser;
use node_pool::{Body, Edge, Naming, NodeError, Pool, Worker};
use std::alloc::Global;
use std::slice;

/// `n` bytes of a data edge from the start on, in bytes (`cord_internal.h`, `CordRepSubstring`). A part of a part is a part of its child; all of
/// an edge is the edge itself, which takes no number. The edge's hold becomes the result's.
pub fn part_of<P: Naming, B: Releaser>(
    alloc: Global,
    pool: &Pool<P, B>,
    w: &mut Worker<P>,
    edge: &Edge,
    start: u64,
    n: u64,
) -> Result<Edge, NodeError>
    requires data { IsTreeAt 0 edge.now }
    requires held { HasHolds w.old.holds (edge.now ∷ []) }
    requires some { 0 < n }
    requires within { start + n ≤ edge.now.0.length }
    requires room { length w.old.holds ≤ 192 }
    ensures node { IfOk result (λ e. e ≡ piece_of e.0.number edge.now start n) }
    ensures text { IfOk result (λ e. text e ≡ take n (drop start (text edge.now))) }
    ensures formed { IfOk result (λ e. IsTreeAt 0 e) }
    ensures shape { IfOk result (λ e. shape_of e ≡ part_shape (shape_of edge.now) start n) }
    ensures traded { IfOk result (λ e. Trades w.old.holds (edge.now ∷ []) (e ∷ []) w.new.holds) }
    ensures gained { IfOk result (λ e. GainsPiece (new_numbers n edge.now e) w.old w.new) }
    ensures cause { IfErr result (λ x. IsCause P.size x w.old w.new) }
    ensures height { IfErr result (λ x. IsOfNoHeight x) }
    ensures same { IfErr result (λ _. SameHolds w.old.holds w.new.holds) }
    ensures refused { IfErr result (λ _. GainsPiece [] w.old w.new) }
{
    if n == edge.length() {
        return Ok(edge.again()?);
    }
    match edge.body() {
        Body::Part {
            start: first,
            child,
            ..
        } => part_of_child(alloc, pool, w, edge, child, *first + start, n),
        _ => part_over(alloc, pool, w, edge, start, n),
    }
}

/// A part of a flat or an external, whose hold becomes the part's.
fn part_over<P: Naming, B: Releaser>(
    alloc: Global,
    pool: &Pool<P, B>,
    w: &mut Worker<P>,
    source: &Edge,
    start: u64,
    n: u64,
) -> Result<Edge, NodeError>
    requires held { HasHolds w.old.holds (source.now ∷ []) }
    requires small { n < length_limit }
    requires room { length w.old.holds ≤ 193 }
    ensures node { IfOk result (λ e. e ≡ part_node e.0.number start n (forest (source.now ∷ []))) }
    ensures traded { IfOk result (λ e. Trades w.old.holds (source.now ∷ []) (e ∷ []) w.new.holds) }
    ensures gained { IfOk result (λ e. GainsPiece (number e ∷ []) w.old w.new) }
    ensures cause { IfErr result (λ x. IsCause P.size x w.old w.new) }
    ensures height { IfErr result (λ x. IsOfNoHeight x) }
    ensures same { IfErr result (λ _. SameHolds w.old.holds w.new.holds) }
    ensures refused { IfErr result (λ _. GainsPiece [] w.old w.new) }
{
    let child = source.again()?;
    let body = Body::Part {
        start,
        length: n,
        child,
    };
    match pool.take(alloc, w, body) {
        Ok(made) => Ok(made),
        Err(error) => Err(error.into()),
    }
}

/// A part of a part's child. The part's hold becomes the new part's.
fn part_of_child<P: Naming, B: Releaser>(
    alloc: Global,
    pool: &Pool<P, B>,
    w: &mut Worker<P>,
    part: &Edge,
    child: &Edge,
    start: u64,
    n: u64,
) -> Result<Edge, NodeError>
    requires data { IsTreeAt 0 part.now }
    requires child { Contains (children part.now) child.now }
    requires held { HasHolds w.old.holds (part.now ∷ []) }
    requires small { n < length_limit }
    requires room { length w.old.holds ≤ 192 }
    ensures node { IfOk result (λ e. e ≡ part_node e.0.number start n (forest (child.now ∷ []))) }
    ensures traded { IfOk result (λ e. Trades w.old.holds (part.now ∷ []) (e ∷ []) w.new.holds) }
    ensures gained { IfOk result (λ e. GainsPiece (number e ∷ []) w.old w.new) }
    ensures cause { IfErr result (λ x. IsCause P.size x w.old w.new) }
    ensures height { IfErr result (λ x. IsOfNoHeight x) }
    ensures same { IfErr result (λ _. SameHolds w.old.holds w.new.holds) }
    ensures refused { IfErr result (λ _. GainsPiece [] w.old w.new) }
{
    pool.share(w, child);
    match part_over(alloc, pool, w, child, start, n) {
        Ok(made) => {
            pool.finish(w, part);
            Ok(made)
        }
        Err(error) => {
            pool.unshare_all(w, slice::from_ref(child));
            Err(error)
        }
    }
}
