//! Externals, whose owner is called when the last reference has gone.
ghost use Rattle.std.specs.Prelude.{◌≡◌, ◌≢◌, ◌≤◌, [], ◌∷◌, length, IfOk, IfErr};
ghost use Rattle.tree_shapes.specs.Cords.{external_shape};
ghost use Rattle.node_edges.specs.Text.{text};
ghost use Rattle.node_edges.specs.Trees.{shape_of, IsTreeAt, IsWellFormed};
ghost use Rattle.pool_rule.specs.Trades.{SameHolds, Trades};
ghost use Rattle.node_pool.specs.Answers.{IsTaken};
ghost use Rattle.node_pool.specs.Refusals.{IsCause, IsNoted, IsOfNoHeight};
ghost use Rattle.edge_nodes.specs.Externals.{external_node, first_slot};

use cord_port::Releaser;
use node_pool::{Body, Edge, Naming, NodeError, Pool, Worker};
use std::alloc::Global;

/// An external of at least 16 bytes (`cord_internal.h`, `CordRepExternal`), which keeps one copy of them. It takes one number and the
/// worker's next unused releaser slot; the box of that slot is called when the external's number is returned.
pub fn new_external<P: Naming, B: Releaser>(
    alloc: Global,
    pool: &Pool<P, B>,
    w: &mut Worker<P>,
    bytes: &[u8],
) -> Result<Edge, NodeError>
    requires some { 16 ≤ length bytes.now }
    requires small { length bytes.now ≤ 2147483647 }
    requires slot { w.old.unused ≢ [] }
    requires room { length w.old.holds ≤ 192 }
    ensures node { IfOk result (λ e. e ≡ external_node e.0.number bytes.now (first_slot w.old.unused)) }
    ensures text { IfOk result (λ e. text e ≡ bytes.now) }
    ensures formed { IfOk result (λ e. IsWellFormed e) }
    ensures data { IfOk result (λ e. IsTreeAt 0 e) }
    ensures shape { IfOk result (λ e. shape_of e ≡ external_shape (length bytes.now)) }
    ensures taken { IfOk result (λ e. IsTaken P.size w.old w.new e) }
    ensures traded { IfOk result (λ e. Trades w.old.holds [] (e ∷ []) w.new.holds) }
    ensures cause { IfErr result (λ x. IsCause P.size x w.old w.new) }
    ensures height { IfErr result (λ x. IsOfNoHeight x) }
    ensures noted { IfErr result (λ x. IsNoted x w.old w.new) }
    ensures same { IfErr result (λ _. SameHolds w.old.holds w.new.holds) }
{
    let Some(slot) = w.next_slot() else {
        unreachable!();
    };
    let own = Vec::from_slice(alloc, bytes)?;
    let edge = pool.take(alloc, w, Body::External { bytes: own, slot })?;
    Ok(edge)
}
