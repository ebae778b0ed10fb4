//! New flats, and the room in them.
ghost use Rattle.std.specs.Prelude.{◌≡◌, ◌+◌, ◌<◌, ◌≤◌, [], ◌∷◌, length, vec_capacity, IfOk, IfErr};
ghost use Rattle.node_edges.specs.Text.{text};
ghost use Rattle.node_edges.specs.Trees.{shape_of, IsWellFormed};
ghost use Rattle.pool_rule.specs.Trades.{Trades, SameHolds};
ghost use Rattle.node_pool.specs.Refusals.{IsCause, IsNoted, IsOfNoHeight};
ghost use Rattle.tree_shapes.specs.Capacity.{capacity_for};
ghost use Rattle.tree_shapes.specs.Flats.{flat_shape};
ghost use Rattle.flat_nodes.specs.Flats.{new_flat_node, room_in, IsAdded};

use crate::capacity::capacity_for;
use cord_port::Releaser;
use node_pool::{Body, Edge, Naming, NodeError, Pool, Worker};
use std::alloc::{AllocError, Global};

/// A flat of 1 to 4083 bytes, which has the least capacity that holds them. It takes one number, and its hold is the worker's last.
/// Its bytes lie in memory for the whole capacity, so that a later change in place asks for none.
pub fn new_flat<P: Naming, B: Releaser>(
    alloc: Global,
    pool: &Pool<P, B>,
    w: &mut Worker<P>,
    bytes: &[u8],
) -> Result<Edge, NodeError>
    requires some { 0 < length bytes.now }
    requires few { length bytes.now ≤ 4083 }
    requires room { length w.old.holds ≤ 192 }
    ensures node { IfOk result (λ e. e ≡ new_flat_node e.0.number bytes.now) }
    ensures text { IfOk result (λ e. text e ≡ bytes.now) }
    ensures formed { IfOk result (λ e. IsWellFormed e) }
    ensures shape { IfOk result (λ e. shape_of e ≡ flat_shape (length bytes.now)) }
    ensures added { IfOk result (λ e. IsAdded P.size w.old w.new e) }
    ensures traded { IfOk result (λ e. Trades w.old.holds [] (e ∷ []) w.new.holds) }
    ensures cause { IfErr result (λ x. IsCause P.size x w.old w.new) }
    ensures height { IfErr result (λ x. IsOfNoHeight x) }
    ensures noted { IfErr result (λ x. IsNoted x w.old w.new) }
    ensures same { IfErr result (λ _. SameHolds w.old.holds w.new.holds) }
{
    let capacity = capacity_for(bytes.len());
    let own = own_bytes(alloc, bytes, capacity)?;
    let room = (capacity - bytes.len()) as u32;
    let edge = pool.take(alloc, w, Body::Flat { bytes: own, room })?;
    Ok(edge)
}

/// A copy of the bytes, with memory for so many.
fn own_bytes(alloc: Global, bytes: &[u8], capacity: usize) -> Result<Vec<u8>, AllocError>
    ensures bytes { IfOk result (λ own. own.items ≡ bytes.now) }
    ensures wide { IfOk result (λ own. capacity ≤ vec_capacity own) }
{
    let mut own = Vec::with_capacity(alloc, capacity)?;
    own.extend_from_slice(bytes)?;
    Ok(own)
}

/// How many bytes more a flat has room for; 0 for what is no flat.
pub fn room_of(edge: &Edge) -> u32
    ensures { result ≡ room_in edge.now }
{
    match edge.body() {
        Body::Flat { room, .. } => *room,
        _ => 0,
    }
}
