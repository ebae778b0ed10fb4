//! New trees over the flats of a text, group by group.
ghost use Rattle.std.specs.Prelude.{◌≡◌, ◌+◌, ◌-◌, ◌*◌, ◌<◌, ◌≤◌, [], ◌++◌, length, map, vec_len, vec_capacity, All, Contains, IfOk, IfErr};
ghost use Rattle.std.specs.List.{flat_map};
ghost use Rattle.node_forest.specs.declared.side.Side.TheVariants.{Back};
ghost use Rattle.tree_shapes.specs.Shape.{IsTree};
ghost use Rattle.node_edges.specs.Text.{text};
ghost use Rattle.node_edges.specs.Trees.{shape_of, IsTreeAt, IsWellFormed};
ghost use Rattle.pool_rule.specs.Trades.{HasHolds, Trades};
ghost use Rattle.tree_shapes.specs.Nodes.{nodes_in};
ghost use Rattle.tree_shapes.specs.Flats.{piece_count, flats, new_shape};
ghost use Rattle.tree_shapes.specs.Growth.{placed, beside};
ghost use Rattle.tree_shapes.specs.Room.{most_under, packed, room_outside};
ghost use Rattle.node_pool.specs.Refusals.{IsCause, IsOfNoHeight};
ghost use Rattle.btree_node.specs.Made.{nodes_of_all, GainedNodes, IsMadeFrom, IsRefusedFrom};
ghost use Rattle.btree_edit.specs.Trees.{AreLaid, IsTreeOf};

use crate::widths::{level_for, parted, piece_count};
use btree_node::{branch_of, most_under};
use cord_port::Releaser;
use flat_nodes::new_flat;
use node_pool::{Edge, Naming, NodeError, Pool, Side, Worker};
use std::alloc::Global;

/// A tree of this level over the bytes.
#[cycle(packing)]
pub(crate) fn packed<P: Naming, B: Releaser>(
    alloc: Global,
    pool: &Pool<P, B>,
    w: &mut Worker<P>,
    side: Side,
    bytes: &[u8],
    level: u8,
) -> Result<Edge, NodeError>
    requires some { 0 < length bytes.now }
    requires fits { piece_count (length bytes.now) ≤ most_under level }
    requires short { length bytes.now ≤ 2147483647 }
    requires low { level ≤ 12 }
    requires room { length w.old.holds + 5 * level ≤ 192 }
    ensures tree { IfOk result (IsTreeOf level (packed side level (flats side (length bytes.now))) bytes.now) }
    ensures made { IfOk result (IsMadeFrom [] [] w.old w.new) }
    ensures refused { IfErr result (λ x. IsRefusedFrom P.size [] x w.old w.new) }
{
    if level == 0 {
        return new_flat(alloc, pool, w, bytes);
    }
    let Ok(mut edges) = Vec::with_capacity(alloc, 6) else {
        return Err(NodeError::Memory);
    };
    match gathered(alloc, pool, w, side, bytes, level - 1, &mut edges) {
        Ok(()) => branch_of(alloc, pool, w, level - 1, &edges),
        Err(error) => {
            pool.finish_all(w, &edges);
            Err(error)
        }
    }
}

/// Puts trees of this level over the bytes beside the edges that there are, each full but the outermost.
#[cycle(packing)]
pub(crate) fn gathered<P: Naming, B: Releaser>(
    alloc: Global,
    pool: &Pool<P, B>,
    w: &mut Worker<P>,
    side: Side,
    bytes: &[u8],
    level: u8,
    edges: &mut Vec<Edge>,
) -> Result<(), NodeError>
    requires held { HasHolds w.old.holds edges.old.items }
    requires trees { All (IsTreeAt level) edges.old.items }
    requires few { length edges.old.items ≤ 6 }
    requires fits { piece_count (length bytes.now) ≤ (6 - length edges.old.items) * most_under level }
    requires full { 0 < length bytes.now → room_outside side level (map shape_of edges.old.items) ≡ 0 }
    requires short { length bytes.now ≤ 2147483647 }
    requires low { level ≤ 11 }
    requires capacity { 6 ≤ vec_capacity edges.old }
    requires room { length w.old.holds + 5 + 5 * level ≤ 192 + length edges.old.items }
    ensures trees { All (IsTreeAt level) edges.new.items }
    ensures few { length edges.new.items ≤ 6 }
    ensures laid { IfOk result (λ _. AreLaid side level edges.old.items bytes.now edges.new.items) }
    ensures text { IfOk result (λ _. flat_map text edges.new.items ≡ beside side (flat_map text edges.old.items) bytes.now) }
    ensures traded { Trades w.old.holds edges.old.items edges.new.items w.new.holds }
    ensures took { IfOk result (λ _. length w.new.taken + nodes_of_all edges.old.items ≡ length w.old.taken + nodes_of_all edges.new.items) }
    ensures gained { GainedNodes w.old w.new }
    ensures kept { All (Contains edges.new.items) edges.old.items }
    ensures cause { IfErr result (λ x. IsCause P.size x w.old w.new) }
    ensures height { IfErr result (λ x. IsOfNoHeight x) }
{
    let most = most_under(level);
    let mut rest = bytes;
    while !rest.is_empty() {
        let (near, far) = parted(side, rest, most);
        match packed(alloc, pool, w, side, near, level) {
            Ok(edge) => place(edges, side, edge),
            Err(error) => return Err(error),
        }
        rest = far;
    }
    Ok(())
}

/// Puts one edge more at the side, for which there is room.
pub(crate) fn place(edges: &mut Vec<Edge>, side: Side, edge: Edge)
    requires { vec_len edges.old < vec_capacity edges.old }
    ensures items { edges.new.items ≡ placed side edges.old.items edge }
    ensures capacity { vec_capacity edges.old ≤ vec_capacity edges.new }
{
    match side {
        Side::Front => {
            let Ok(()) = edges.insert(0, edge) else {
                unreachable!()
            };
        }
        Side::Back => edges.push_reserved(edge),
    }
}

/// A tree over the bytes, cut into pieces from the left. It takes just as many numbers as it has nodes, and its hold is new.
/// After a refusal the worker's holds are as before.
pub fn from_pieces<P: Naming, B: Releaser>(
    alloc: Global,
    pool: &Pool<P, B>,
    w: &mut Worker<P>,
    bytes: &[u8],
) -> Result<Edge, NodeError>
    requires some { 0 < length bytes.now }
    requires short { length bytes.now ≤ 2147483647 }
    requires room { length w.old.holds ≤ 128 }
    ensures formed { IfOk result IsWellFormed }
    ensures tree { IfOk result (λ e. IsTree (shape_of e)) }
    ensures shape { IfOk result (λ e. shape_of e ≡ new_shape (length bytes.now)) }
    ensures text { IfOk result (λ e. text e ≡ bytes.now) }
    ensures made { IfOk result (IsMadeFrom [] [] w.old w.new) }
    ensures took { IfOk result (λ e. length w.new.taken ≡ length w.old.taken + nodes_in (shape_of e)) }
    ensures few { IfOk result (λ e. nodes_in (shape_of e) ≤ 2 * piece_count (length bytes.now)) }
    ensures refused { IfErr result (λ x. IsRefusedFrom P.size [] x w.old w.new) }
{
    let level = level_for(piece_count(bytes.len()));
    packed(alloc, pool, w, Side::Back, bytes, level)
}
