//! Bytes added at a side of a tree.
ghost use Rattle.std.specs.Prelude.{◌≡◌, ℕ, suc, ◌+◌, ◌-◌, ◌*◌, ◌<◌, ◌≤◌, [], ◌∷◌, ◌++◌, length, map, sum_by, vec_capacity, All, Err, IfOk, IfErr};
ghost use Rattle.tree_shapes.specs.Shape.{level, IsTree};
ghost use Rattle.node_edges.specs.Text.{text};
ghost use Rattle.node_edges.specs.Trees.{shape_of, IsTreeAt, IsFilled};
ghost use Rattle.pool_rule.specs.Trades.{HasHolds, Stands, Trades};
ghost use Rattle.tree_shapes.specs.Flats.{piece_count, with_bytes};
ghost use Rattle.tree_shapes.specs.Growth.{placed, beside, wrapped};
ghost use Rattle.tree_shapes.specs.Room.{most_under, room_at};
ghost use Rattle.node_pool.specs.declared.refusals.NodeError.TheVariants.{HeightLimit};
ghost use Rattle.btree_node.specs.Made.{IsMadeFrom, IsRefusedFrom, IsLeftAlone};
ghost use Rattle.btree_edit.specs.Steps.{IsGrownFrom};
ghost use Rattle.btree_edit.specs.Trees.{lifted_room, kept, kept_under, kept_beside, HasTakenIn, IsLaidOver};

use crate::opening::{level_beside, lifted_room};
use crate::packing::{gathered, place};
use crate::widths::{parted, piece_count};
use btree_node::{branch_of, level_of, outermost, room_at};
use cord_port::Releaser;
use node_pool::{Edge, Memory, Naming, NodeError, Pool, Side, Worker};
use std::alloc::Global;

/// Copies of the edges and of one at the side, with room for 6.
fn beside(alloc: Global, side: Side, edges: &[Edge], one: &Edge) -> Result<Vec<Edge>, Memory>
    requires { length edges.now ≤ 5 }
    ensures copied { IfOk result (λ v. v.items ≡ placed side edges.now one.now) }
    ensures capacity { IfOk result (λ v. 6 ≤ vec_capacity v) }
{
    let mut copies = Vec::with_capacity(alloc, 6)?;
    for edge in edges {
        copies.push_reserved(edge.again()?);
    }
    place(&mut copies, side, one.again()?);
    Ok(copies)
}

/// A Branch of edges that are shared, of an edge whose hold is used up, and of trees over the bytes behind it.
fn laid_over<P: Naming, B: Releaser>(
    alloc: Global,
    pool: &Pool<P, B>,
    w: &mut Worker<P>,
    side: Side,
    height: u8,
    siblings: &[Edge],
    child: &Edge,
    bytes: &[u8],
) -> Result<Edge, NodeError>
    requires stand { All (Stands w.old.holds) siblings.now }
    requires held { HasHolds w.old.holds (child.now ∷ []) }
    requires siblings { All (IsTreeAt height) siblings.now }
    requires child { IsTreeAt height child.now }
    requires few { length siblings.now ≤ 5 }
    requires fits { piece_count (length bytes.now) ≤ (6 - suc (length siblings.now)) * most_under height }
    requires full { 0 < length bytes.now → room_at side height (shape_of child.now) ≡ 0 }
    requires short { sum_by (λ e. e.0.length) siblings.now + child.now.0.length + length bytes.now ≤ 2147483647 }
    requires low { height ≤ 11 }
    requires room { length w.old.holds + 5 * height ≤ 188 }
    ensures tree { IfOk result (IsLaidOver side height (placed side siblings.now child.now) bytes.now) }
    ensures made { IfOk result (IsMadeFrom (child.now ∷ []) (siblings.now ++ child.now ∷ []) w.old w.new) }
    ensures refused { IfErr result (λ x. IsRefusedFrom P.size (child.now ∷ []) x w.old w.new) }
{
    let Ok(mut edges) = beside(alloc, side, siblings, child) else {
        pool.finish(w, child);
        return Err(NodeError::Memory);
    };
    pool.share_all(w, siblings);
    match gathered(alloc, pool, w, side, bytes, height, &mut edges) {
        Ok(()) => branch_of(alloc, pool, w, height, &edges),
        Err(error) => {
            pool.finish_all(w, &edges);
            Err(error)
        }
    }
}

/// The tree with bytes behind it, for which it has room. Nodes without room are shared.
fn with_room<P: Naming, B: Releaser>(
    alloc: Global,
    pool: &Pool<P, B>,
    w: &mut Worker<P>,
    tree: &Edge,
    side: Side,
    level: u8,
    bytes: &[u8],
) -> Result<Edge, NodeError>
    requires stands { Stands w.old.holds tree.now }
    requires tree { IsTreeAt level tree.now }
    requires fits { piece_count (length bytes.now) ≤ room_at side level (shape_of tree.now) }
    requires short { tree.now.0.length + length bytes.now ≤ 2147483647 }
    requires low { level ≤ 12 }
    requires room { length w.old.holds + 5 * level ≤ 192 }
    ensures tree { IfOk result (HasTakenIn side level (shape_of tree.now) (text tree.now) bytes.now) }
    ensures made { IfOk result (IsGrownFrom level tree.now (kept side level tree.now (piece_count (length bytes.now))) w.old w.new) }
    ensures refused { IfErr result (λ x. IsRefusedFrom P.size [] x w.old w.new) }
{
    if bytes.is_empty() {
        let Ok(again) = tree.again() else {
            return Err(NodeError::Memory);
        };
        pool.share(w, tree);
        return Ok(again);
    }
    let height = level - 1;
    let (siblings, last) = outermost(tree, side, height);
    let (near, far) = parted(side, bytes, room_at(last, side, height));
    let child = with_room(alloc, pool, w, last, side, height, near)?;
    laid_over(alloc, pool, w, side, height, siblings, &child, far)
}

/// The same, where the tree comes under Branches up to this level.
fn lifted<P: Naming, B: Releaser>(
    alloc: Global,
    pool: &Pool<P, B>,
    w: &mut Worker<P>,
    tree: &Edge,
    side: Side,
    base: u8,
    level: u8,
    bytes: &[u8],
) -> Result<Edge, NodeError>
    requires stands { Stands w.old.holds tree.now }
    requires tree { IsTreeAt base tree.now }
    requires above { base ≤ level }
    requires fits { piece_count (length bytes.now) ≤ lifted_room side (shape_of tree.now) base level }
    requires short { tree.now.0.length + length bytes.now ≤ 2147483647 }
    requires low { level ≤ 12 }
    requires room { length w.old.holds + 5 * level ≤ 192 }
    ensures tree { IfOk result (HasTakenIn side level (wrapped (level - base) (shape_of tree.now)) (text tree.now) bytes.now) }
    ensures made { IfOk result (IsGrownFrom base tree.now (kept_under side base tree.now (piece_count (length bytes.now))) w.old w.new) }
    ensures refused { IfErr result (λ x. IsRefusedFrom P.size [] x w.old w.new) }
{
    if level == base {
        return with_room(alloc, pool, w, tree, side, base, bytes);
    }
    let height = level - 1;
    let (near, far) = parted(side, bytes, lifted_room(tree, side, base, height));
    let child = lifted(alloc, pool, w, tree, side, base, height, near)?;
    laid_over(alloc, pool, w, side, height, &[], &child, far)
}

/// A tree with the bytes at a side of this one, cut into pieces from the left. The worker's holds stay, and one of the new tree is added.
/// After a refusal they are as before; HeightLimit comes just where a new root would have the height 12.
pub fn with_bytes<P: Naming, B: Releaser>(
    alloc: Global,
    pool: &Pool<P, B>,
    w: &mut Worker<P>,
    tree: &Edge,
    bytes: &[u8],
    side: Side,
) -> Result<Edge, NodeError>
    requires stands { Stands w.old.holds tree.now }
    requires tree { IsTree (shape_of tree.now) }
    requires filled { IsFilled tree.now }
    requires some { 0 < length bytes.now }
    requires short { tree.now.0.length + length bytes.now ≤ 2147483647 }
    requires room { length w.old.holds ≤ 128 }
    ensures shape { IfOk result (λ e. shape_of e ≡ with_bytes side (shape_of tree.now) (length bytes.now)) }
    ensures text { IfOk result (λ e. text e ≡ beside side (text tree.now) bytes.now) }
    ensures tree { IfOk result (λ e. IsTree (shape_of e)) }
    ensures filled { IfOk result (λ e. IsFilled e) }
    ensures made { IfOk result (IsMadeFrom [] (kept_beside side tree.now (length bytes.now)) w.old w.new) }
    ensures few { IfOk result (λ _. length w.new.taken ≤ length w.old.taken + 25 * piece_count (length bytes.now)) }
    ensures high { 12 < level (with_bytes side (shape_of tree.now) (length bytes.now)) → result ≡ Err (HeightLimit 12) }
    ensures refused { IfErr result (λ x. IsLeftAlone P.size (with_bytes side (shape_of tree.now) (length bytes.now)) x w.old w.new) }
{
    let base = level_of(tree);
    let Some(level) = level_beside(tree, side, base, piece_count(bytes.len())) else {
        return Err(NodeError::HeightLimit { height: 12 });
    };
    lifted(alloc, pool, w, tree, side, base, level, bytes)
}

/// Adds the bytes at a side of the tree, cut into pieces from the left; none changes nothing. The root's hold becomes one of the new
/// root. After a refusal the worker's holds and the root are as before; HeightLimit comes just where a new root would have the height 12.
pub fn add_bytes<P: Naming, B: Releaser>(
    alloc: Global,
    pool: &Pool<P, B>,
    w: &mut Worker<P>,
    root: &mut Edge,
    bytes: &[u8],
    side: Side,
) -> Result<(), NodeError>
    requires held { HasHolds w.old.holds (root.old ∷ []) }
    requires tree { IsTree (shape_of root.old) }
    requires filled { IsFilled root.old }
    requires short { root.old.0.length + length bytes.now ≤ 2147483647 }
    requires room { length w.old.holds ≤ 128 }
    ensures shape { IfOk result (λ _. shape_of root.new ≡ with_bytes side (shape_of root.old) (length bytes.now)) }
    ensures text { IfOk result (λ _. text root.new ≡ beside side (text root.old) bytes.now) }
    ensures tree { IfOk result (λ _. IsTree (shape_of root.new)) }
    ensures filled { IfOk result (λ _. IsFilled root.new) }
    ensures made { IfOk result (λ _. IsMadeFrom (root.old ∷ []) (kept_beside side root.old (length bytes.now)) w.old w.new root.new) }
    ensures few { IfOk result (λ _. length w.new.taken ≤ length w.old.taken + 25 * piece_count (length bytes.now)) }
    ensures high { 12 < level (with_bytes side (shape_of root.old) (length bytes.now)) → result ≡ Err (HeightLimit 12) }
    ensures refused { IfErr result (λ x. IsLeftAlone P.size (with_bytes side (shape_of root.old) (length bytes.now)) x w.old w.new) }
    ensures stays { IfErr result (λ _. root.new ≡ root.old) }
{
    if bytes.is_empty() {
        return Ok(());
    }
    match with_bytes(alloc, pool, w, root, bytes, side) {
        Ok(made) => {
            pool.finish(w, root);
            *root = made;
            Ok(())
        }
        Err(error) => Err(error),
    }
}
