//! A tree that is shared, at a side of a cord's own.
ghost use Rattle.std.specs.Prelude.{◌≡◌, ◌++◌, ◌+◌, ◌≤◌, ◌<◌, [], ◌∷◌, true, false, length, Some, None, Err, IfOk, IfErr, OnErr};
ghost use Rattle.tree_shapes.specs.Cords.{without_sum, rooted, NeedsHeight12};
ghost use Rattle.tree_shapes.specs.Growth.{beside};
ghost use Rattle.tree_shapes.specs.Merge.{across};
ghost use Rattle.tree_shapes.specs.Shape.{level, IsTree};
ghost use Rattle.node_edges.specs.Text.{text};
ghost use Rattle.node_edges.specs.Trees.{shape_of, IsFilled, IsWellFormed};
ghost use Rattle.pool_rule.specs.Trades.{HasHolds, Stands};
ghost use Rattle.node_pool.specs.declared.refusals.NodeError.TheVariants.{HeightLimit};
ghost use Rattle.btree_node.specs.Made.{IsLeftAlone, IsRefusedFrom};
ghost use Rattle.cord_value.specs.Changes.{IsChange, IsRefused};
ghost use Rattle.cord_value.specs.Forms.{IsKept};
ghost use Rattle.cord_value.specs.Grown.{inline_cord, tree_cord, IsMadeBeside};
ghost use Rattle.cord_value.specs.Joined.{joined_to, shared_shape};
ghost use Rattle.cord_value.specs.Refusals.{IsBalanced};
ghost use Rattle.cord_value.specs.Views.{cord_shape};

use crate::cord::{Cord, Form};
use crate::refusals::CordError;
use crate::settling::replace_tree;
use btree_merge::merged;
use btree_node::{level_of, room_at};
use cord_port::Releaser;
use flat_nodes::new_flat;
use node_edges::skip_sum;
use node_pool::{Edge, Naming, NodeError, Pass, Pool, Side, Worker};
use std::alloc::Global;

/// The tree of a pass with another at a side, which may stand in the first one too.
pub(crate) fn join_trees<P: Naming, B: Releaser>(
    alloc: Global,
    pool: &Pool<P, B>,
    w: &mut Worker<P>,
    pass: &mut Pass<P>,
    root: &mut Edge,
    tree: &Edge,
    side: Side,
) -> Result<(), CordError>
    requires room { length w.old.holds ≤ 97 }
    requires kept { IsKept pass.old.holds root.old }
    requires stands { Stands (w.old.holds ++ pass.old.holds) tree.now }
    requires tree { IsTree (shape_of tree.now) }
    requires filled { IsFilled tree.now }
    requires long { 511 < tree.now.0.length }
    requires short { root.old.0.length + tree.now.0.length ≤ 2147483647 }
    ensures kept { IsKept pass.new.holds root.new }
    ensures bytes { IfOk result (λ _. text root.new ≡ beside side (text root.old) (text tree.now)) }
    ensures shape { IfOk result (λ _. cord_shape (tree_cord root.new) ≡ shared_shape side tree.now (tree_cord root.old)) }
    ensures change { IfOk result (λ _. IsChange P.limit 32 (tree_cord root.old) (tree_cord root.new) w.old w.new) }
    ensures refused { IfErr result
        (λ x. IsRefused P.size P.limit (Some root.old) (shared_shape side tree.now (tree_cord root.old)) x w.old w.new) }
    ensures balanced { IfErr result (λ x. IsBalanced P.limit x w.old w.new) }
    ensures same { OnErr result (root.new ≡ root.old) }
{
    pool.draw(w, pass);
    match beside_tree(alloc, pool, w, root, tree, side) {
        Ok(made) => {
            replace_tree(pool, w, pass, root, made);
            Ok(())
        }
        Err(error) => {
            pool.fill(w, pass, root);
            Err(error.into())
        }
    }
}

/// What stands below a Sum at the root, with a tree at a side; a share of that tree, where nothing stands there.
fn beside_tree<P: Naming, B: Releaser>(
    alloc: Global,
    pool: &Pool<P, B>,
    w: &mut Worker<P>,
    root: &Edge,
    tree: &Edge,
    side: Side,
) -> Result<Edge, NodeError>
    requires held { HasHolds w.old.holds (root.now ∷ []) }
    requires formed { IsWellFormed root.now }
    requires stands { Stands w.old.holds tree.now }
    requires tree { IsTree (shape_of tree.now) }
    requires filled { IsFilled tree.now }
    requires short { root.now.0.length + tree.now.0.length ≤ 2147483647 }
    requires room { length w.old.holds ≤ 128 }
    ensures tree { IfOk result (λ e. IsTree (shape_of e) × IsFilled e) }
    ensures shape { IfOk result (λ e. shape_of e ≡ joined_to side (without_sum (Some (shape_of root.now))) (shape_of tree.now)) }
    ensures text { IfOk result (λ e. text e ≡ beside side (text root.now) (text tree.now)) }
    ensures made { IfOk result (IsMadeBeside w.old w.new) }
    ensures few { IfOk result (λ _. length w.new.taken ≤ length w.old.taken + 32) }
    ensures high { 12 < level (joined_to side (without_sum (Some (shape_of root.now))) (shape_of tree.now)) → result ≡ Err (HeightLimit 12) }
    ensures refused { IfErr result
        (λ x. IsLeftAlone P.size (joined_to side (without_sum (Some (shape_of root.now))) (shape_of tree.now)) x w.old w.new) }
{
    match skip_sum(root) {
        Some(own) => merged(alloc, pool, w, own, tree, side),
        None => shared(pool, w, tree),
    }
}

/// A share of the tree.
fn shared<P: Naming, B: Releaser>(
    pool: &Pool<P, B>,
    w: &mut Worker<P>,
    tree: &Edge,
) -> Result<Edge, NodeError>
    requires stands { Stands w.old.holds tree.now }
    requires room { length w.old.holds ≤ 128 }
    ensures same { IfOk result (λ e. e ≡ tree.now) }
    ensures made { IfOk result (IsMadeBeside w.old w.new) }
    ensures none { IfOk result (λ _. w.new.taken ≡ w.old.taken) }
    ensures refused { IfErr result (λ x. IsRefusedFrom P.size [] x w.old w.new) }
{
    let Ok(root) = tree.again() else {
        return Err(NodeError::Memory);
    };
    pool.share(w, tree);
    Ok(root)
}

/// A cord of the inline bytes with a tree at a side.
pub(crate) fn joined_inline<P: Naming, B: Releaser>(
    alloc: Global,
    pool: &Pool<P, B>,
    w: &mut Worker<P>,
    inline: &[u8],
    tree: &Edge,
    side: Side,
) -> Result<Cord<P>, CordError>
    requires room { length w.old.holds ≤ 97 }
    requires inline { length inline.now ≤ 15 }
    requires stands { Stands w.old.holds tree.now }
    requires tree { IsTree (shape_of tree.now) }
    requires filled { IsFilled tree.now }
    requires long { 511 < tree.now.0.length }
    requires short { length inline.now + tree.now.0.length ≤ 2147483647 }
    ensures bytes { IfOk result (λ c. c.bytes ≡ beside side inline.now (text tree.now)) }
    ensures shape { IfOk result (λ c. cord_shape c ≡ shared_shape side tree.now (inline_cord inline.now)) }
    ensures change { IfOk result (λ c. IsChange P.limit 32 (inline_cord inline.now) c w.old w.new) }
    ensures refused { IfErr result (λ x. IsRefused P.size P.limit None (shared_shape side tree.now (inline_cord inline.now)) x w.old w.new) }
    ensures balanced { IfErr result (λ x. IsBalanced P.limit x w.old w.new) }
{
    if is_too_high(inline, tree, side) {
        return Err(CordError::HeightLimit { height: 12 });
    }
    let mut pass = pool.pass(w)?;
    match beside_bytes(alloc, pool, w, inline, tree, side) {
        Ok(root) => {
            pool.fill(w, &mut pass, &root);
            Ok(Cord {
                form: Form::Tree { pass, root },
            })
        }
        Err(error) => {
            pool.end(w, pass);
            Err(error.into())
        }
    }
}

/// Whether a flat of the bytes, if there are any, has no room at the other side of the tree and none above it.
fn is_too_high(bytes: &[u8], tree: &Edge, side: Side) -> bool
    requires few { length bytes.now ≤ 15 }
    requires tree { IsTree (shape_of tree.now) }
    requires filled { IsFilled tree.now }
    ensures high { result ≡ true → NeedsHeight12 (shared_shape side tree.now (inline_cord bytes.now)) }
    ensures low { result ≡ false → ¬ (NeedsHeight12 (shared_shape side tree.now (inline_cord bytes.now))) }
{
    if bytes.is_empty() {
        return false;
    }
    let level = level_of(tree);
    if level < 12 {
        return false;
    }
    room_at(tree, across(side), level) == 0
}

/// The other side.
fn across(side: Side) -> Side
    ensures { result ≡ across side }
{
    match side {
        Side::Front => Side::Back,
        Side::Back => Side::Front,
    }
}

/// A flat of the bytes with a tree at a side, which the flat only stands in then; a share of the tree, where there are no bytes.
fn beside_bytes<P: Naming, B: Releaser>(
    alloc: Global,
    pool: &Pool<P, B>,
    w: &mut Worker<P>,
    bytes: &[u8],
    tree: &Edge,
    side: Side,
) -> Result<Edge, NodeError>
    requires few { length bytes.now ≤ 15 }
    requires stands { Stands w.old.holds tree.now }
    requires tree { IsTree (shape_of tree.now) }
    requires filled { IsFilled tree.now }
    requires short { length bytes.now + tree.now.0.length ≤ 2147483647 }
    requires low { ¬ (NeedsHeight12 (shared_shape side tree.now (inline_cord bytes.now))) }
    requires room { length w.old.holds ≤ 128 }
    ensures tree { IfOk result (λ e. IsTree (shape_of e) × IsFilled e) }
    ensures shape { IfOk result (λ e. shape_of e ≡ joined_to side (rooted (length bytes.now) None) (shape_of tree.now)) }
    ensures text { IfOk result (λ e. text e ≡ beside side bytes.now (text tree.now)) }
    ensures made { IfOk result (IsMadeBeside w.old w.new) }
    ensures few { IfOk result (λ _. length w.new.taken ≤ length w.old.taken + 32) }
    ensures refused { IfErr result (λ x. IsRefusedFrom P.size [] x w.old w.new) }
{
    if bytes.is_empty() {
        return shared(pool, w, tree);
    }
    let flat = new_flat(alloc, pool, w, bytes)?;
    match merged(alloc, pool, w, &flat, tree, side) {
        Ok(made) => {
            pool.finish(w, &flat);
            Ok(made)
        }
        Err(error) => {
            pool.finish(w, &flat);
            Err(error)
        }
    }
}
