//! Bytes added behind in place, where the last flat has room for them and nobody else holds the way down to it.
ghost use Rattle.std.specs.Prelude.{◌≡◌, ◌≢◌, ◌⊎◌, ◌↔◌, ◌++◌, ◌+◌, ◌≤◌, length, Some, IsTrue, IfOk, IfErr, OnErr};
ghost use Rattle.node_forest.specs.declared.kind.Kind.TheVariants as kinds;
ghost use Rattle.node_forest.specs.declared.side.Side.TheVariants as sides;
ghost use Rattle.node_edges.specs.Text.{text};
ghost use Rattle.node_edges.specs.Trees.{IsWellFormed};
ghost use Rattle.cord_value.specs.declared.refusals.CordError.TheVariants as errors;
ghost use Rattle.cord_value.specs.Filling.{HasRoomBehind, CanFill, WasShared, IsShared, IsPlaced, IsGrownAfter, IsBalancedAfter};
ghost use Rattle.cord_value.specs.Forms.{IsKept};
ghost use Rattle.cord_value.specs.Grown.{tree_cord, IsGrowRefused};

use crate::cord::{Cord, Form, MOST_BYTES};
use crate::growing::grow_tree;
use crate::refusals::CordError;
use btree_edit::{path_behind, room_behind};
use btree_node::lone_depth;
use cord_port::Releaser;
use flat_nodes::grow_flat;
use node_pool::{Body, Edge, Naming, Pass, Pool, Side, Worker};
use std::alloc::Global;

impl<P: Naming> Cord<P> {
    /// Adds the bytes behind (`cord.h`, `Append`). Where the last flat has room for all of them and looks find that nobody else holds a node
    /// on the way down to it, they go there: the tree keeps its numbers, and no number, no pass and no share is needed. Else they are added
    /// as by `append_bytes`, after the look that found it out.
    pub fn append_filling<B: Releaser>(
        &mut self,
        alloc: Global,
        pool: &Pool<P, B>,
        w: &mut Worker<P>,
        bytes: &[u8],
    ) -> Result<(), CordError>
        requires room { length w.old.holds ≤ 96 }
        ensures bytes { IfOk result (λ _. self.new.bytes ≡ self.old.bytes ++ bytes.now) }
        ensures grown { IfOk result (λ _. IsGrownAfter P.limit (length bytes.now) self.old self.new w.old w.new) }
        ensures placed { CanFill (length bytes.now) self.old.tree → IfOk result (λ _. IsPlaced bytes.now self.old.tree self.new.tree w.old w.new) }
        ensures refused { IfErr result (λ x. IsGrowRefused P.size P.limit sides.Back (length bytes.now) self.old x w.old w.new) }
        ensures balanced { IfErr result (λ x. IsBalancedAfter P.limit x w.old w.new) }
        ensures shared_if_err { CanFill (length bytes.now) self.old.tree → IfErr result (λ x. (x ≡ errors.Memory) ⊎ IsShared self.old.tree w.old w.new) }
        ensures same { OnErr result (self.new ≡ self.old) }
    {
        if !self.has_room(bytes.len()) {
            return self.append_bytes(alloc, pool, w, bytes);
        }
        match &mut self.form {
            Form::Inline(_) => unreachable!(),
            Form::Tree { pass, root } => fill_tree(alloc, pool, w, pass, root, bytes),
        }
    }

    /// Whether the last flat of the tree has room for so many bytes.
    fn has_room(&self, n: usize) -> bool
        ensures { IsTrue result ↔ CanFill n self.now.tree }
    {
        match &self.form {
            Form::Inline(_) => false,
            Form::Tree { root, .. } => has_room_behind(root, n),
        }
    }
}

fn is_bare(root: &Edge) -> bool
    ensures { IsTrue result ↔ (root.now.0.kind ≢ kinds.Sum) }
{
    match root.body() {
        Body::Sum { .. } => false,
        _ => true,
    }
}

/// Whether so many bytes fit the room of the tree's last flat.
fn has_room_behind(root: &Edge, n: usize) -> bool
    requires formed { IsWellFormed root.now }
    requires short { root.now.0.length ≤ 2147483647 }
    ensures { IsTrue result ↔ HasRoomBehind n root.now }
{
    if n == 0 || !is_bare(root) {
        return false;
    }
    if n > room_behind(root) as usize {
        return false;
    }
    root.length() + n as u64 <= MOST_BYTES as u64
}

/// The tree of a pass with bytes behind: in its last flat, where looks find the way down to it lone.
fn fill_tree<P: Naming, B: Releaser>(
    alloc: Global,
    pool: &Pool<P, B>,
    w: &mut Worker<P>,
    pass: &mut Pass<P>,
    root: &mut Edge,
    bytes: &[u8],
) -> Result<(), CordError>
    requires room { length w.old.holds ≤ 96 }
    requires kept { IsKept pass.old.holds root.old }
    requires fits { HasRoomBehind (length bytes.now) root.old }
    ensures kept { IsKept pass.new.holds root.new }
    ensures bytes { IfOk result (λ _. text root.new ≡ text root.old ++ bytes.now) }
    ensures grown { IfOk result (λ _. IsGrownAfter P.limit (length bytes.now) (tree_cord root.old) (tree_cord root.new) w.old w.new) }
    ensures placed { IfOk result (λ _. IsPlaced bytes.now (Some root.old) (Some root.new) w.old w.new) }
    ensures refused { IfErr result (λ x. IsGrowRefused P.size P.limit sides.Back (length bytes.now) (tree_cord root.old) x w.old w.new) }
    ensures balanced { IfErr result (λ x. IsBalancedAfter P.limit x w.old w.new) }
    ensures shared_if_err { IfErr result (λ x. (x ≡ errors.Memory) ⊎ WasShared root.old w.old w.new) }
    ensures same { OnErr result (root.new ≡ root.old) }
{
    pool.draw(w, pass);
    let path = path_behind(root);
    let lone = lone_depth(pool, w, root, path.as_slice());
    if usize::from(lone) <= path.len() {
        pool.fill(w, pass, root);
        return grow_tree(alloc, pool, w, pass, root, bytes, Side::Back);
    }
    match grow_flat(alloc, pool, w, root, path.as_slice(), bytes) {
        Ok(()) => {
            pool.fill(w, pass, root);
            Ok(())
        }
        Err(_) => {
            pool.fill(w, pass, root);
            Err(CordError::Memory)
        }
    }
}
