//! Cords added to a cord.
ghost use Rattle.std.specs.Prelude.{◌≡◌, ◌++◌, ◌+◌, ◌<◌, ◌≤◌, false, length, Some, IfOk, IfErr, OnErr};
ghost use Rattle.node_forest.specs.declared.side.Side.{Side as Side_value};
ghost use Rattle.node_forest.specs.declared.side.Side.TheVariants as sides;
ghost use Rattle.tree_shapes.specs.Cords.{IsBytesAdded, IsCordAdded, IsDoubled, with_bytes_added, with_cord_added, doubled};
ghost use Rattle.tree_shapes.specs.Growth.{beside};
ghost use Rattle.tree_shapes.specs.Shape.{IsTree};
ghost use Rattle.node_edges.specs.Text.{text};
ghost use Rattle.node_edges.specs.Trees.{shape_of, IsFilled};
ghost use Rattle.pool_rule.specs.Trades.{Stands};
ghost use Rattle.cord_value.specs.Changes.{IsChange, IsRefused};
ghost use Rattle.cord_value.specs.Forms.{IsKept};
ghost use Rattle.cord_value.specs.Grown.{tree_cord};
ghost use Rattle.cord_value.specs.Joined.{shared_shape};
ghost use Rattle.cord_value.specs.Refusals.{IsBalanced};
ghost use Rattle.cord_value.specs.Views.{cord_shape, IsTreeOf};

use crate::cord::{Cord, Form, MOST_BYTES};
use crate::inline::{MOST_COPIED, copied_bytes};
use crate::refusals::CordError;
use crate::sharing::{join_trees, joined_inline};
use arrayvec::ArrayVec;
use cord_port::Releaser;
use node_edges::skip_sum;
use node_pool::{Edge, Naming, Pass, Pool, Side, Worker};
use std::alloc::Global;

impl<P: Naming> Cord<P> {
    /// Adds another cord behind (`cord.h`, `Append`). A source of at most 511 bytes is copied (`cord_internal.h`, `kMaxBytesToCopy`); of a longer one
    /// the tree is shared, without its sum. The other cord stays as it is. No byte added changes nothing and keeps the sum.
    pub fn append_cord<B: Releaser>(
        &mut self,
        alloc: Global,
        pool: &Pool<P, B>,
        w: &mut Worker<P>,
        other: &mut Cord<P>,
    ) -> Result<(), CordError>
        requires room { length w.old.holds ≤ 96 }
        ensures bytes { IfOk result (λ _. self.new.bytes ≡ self.old.bytes ++ other.old.bytes) }
        ensures shape { IfOk result (λ _. IsCordAdded sides.Back (cord_shape other.old) (cord_shape self.old) (cord_shape self.new)) }
        ensures change { IfOk result (λ _. IsChange P.limit 32 self.old self.new w.old w.new) }
        ensures some { IfErr result (λ _. 0 < length other.old.bytes) }
        ensures refused { IfErr result
            (λ x. IsRefused P.size P.limit self.old.tree (with_cord_added false sides.Back (cord_shape other.old) (cord_shape self.old)) x w.old w.new) }
        ensures balanced { IfErr result (λ x. IsBalanced P.limit x w.old w.new) }
        ensures same { OnErr result (self.new ≡ self.old) }
        ensures source { other.new ≡ other.old }
    {
        self.join(alloc, pool, w, other, Side::Back)
    }

    /// The same in front (`cord.h`, `Prepend`).
    pub fn prepend_cord<B: Releaser>(
        &mut self,
        alloc: Global,
        pool: &Pool<P, B>,
        w: &mut Worker<P>,
        other: &mut Cord<P>,
    ) -> Result<(), CordError>
        requires room { length w.old.holds ≤ 96 }
        ensures bytes { IfOk result (λ _. self.new.bytes ≡ other.old.bytes ++ self.old.bytes) }
        ensures shape { IfOk result (λ _. IsCordAdded sides.Front (cord_shape other.old) (cord_shape self.old) (cord_shape self.new)) }
        ensures change { IfOk result (λ _. IsChange P.limit 32 self.old self.new w.old w.new) }
        ensures some { IfErr result (λ _. 0 < length other.old.bytes) }
        ensures refused { IfErr result
            (λ x. IsRefused P.size P.limit self.old.tree (with_cord_added false sides.Front (cord_shape other.old) (cord_shape self.old)) x w.old w.new) }
        ensures balanced { IfErr result (λ x. IsBalanced P.limit x w.old w.new) }
        ensures same { OnErr result (self.new ≡ self.old) }
        ensures source { other.new ≡ other.old }
    {
        self.join(alloc, pool, w, other, Side::Front)
    }

    /// Adds the cord to itself, behind. Whether its bytes are copied or its tree is shared goes by its length before.
    pub fn double<B: Releaser>(
        &mut self,
        alloc: Global,
        pool: &Pool<P, B>,
        w: &mut Worker<P>,
    ) -> Result<(), CordError>
        requires room { length w.old.holds ≤ 96 }
        ensures bytes { IfOk result (λ _. self.new.bytes ≡ self.old.bytes ++ self.old.bytes) }
        ensures shape { IfOk result (λ _. IsDoubled (cord_shape self.old) (cord_shape self.new)) }
        ensures change { IfOk result (λ _. IsChange P.limit 32 self.old self.new w.old w.new) }
        ensures some { IfErr result (λ _. 0 < length self.old.bytes) }
        ensures refused { IfErr result (λ x. IsRefused P.size P.limit self.old.tree (doubled false (cord_shape self.old)) x w.old w.new) }
        ensures balanced { IfErr result (λ x. IsBalanced P.limit x w.old w.new) }
        ensures same { OnErr result (self.new ≡ self.old) }
    {
        let size = self.len();
        if size == 0 {
            return Ok(());
        }
        let asked = size + size;
        if asked > MOST_BYTES as u64 {
            return Err(CordError::LengthLimit { asked });
        }
        if size <= MOST_COPIED as u64 {
            let copy = few_bytes(self);
            return self.add_few(alloc, pool, w, copy.as_slice(), Side::Back);
        }
        match &mut self.form {
            Form::Inline(_) => unreachable!(),
            Form::Tree { pass, root } => double_tree(alloc, pool, w, pass, root),
        }
    }

    /// Adds the other cord at a side.
    fn join<B: Releaser>(
        &mut self,
        alloc: Global,
        pool: &Pool<P, B>,
        w: &mut Worker<P>,
        other: &mut Cord<P>,
        side: Side,
    ) -> Result<(), CordError>
        requires room { length w.old.holds ≤ 96 }
        ensures bytes { IfOk result (λ _. self.new.bytes ≡ beside side self.old.bytes other.old.bytes) }
        ensures shape { IfOk result (λ _. IsCordAdded side (cord_shape other.old) (cord_shape self.old) (cord_shape self.new)) }
        ensures change { IfOk result (λ _. IsChange P.limit 32 self.old self.new w.old w.new) }
        ensures some { IfErr result (λ _. 0 < length other.old.bytes) }
        ensures refused { IfErr result
            (λ x. IsRefused P.size P.limit self.old.tree (with_cord_added false side (cord_shape other.old) (cord_shape self.old)) x w.old w.new) }
        ensures balanced { IfErr result (λ x. IsBalanced P.limit x w.old w.new) }
        ensures same { OnErr result (self.new ≡ self.old) }
        ensures source { other.new ≡ other.old }
    {
        let size = self.len();
        let more = other.len();
        if more == 0 {
            return Ok(());
        }
        let asked = size + more;
        if asked > MOST_BYTES as u64 {
            return Err(CordError::LengthLimit { asked });
        }
        if more <= MOST_COPIED as u64 {
            let copy = few_bytes(other);
            return self.add_few(alloc, pool, w, copy.as_slice(), side);
        }
        match &mut other.form {
            Form::Inline(_) => unreachable!(),
            Form::Tree { pass, root } => self.join_tree(alloc, pool, w, pass, root, side),
        }
    }

    /// Adds few bytes at a side.
    fn add_few<B: Releaser>(
        &mut self,
        alloc: Global,
        pool: &Pool<P, B>,
        w: &mut Worker<P>,
        bytes: &[u8],
        side: Side,
    ) -> Result<(), CordError>
        requires room { length w.old.holds ≤ 96 }
        requires formed { IsTreeOf self.old.bytes self.old.tree }
        requires few { length bytes.now ≤ 511 }
        ensures bytes { IfOk result (λ _. self.new.bytes ≡ beside side self.old.bytes bytes.now) }
        ensures shape { IfOk result (λ _. IsBytesAdded side (length bytes.now) (cord_shape self.old) (cord_shape self.new)) }
        ensures change { IfOk result (λ _. IsChange P.limit 32 self.old self.new w.old w.new) }
        ensures refused { IfErr result
            (λ x. IsRefused P.size P.limit self.old.tree (with_bytes_added false side (length bytes.now) (cord_shape self.old)) x w.old w.new) }
        ensures balanced { IfErr result (λ x. IsBalanced P.limit x w.old w.new) }
        ensures same { OnErr result (self.new ≡ self.old) }
    {
        self.add(alloc, pool, w, bytes, side)
    }

    /// Adds the tree of another cord's pass, without its sum. It is drawn while the other tree is made, and fills its pass again.
    fn join_tree<B: Releaser>(
        &mut self,
        alloc: Global,
        pool: &Pool<P, B>,
        w: &mut Worker<P>,
        pass: &mut Pass<P>,
        root: &Edge,
        side: Side,
    ) -> Result<(), CordError>
        requires room { length w.old.holds ≤ 96 }
        requires kept { IsKept pass.old.holds root.now }
        requires long { 511 < root.now.0.length }
        requires short { length self.old.bytes + root.now.0.length ≤ 2147483647 }
        ensures full { IsKept pass.new.holds root.now }
        ensures bytes { IfOk result (λ _. self.new.bytes ≡ beside side self.old.bytes (text root.now)) }
        ensures shape { IfOk result (λ _. cord_shape self.new ≡ with_cord_added false side (cord_shape (tree_cord root.now)) (cord_shape self.old)) }
        ensures change { IfOk result (λ _. IsChange P.limit 32 self.old self.new w.old w.new) }
        ensures refused { IfErr result
            (λ x. IsRefused P.size P.limit self.old.tree (with_cord_added false side (cord_shape (tree_cord root.now)) (cord_shape self.old))
            x w.old w.new) }
        ensures balanced { IfErr result (λ x. IsBalanced P.limit x w.old w.new) }
        ensures same { OnErr result (self.new ≡ self.old) }
    {
        let Some(tree) = skip_sum(root) else {
            unreachable!()
        };
        pool.draw(w, pass);
        let joined = self.join_drawn(alloc, pool, w, tree, side);
        pool.fill(w, pass, root);
        joined
    }

    /// Adds a tree that stands in the worker's holds.
    fn join_drawn<B: Releaser>(
        &mut self,
        alloc: Global,
        pool: &Pool<P, B>,
        w: &mut Worker<P>,
        tree: &Edge,
        side: Side,
    ) -> Result<(), CordError>
        requires room { length w.old.holds ≤ 97 }
        requires stands { Stands w.old.holds tree.now }
        requires tree { IsTree (shape_of tree.now) }
        requires filled { IsFilled tree.now }
        requires long { 511 < tree.now.0.length }
        requires short { length self.old.bytes + tree.now.0.length ≤ 2147483647 }
        ensures bytes { IfOk result (λ _. self.new.bytes ≡ beside side self.old.bytes (text tree.now)) }
        ensures shape { IfOk result (λ _. cord_shape self.new ≡ shared_shape side tree.now self.old) }
        ensures change { IfOk result (λ _. IsChange P.limit 32 self.old self.new w.old w.new) }
        ensures refused { IfErr result (λ x. IsRefused P.size P.limit self.old.tree (shared_shape side tree.now self.old) x w.old w.new) }
        ensures balanced { IfErr result (λ x. IsBalanced P.limit x w.old w.new) }
        ensures same { OnErr result (self.new ≡ self.old) }
    {
        match &mut self.form {
            Form::Inline(inline) => {
                let made = joined_inline(alloc, pool, w, inline.as_slice(), tree, side)?;
                *self = made;
                Ok(())
            }
            Form::Tree { pass, root } => join_trees(alloc, pool, w, pass, root, tree, side),
        }
    }
}

/// The bytes of a cord of few.
fn few_bytes<P: Naming>(cord: &Cord<P>) -> ArrayVec<u8, MOST_COPIED>
    requires few { length cord.now.bytes ≤ 511 }
    ensures { result.items ≡ cord.now.bytes }
{
    copied_bytes(&mut cord.chunks(), cord.len() as usize)
}

/// The tree of a pass, without its sum, with itself behind.
fn double_tree<P: Naming, B: Releaser>(
    alloc: Global,
    pool: &Pool<P, B>,
    w: &mut Worker<P>,
    pass: &mut Pass<P>,
    root: &mut Edge,
) -> Result<(), CordError>
    requires room { length w.old.holds ≤ 96 }
    requires kept { IsKept pass.old.holds root.old }
    requires long { 511 < root.old.0.length }
    requires short { root.old.0.length + root.old.0.length ≤ 2147483647 }
    ensures kept { IsKept pass.new.holds root.new }
    ensures bytes { IfOk result (λ _. text root.new ≡ text root.old ++ text root.old) }
    ensures shape { IfOk result (λ _. cord_shape (tree_cord root.new) ≡ doubled false (cord_shape (tree_cord root.old))) }
    ensures change { IfOk result (λ _. IsChange P.limit 32 (tree_cord root.old) (tree_cord root.new) w.old w.new) }
    ensures refused { IfErr result
        (λ x. IsRefused P.size P.limit (Some root.old) (doubled false (cord_shape (tree_cord root.old))) x w.old w.new) }
    ensures balanced { IfErr result (λ x. IsBalanced P.limit x w.old w.new) }
    ensures same { OnErr result (root.new ≡ root.old) }
{
    let Some(below) = skip_sum(root) else {
        unreachable!()
    };
    let Ok(tree) = below.again() else {
        return Err(CordError::Memory);
    };
    join_trees(alloc, pool, w, pass, root, &tree, Side::Back)
}
