//! The expected checksum of a cord.
ghost use Rattle.std.specs.Prelude.{◌≡◌, ◌+◌, ◌≤◌, [], ◌∷◌, length, Some, None, IfOk, IfErr, OnErr};
ghost use Rattle.tree_shapes.specs.Cords.{rooted, with_sum as summed_shape, without_sum};
ghost use Rattle.tree_shapes.specs.Sums.{sum_over};
ghost use Rattle.node_edges.specs.Text.{text};
ghost use Rattle.node_edges.specs.Trees.{shape_of, IsWellFormed};
ghost use Rattle.pool_rule.specs.Trades.{HasHolds};
ghost use Rattle.btree_node.specs.Made.{IsRefusedFrom};
ghost use Rattle.cord_value.specs.Changes.{IsChange, IsRefused};
ghost use Rattle.cord_value.specs.Forms.{IsKept};
ghost use Rattle.cord_value.specs.Grown.{inline_cord, tree_cord, IsMadeBeside};
ghost use Rattle.cord_value.specs.Refusals.{IsBalanced};
ghost use Rattle.cord_value.specs.Views.{cord_shape, sum_in_cord};

use crate::cord::{Cord, Form};
use crate::refusals::CordError;
use crate::settling::replace_tree;
use cord_port::Releaser;
use crc_nodes::with_sum;
use flat_nodes::new_flat;
use node_edges::skip_sum;
use node_pool::{Body, Edge, Naming, NodeError, Pass, Pool, Worker};
use std::alloc::Global;
use std::slice;

impl<P: Naming> Cord<P> {
    /// The expected checksum, if one was set and the bytes weren't changed since (`cord.h`, `ExpectedChecksum`).
    pub fn sum(&self) -> Option<u32>
        ensures { result ≡ sum_in_cord self.now }
    {
        match &self.form {
            Form::Inline(_) => None,
            Form::Tree { root, .. } => match root.body() {
                Body::Sum { value, .. } => Some(*value),
                _ => None,
            },
        }
    }

    /// Sets the expected checksum (`cord.h`, `SetExpectedChecksum`) over the tree, in the place of one that was set before. An inline cord
    /// becomes a tree, of a flat or, where it is empty, of the Sum alone.
    pub fn set_sum<B: Releaser>(
        &mut self,
        alloc: Global,
        pool: &Pool<P, B>,
        w: &mut Worker<P>,
        value: u32,
    ) -> Result<(), CordError>
        requires room { length w.old.holds ≤ 96 }
        ensures bytes { IfOk result (λ _. self.new.bytes ≡ self.old.bytes) }
        ensures shape { IfOk result (λ _. cord_shape self.new ≡ summed_shape value (cord_shape self.old)) }
        ensures change { IfOk result (λ _. IsChange P.limit 2 self.old self.new w.old w.new) }
        ensures refused { IfErr result (λ x. IsRefused P.size P.limit self.old.tree (summed_shape value (cord_shape self.old)) x w.old w.new) }
        ensures balanced { IfErr result (λ x. IsBalanced P.limit x w.old w.new) }
        ensures same { OnErr result (self.new ≡ self.old) }
    {
        match &mut self.form {
            Form::Inline(inline) => {
                let made = summed_inline(alloc, pool, w, inline.as_slice(), value)?;
                *self = made;
                Ok(())
            }
            Form::Tree { pass, root } => sum_tree(alloc, pool, w, pass, root, value),
        }
    }
}

/// A cord of the inline bytes with a sum.
fn summed_inline<P: Naming, B: Releaser>(
    alloc: Global,
    pool: &Pool<P, B>,
    w: &mut Worker<P>,
    inline: &[u8],
    value: u32,
) -> Result<Cord<P>, CordError>
    requires room { length w.old.holds ≤ 96 }
    requires inline { length inline.now ≤ 15 }
    ensures bytes { IfOk result (λ c. c.bytes ≡ inline.now) }
    ensures shape { IfOk result (λ c. cord_shape c ≡ summed_shape value (cord_shape (inline_cord inline.now))) }
    ensures change { IfOk result (λ c. IsChange P.limit 2 (inline_cord inline.now) c w.old w.new) }
    ensures refused { IfErr result (λ x. IsRefused P.size P.limit None (summed_shape value (cord_shape (inline_cord inline.now))) x w.old w.new) }
    ensures balanced { IfErr result (λ x. IsBalanced P.limit x w.old w.new) }
{
    let mut pass = pool.pass(w)?;
    match sum_over_bytes(alloc, pool, w, inline, value) {
        Ok(root) => {
            pool.fill(w, &mut pass, &root);
            Ok(Cord {
                form: Form::Tree { pass, root },
            })
        }
        Err(error) => {
            pool.end(w, pass);
            Err(error.into())
        }
    }
}

/// A Sum over a flat of these bytes, or over nothing.
fn sum_over_bytes<P: Naming, B: Releaser>(
    alloc: Global,
    pool: &Pool<P, B>,
    w: &mut Worker<P>,
    bytes: &[u8],
    value: u32,
) -> Result<Edge, NodeError>
    requires few { length bytes.now ≤ 15 }
    requires room { length w.old.holds ≤ 128 }
    ensures formed { IfOk result (λ e. IsWellFormed e) }
    ensures shape { IfOk result (λ e. shape_of e ≡ sum_over value (rooted (length bytes.now) None)) }
    ensures text { IfOk result (λ e. text e ≡ bytes.now) }
    ensures made { IfOk result (IsMadeBeside w.old w.new) }
    ensures few { IfOk result (λ _. length w.new.taken ≤ length w.old.taken + 2) }
    ensures refused { IfErr result (λ x. IsRefusedFrom P.size [] x w.old w.new) }
{
    if bytes.is_empty() {
        return with_sum(alloc, pool, w, None, value);
    }
    let flat = new_flat(alloc, pool, w, bytes)?;
    match with_sum(alloc, pool, w, Some(&flat), value) {
        Ok(sum) => Ok(sum),
        Err(error) => {
            pool.finish(w, &flat);
            Err(error)
        }
    }
}

/// Puts a Sum over the tree of a pass, in the place of one that was there.
fn sum_tree<P: Naming, B: Releaser>(
    alloc: Global,
    pool: &Pool<P, B>,
    w: &mut Worker<P>,
    pass: &mut Pass<P>,
    root: &mut Edge,
    value: u32,
) -> Result<(), CordError>
    requires room { length w.old.holds ≤ 96 }
    requires kept { IsKept pass.old.holds root.old }
    ensures kept { IsKept pass.new.holds root.new }
    ensures bytes { IfOk result (λ _. text root.new ≡ text root.old) }
    ensures shape { IfOk result (λ _. cord_shape (tree_cord root.new) ≡ summed_shape value (cord_shape (tree_cord root.old))) }
    ensures change { IfOk result (λ _. IsChange P.limit 2 (tree_cord root.old) (tree_cord root.new) w.old w.new) }
    ensures refused { IfErr result
        (λ x. IsRefused P.size P.limit (Some root.old) (summed_shape value (cord_shape (tree_cord root.old))) x w.old w.new) }
    ensures balanced { IfErr result (λ x. IsBalanced P.limit x w.old w.new) }
    ensures same { OnErr result (root.new ≡ root.old) }
{
    pool.draw(w, pass);
    match summed(alloc, pool, w, root, value) {
        Ok(made) => {
            replace_tree(pool, w, pass, root, made);
            Ok(())
        }
        Err(error) => {
            pool.fill(w, pass, root);
            Err(error.into())
        }
    }
}

/// A Sum over what stands below a Sum at the root, which is shared.
fn summed<P: Naming, B: Releaser>(
    alloc: Global,
    pool: &Pool<P, B>,
    w: &mut Worker<P>,
    root: &Edge,
    value: u32,
) -> Result<Edge, NodeError>
    requires held { HasHolds w.old.holds (root.now ∷ []) }
    requires formed { IsWellFormed root.now }
    requires room { length w.old.holds ≤ 128 }
    ensures formed { IfOk result (λ e. IsWellFormed e) }
    ensures shape { IfOk result (λ e. shape_of e ≡ sum_over value (without_sum (Some (shape_of root.now)))) }
    ensures text { IfOk result (λ e. text e ≡ text root.now) }
    ensures made { IfOk result (IsMadeBeside w.old w.new) }
    ensures one { IfOk result (λ _. length w.new.taken ≡ length w.old.taken + 1) }
    ensures refused { IfErr result (λ x. IsRefusedFrom P.size [] x w.old w.new) }
{
    let Some(tree) = skip_sum(root) else {
        return with_sum(alloc, pool, w, None, value);
    };
    pool.share(w, tree);
    match with_sum(alloc, pool, w, Some(tree), value) {
        Ok(sum) => Ok(sum),
        Err(error) => {
            pool.unshare_all(w, slice::from_ref(tree));
            Err(error)
        }
    }
}
