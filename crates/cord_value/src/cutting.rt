//! Ranges of a cord, and bytes cut off.
ghost use Rattle.std.specs.Prelude.{◌≡◌, ◌+◌, ◌-◌, ◌<◌, ◌≤◌, [], ◌∷◌, false, length, take, drop, Some, None, IfOk, IfErr, OnErr};
ghost use Rattle.tree_shapes.specs.Cords.{IsBackCut, back_cut, cord_kept, front_cut, sub_cord};
ghost use Rattle.tree_shapes.specs.Shape.{IsTree};
ghost use Rattle.node_edges.specs.Text.{text};
ghost use Rattle.node_edges.specs.Trees.{shape_of, IsFilled, IsWellFormed};
ghost use Rattle.pool_rule.specs.Trades.{HasHolds};
ghost use Rattle.btree_node.specs.Made.{IsRefusedFrom};
ghost use Rattle.cord_value.specs.Changes.{IsChange, IsCutRefused, IsRefused};
ghost use Rattle.cord_value.specs.Forms.{IsKept};
ghost use Rattle.cord_value.specs.Grown.{tree_cord, IsMadeBeside};
ghost use Rattle.cord_value.specs.Ranges.{range_shape, SharesRange, SharesIfTree};
ghost use Rattle.cord_value.specs.Refusals.{IsBalanced};
ghost use Rattle.cord_value.specs.Views.{cord_shape, no_cord};

use crate::cord::{Cord, Form};
use crate::inline::{MOST_INLINE, copied_bytes, inline_of};
use crate::refusals::CordError;
use crate::settling::replace_tree;
use arrayvec::ArrayVec;
use btree_cut::sub_tree;
use cord_port::Releaser;
use node_edges::skip_sum;
use node_pool::{Edge, Naming, NodeError, Pass, Pool, Worker};
use std::alloc::Global;

impl<P: Naming> Cord<P> {
    /// A cord of the `n` bytes from a position on (`cord.h`, `Subcord`), both clamped to what there is. It shares all nodes that the range holds
    /// whole, and has no sum. This cord stays as it is.
    pub fn sub<B: Releaser>(
        &mut self,
        alloc: Global,
        pool: &Pool<P, B>,
        w: &mut Worker<P>,
        pos: u64,
        n: u64,
    ) -> Result<Cord<P>, CordError>
        requires room { length w.old.holds ≤ 96 }
        ensures bytes { IfOk result (λ c. c.bytes ≡ take n (drop pos self.old.bytes)) }
        ensures shape { IfOk result (λ c. cord_shape c ≡ sub_cord pos n (cord_shape self.old)) }
        ensures shared { IfOk result (λ c. SharesIfTree pos (length c.bytes) self.old.tree c.tree) }
        ensures made { IfOk result (λ c. IsChange P.limit 32 no_cord c w.old w.new) }
        ensures refused { IfErr result (λ x. IsRefused P.size P.limit no_cord.tree (sub_cord pos n (cord_shape self.old)) x w.old w.new) }
        ensures balanced { IfErr result (λ x. IsBalanced P.limit x w.old w.new) }
        ensures kept { self.new ≡ self.old }
    {
        let size = self.len();
        let start = pos.min(size);
        let count = n.min(size - start);
        if count <= MOST_INLINE as u64 {
            let form = Form::Inline(small_range(self, start, count));
            return Ok(Cord { form });
        }
        let Form::Tree { pass, root } = &mut self.form else {
            unreachable!()
        };
        range_of(alloc, pool, w, pass, root, start, count)
    }

    /// Cuts `n` bytes off the front (`cord.h`, `RemovePrefix`). A sum goes. None cut off changes nothing, and the sum stays.
    pub fn cut_front<B: Releaser>(
        &mut self,
        alloc: Global,
        pool: &Pool<P, B>,
        w: &mut Worker<P>,
        n: u64,
    ) -> Result<(), CordError>
        requires room { length w.old.holds ≤ 96 }
        ensures bytes { IfOk result (λ _. self.new.bytes ≡ drop n self.old.bytes) }
        ensures within { IfOk result (λ _. n ≤ length self.old.bytes) }
        ensures shape { IfOk result (λ _. cord_shape self.new ≡ front_cut n (cord_shape self.old)) }
        ensures shared { IfOk result (λ _. 0 < n → SharesIfTree n (length self.new.bytes) self.old.tree self.new.tree) }
        ensures change { IfOk result (λ _. IsChange P.limit 32 self.old self.new w.old w.new) }
        ensures refused { IfErr result (λ x. IsCutRefused P.size P.limit n self.old (front_cut n (cord_shape self.old)) x w.old w.new) }
        ensures balanced { IfErr result (λ x. IsBalanced P.limit x w.old w.new) }
        ensures same { OnErr result (self.new ≡ self.old) }
    {
        let size = self.len();
        if n > size {
            return Err(CordError::Position { asked: n, size });
        }
        if n == 0 {
            return Ok(());
        }
        self.keep(alloc, pool, w, n, size - n)
    }

    /// Cuts `n` bytes off the back (`cord.h`, `RemoveSuffix`). A sum goes. None cut off changes nothing, and the sum stays.
    pub fn cut_back<B: Releaser>(
        &mut self,
        alloc: Global,
        pool: &Pool<P, B>,
        w: &mut Worker<P>,
        n: u64,
    ) -> Result<(), CordError>
        requires room { length w.old.holds ≤ 96 }
        ensures bytes { IfOk result (λ _. self.new.bytes ≡ take (length self.old.bytes - n) self.old.bytes) }
        ensures within { IfOk result (λ _. n ≤ length self.old.bytes) }
        ensures shape { IfOk result (λ _. IsBackCut n (cord_shape self.old) (cord_shape self.new)) }
        ensures shared { IfOk result (λ _. 0 < n → SharesIfTree 0 (length self.new.bytes) self.old.tree self.new.tree) }
        ensures change { IfOk result (λ _. IsChange P.limit 32 self.old self.new w.old w.new) }
        ensures refused { IfErr result (λ x. IsCutRefused P.size P.limit n self.old (back_cut false n (cord_shape self.old)) x w.old w.new) }
        ensures balanced { IfErr result (λ x. IsBalanced P.limit x w.old w.new) }
        ensures same { OnErr result (self.new ≡ self.old) }
    {
        let size = self.len();
        if n > size {
            return Err(CordError::Position { asked: n, size });
        }
        if n == 0 {
            return Ok(());
        }
        self.keep(alloc, pool, w, 0, size - n)
    }

    /// Keeps the `n` bytes from a start on, which aren't all.
    fn keep<B: Releaser>(
        &mut self,
        alloc: Global,
        pool: &Pool<P, B>,
        w: &mut Worker<P>,
        start: u64,
        n: u64,
    ) -> Result<(), CordError>
        requires room { length w.old.holds ≤ 96 }
        requires within { start + n ≤ length self.old.bytes }
        requires less { n < length self.old.bytes }
        ensures bytes { IfOk result (λ _. self.new.bytes ≡ take n (drop start self.old.bytes)) }
        ensures shape { IfOk result (λ _. cord_shape self.new ≡ cord_kept start n (cord_shape self.old)) }
        ensures shared { IfOk result (λ _. SharesIfTree start n self.old.tree self.new.tree) }
        ensures change { IfOk result (λ _. IsChange P.limit 32 self.old self.new w.old w.new) }
        ensures refused { IfErr result (λ x. IsRefused P.size P.limit self.old.tree (cord_kept start n (cord_shape self.old)) x w.old w.new) }
        ensures balanced { IfErr result (λ x. IsBalanced P.limit x w.old w.new) }
        ensures same { OnErr result (self.new ≡ self.old) }
    {
        if n <= MOST_INLINE as u64 {
            let small = small_range(self, start, n);
            self.set_inline(pool, w, small);
            return Ok(());
        }
        let Form::Tree { pass, root } = &mut self.form else {
            unreachable!()
        };
        keep_range(alloc, pool, w, pass, root, start, n)
    }
}

/// A few bytes of a cord, from a start on.
fn small_range<P: Naming>(cord: &Cord<P>, start: u64, n: u64) -> ArrayVec<u8, MOST_INLINE>
    requires few { n ≤ 15 }
    requires within { start + n ≤ length cord.now.bytes }
    ensures { result.items ≡ take n (drop start cord.now.bytes) }
{
    let mut reading = cord.chunks();
    reading.seek(start);
    let bytes = copied_bytes(&mut reading, n as usize);
    inline_of(bytes.as_slice())
}

/// What stands below a Sum at the root, with `n` of its bytes from a start on.
fn range<P: Naming, B: Releaser>(
    alloc: Global,
    pool: &Pool<P, B>,
    w: &mut Worker<P>,
    root: &Edge,
    start: u64,
    n: u64,
) -> Result<Edge, NodeError>
    requires held { HasHolds w.old.holds (root.now ∷ []) }
    requires formed { IsWellFormed root.now }
    requires some { 0 < n }
    requires within { start + n ≤ root.now.0.length }
    requires short { root.now.0.length ≤ 2147483647 }
    requires room { length w.old.holds ≤ 128 }
    ensures tree { IfOk result (λ e. IsTree (shape_of e) × IsFilled e) }
    ensures shape { IfOk result (λ e. range_shape start n root.now ≡ Some (shape_of e)) }
    ensures text { IfOk result (λ e. text e ≡ take n (drop start (text root.now))) }
    ensures shared { IfOk result (λ e. SharesRange start n root.now e) }
    ensures made { IfOk result (IsMadeBeside w.old w.new) }
    ensures few { IfOk result (λ _. length w.new.taken ≤ length w.old.taken + 32) }
    ensures refused { IfErr result (λ x. IsRefusedFrom P.size [] x w.old w.new) }
{
    let Some(tree) = skip_sum(root) else {
        unreachable!()
    };
    sub_tree(alloc, pool, w, tree, start, n)
}

/// A cord of a range of a pass's tree, with a pass of its own.
fn range_of<P: Naming, B: Releaser>(
    alloc: Global,
    pool: &Pool<P, B>,
    w: &mut Worker<P>,
    own: &mut Pass<P>,
    root: &Edge,
    start: u64,
    n: u64,
) -> Result<Cord<P>, CordError>
    requires room { length w.old.holds ≤ 96 }
    requires kept { IsKept own.old.holds root.now }
    requires long { 15 < n }
    requires within { start + n ≤ root.now.0.length }
    ensures kept { own.new.holds ≡ own.old.holds }
    ensures bytes { IfOk result (λ c. c.bytes ≡ take n (drop start (text root.now))) }
    ensures shape { IfOk result (λ c. cord_shape c ≡ cord_kept start n (cord_shape (tree_cord root.now))) }
    ensures shared { IfOk result (λ c. SharesIfTree start n (Some root.now) c.tree) }
    ensures made { IfOk result (λ c. IsChange P.limit 32 no_cord c w.old w.new) }
    ensures refused { IfErr result (λ x. IsRefused P.size P.limit None (cord_kept start n (cord_shape (tree_cord root.now))) x w.old w.new) }
    ensures balanced { IfErr result (λ x. IsBalanced P.limit x w.old w.new) }
{
    let mut pass = pool.pass(w)?;
    pool.draw(w, own);
    let made = range(alloc, pool, w, root, start, n);
    pool.fill(w, own, root);
    match made {
        Ok(tree) => {
            pool.fill(w, &mut pass, &tree);
            Ok(Cord {
                form: Form::Tree { pass, root: tree },
            })
        }
        Err(error) => {
            pool.end(w, pass);
            Err(error.into())
        }
    }
}

/// Keeps a range of a pass's tree.
fn keep_range<P: Naming, B: Releaser>(
    alloc: Global,
    pool: &Pool<P, B>,
    w: &mut Worker<P>,
    pass: &mut Pass<P>,
    root: &mut Edge,
    start: u64,
    n: u64,
) -> Result<(), CordError>
    requires room { length w.old.holds ≤ 96 }
    requires kept { IsKept pass.old.holds root.old }
    requires long { 15 < n }
    requires within { start + n ≤ root.old.0.length }
    ensures kept { IsKept pass.new.holds root.new }
    ensures bytes { IfOk result (λ _. text root.new ≡ take n (drop start (text root.old))) }
    ensures shape { IfOk result (λ _. cord_shape (tree_cord root.new) ≡ cord_kept start n (cord_shape (tree_cord root.old))) }
    ensures shared { IfOk result (λ _. SharesIfTree start n (Some root.old) (Some root.new)) }
    ensures change { IfOk result (λ _. IsChange P.limit 32 (tree_cord root.old) (tree_cord root.new) w.old w.new) }
    ensures refused { IfErr result (λ x. IsRefused P.size P.limit (Some root.old) (cord_kept start n (cord_shape (tree_cord root.old))) x w.old w.new) }
    ensures balanced { IfErr result (λ x. IsBalanced P.limit x w.old w.new) }
    ensures same { OnErr result (root.new ≡ root.old) }
{
    pool.draw(w, pass);
    match range(alloc, pool, w, root, start, n) {
        Ok(made) => {
            replace_tree(pool, w, pass, root, made);
            Ok(())
        }
        Err(error) => {
            pool.fill(w, pass, root);
            Err(error.into())
        }
    }
}
