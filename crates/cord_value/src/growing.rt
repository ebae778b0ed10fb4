//! Bytes added to a cord.
ghost use Rattle.std.specs.Prelude.{◌≡◌, ◌++◌, ◌+◌, ◌*◌, ◌≤◌, ◌<◌, [], ◌∷◌, length, Err, IfOk, IfErr, OnErr};
ghost use Rattle.node_forest.specs.declared.side.Side.TheVariants as sides;
ghost use Rattle.tree_shapes.specs.Flats.{piece_count};
ghost use Rattle.tree_shapes.specs.Growth.{beside};
ghost use Rattle.tree_shapes.specs.Shape.{level, IsTree};
ghost use Rattle.node_edges.specs.Text.{text};
ghost use Rattle.node_edges.specs.Trees.{shape_of, IsFilled, IsWellFormed};
ghost use Rattle.pool_rule.specs.Trades.{HasHolds};
ghost use Rattle.node_pool.specs.declared.refusals.NodeError.TheVariants.{HeightLimit};
ghost use Rattle.btree_node.specs.Made.{IsLeftAlone};
ghost use Rattle.cord_value.specs.Forms.{IsKept};
ghost use Rattle.cord_value.specs.Grown.{grown_shape, inline_cord, tree_cord, IsGrown, IsGrowRefused, IsMadeBeside};
ghost use Rattle.cord_value.specs.Refusals.{IsBalanced};

use crate::cord::{Cord, Form, MOST_BYTES, new_tree};
use crate::inline::{MOST_INLINE, copied_bytes};
use crate::refusals::CordError;
use crate::settling::replace_tree;
use arrayvec::ArrayVec;
use btree_edit::with_bytes;
use cord_port::Releaser;
use node_edges::skip_sum;
use node_pool::{Edge, Naming, NodeError, Pass, Pool, Side, Worker};
use std::alloc::{AllocError, Global};

impl<P: Naming> Cord<P> {
    /// Adds the bytes behind (`cord.h`, `Append`). The nodes on the way are made anew, and all others are shared; an inline cord that gets more
    /// than 15 bytes in all becomes a tree under a pass. A sum goes. None added changes nothing, and the sum stays.
    pub fn append_bytes<B: Releaser>(
        &mut self,
        alloc: Global,
        pool: &Pool<P, B>,
        w: &mut Worker<P>,
        bytes: &[u8],
    ) -> Result<(), CordError>
        requires room { length w.old.holds ≤ 96 }
        ensures bytes { IfOk result (λ _. self.new.bytes ≡ self.old.bytes ++ bytes.now) }
        ensures grown { IfOk result (λ _. IsGrown P.limit sides.Back (length bytes.now) self.old self.new w.old w.new) }
        ensures refused { IfErr result (λ x. IsGrowRefused P.size P.limit sides.Back (length bytes.now) self.old x w.old w.new) }
        ensures balanced { IfErr result (λ x. IsBalanced P.limit x w.old w.new) }
        ensures same { OnErr result (self.new ≡ self.old) }
    {
        self.add(alloc, pool, w, bytes, Side::Back)
    }

    /// The same in front (`cord.h`, `Prepend`).
    pub fn prepend_bytes<B: Releaser>(
        &mut self,
        alloc: Global,
        pool: &Pool<P, B>,
        w: &mut Worker<P>,
        bytes: &[u8],
    ) -> Result<(), CordError>
        requires room { length w.old.holds ≤ 96 }
        ensures bytes { IfOk result (λ _. self.new.bytes ≡ bytes.now ++ self.old.bytes) }
        ensures grown { IfOk result (λ _. IsGrown P.limit sides.Front (length bytes.now) self.old self.new w.old w.new) }
        ensures refused { IfErr result (λ x. IsGrowRefused P.size P.limit sides.Front (length bytes.now) self.old x w.old w.new) }
        ensures balanced { IfErr result (λ x. IsBalanced P.limit x w.old w.new) }
        ensures same { OnErr result (self.new ≡ self.old) }
    {
        self.add(alloc, pool, w, bytes, Side::Front)
    }

    /// Adds the bytes at a side.
    pub(crate) fn add<B: Releaser>(
        &mut self,
        alloc: Global,
        pool: &Pool<P, B>,
        w: &mut Worker<P>,
        bytes: &[u8],
        side: Side,
    ) -> Result<(), CordError>
        requires room { length w.old.holds ≤ 96 }
        ensures bytes { IfOk result (λ _. self.new.bytes ≡ beside side self.old.bytes bytes.now) }
        ensures grown { IfOk result (λ _. IsGrown P.limit side (length bytes.now) self.old self.new w.old w.new) }
        ensures refused { IfErr result (λ x. IsGrowRefused P.size P.limit side (length bytes.now) self.old x w.old w.new) }
        ensures balanced { IfErr result (λ x. IsBalanced P.limit x w.old w.new) }
        ensures same { OnErr result (self.new ≡ self.old) }
    {
        let size = self.len();
        if bytes.is_empty() {
            return Ok(());
        }
        let asked = size + bytes.len() as u64;
        if asked > MOST_BYTES as u64 {
            return Err(CordError::LengthLimit { asked });
        }
        if asked <= MOST_INLINE as u64 {
            let small = small_beside(self, bytes, side);
            self.set_inline(pool, w, small);
            return Ok(());
        }
        match &mut self.form {
            Form::Inline(inline) => {
                let grown = grown_inline(alloc, pool, w, inline.as_slice(), bytes, side)?;
                *self = grown;
                Ok(())
            }
            Form::Tree { pass, root } => grow_tree(alloc, pool, w, pass, root, bytes, side),
        }
    }
}

/// The few bytes of a cord, with others at a side.
fn small_beside<P: Naming>(cord: &Cord<P>, bytes: &[u8], side: Side) -> ArrayVec<u8, MOST_INLINE>
    requires few { length cord.now.bytes + length bytes.now ≤ 15 }
    ensures { result.items ≡ beside side cord.now.bytes bytes.now }
{
    let own = copied_bytes(&mut cord.chunks(), cord.len() as usize);
    let (front, back) = match side {
        Side::Front => (bytes, own.as_slice()),
        Side::Back => (own.as_slice(), bytes),
    };
    let mut both = ArrayVec::new();
    let Ok(()) = both.try_extend_from_slice(front) else {
        unreachable!()
    };
    let Ok(()) = both.try_extend_from_slice(back) else {
        unreachable!()
    };
    both
}

/// A cord of the inline bytes with others at a side.
fn grown_inline<P: Naming, B: Releaser>(
    alloc: Global,
    pool: &Pool<P, B>,
    w: &mut Worker<P>,
    inline: &[u8],
    bytes: &[u8],
    side: Side,
) -> Result<Cord<P>, CordError>
    requires room { length w.old.holds ≤ 96 }
    requires inline { length inline.now ≤ 15 }
    requires some { 0 < length bytes.now }
    requires long { 15 < length inline.now + length bytes.now }
    requires short { length inline.now + length bytes.now ≤ 2147483647 }
    ensures bytes { IfOk result (λ c. c.bytes ≡ beside side inline.now bytes.now) }
    ensures grown { IfOk result (λ c. IsGrown P.limit side (length bytes.now) (inline_cord inline.now) c w.old w.new) }
    ensures refused { IfErr result (λ x. IsGrowRefused P.size P.limit side (length bytes.now) (inline_cord inline.now) x w.old w.new) }
    ensures balanced { IfErr result (λ x. IsBalanced P.limit x w.old w.new) }
{
    match joined(alloc, inline, bytes, side) {
        Ok(whole) => Cord::from_bytes(alloc, pool, w, whole.as_slice()),
        Err(_) => Err(CordError::Memory),
    }
}

/// The bytes of both, the second at this side of the first.
fn joined(alloc: Global, first: &[u8], second: &[u8], side: Side) -> Result<Vec<u8>, AllocError>
    requires short { length first.now + length second.now ≤ 2147483647 }
    ensures { IfOk result (λ v. v.items ≡ beside side first.now second.now) }
{
    let (front, back) = match side {
        Side::Front => (second, first),
        Side::Back => (first, second),
    };
    let mut whole = Vec::with_capacity(alloc, front.len() + back.len())?;
    whole.extend_from_slice(front)?;
    whole.extend_from_slice(back)?;
    Ok(whole)
}

/// The tree of a pass with bytes at a side.
pub(crate) fn grow_tree<P: Naming, B: Releaser>(
    alloc: Global,
    pool: &Pool<P, B>,
    w: &mut Worker<P>,
    pass: &mut Pass<P>,
    root: &mut Edge,
    bytes: &[u8],
    side: Side,
) -> Result<(), CordError>
    requires room { length w.old.holds ≤ 96 }
    requires kept { IsKept pass.old.holds root.old }
    requires some { 0 < length bytes.now }
    requires long { 15 < root.old.0.length + length bytes.now }
    requires short { root.old.0.length + length bytes.now ≤ 2147483647 }
    ensures kept { IsKept pass.new.holds root.new }
    ensures bytes { IfOk result (λ _. text root.new ≡ beside side (text root.old) bytes.now) }
    ensures grown { IfOk result (λ _. IsGrown P.limit side (length bytes.now) (tree_cord root.old) (tree_cord root.new) w.old w.new) }
    ensures refused { IfErr result (λ x. IsGrowRefused P.size P.limit side (length bytes.now) (tree_cord root.old) x w.old w.new) }
    ensures balanced { IfErr result (λ x. IsBalanced P.limit x w.old w.new) }
    ensures same { OnErr result (root.new ≡ root.old) }
{
    pool.draw(w, pass);
    match grown(alloc, pool, w, root, bytes, side) {
        Ok(made) => {
            replace_tree(pool, w, pass, root, made);
            Ok(())
        }
        Err(error) => {
            pool.fill(w, pass, root);
            Err(error.into())
        }
    }
}

/// A tree of what stands below a Sum at the root, with bytes at a side; of the bytes alone, where nothing stands there.
fn grown<P: Naming, B: Releaser>(
    alloc: Global,
    pool: &Pool<P, B>,
    w: &mut Worker<P>,
    root: &Edge,
    bytes: &[u8],
    side: Side,
) -> Result<Edge, NodeError>
    requires held { HasHolds w.old.holds (root.now ∷ []) }
    requires formed { IsWellFormed root.now }
    requires some { 0 < length bytes.now }
    requires short { root.now.0.length + length bytes.now ≤ 2147483647 }
    requires room { length w.old.holds ≤ 128 }
    ensures tree { IfOk result (λ e. IsTree (shape_of e) × IsFilled e) }
    ensures shape { IfOk result (λ e. shape_of e ≡ grown_shape side (length bytes.now) root.now) }
    ensures text { IfOk result (λ e. text e ≡ beside side (text root.now) bytes.now) }
    ensures made { IfOk result (IsMadeBeside w.old w.new) }
    ensures few { IfOk result (λ _. length w.new.taken ≤ length w.old.taken + 25 * piece_count (length bytes.now)) }
    ensures high { 12 < level (grown_shape side (length bytes.now) root.now) → result ≡ Err (HeightLimit 12) }
    ensures refused { IfErr result (λ x. IsLeftAlone P.size (grown_shape side (length bytes.now) root.now) x w.old w.new) }
{
    match skip_sum(root) {
        Some(tree) => with_bytes(alloc, pool, w, tree, bytes, side),
        None => new_tree(alloc, pool, w, bytes),
    }
}
