//! Cords, their bytes and their trees.
ghost use Rattle.std.specs.Prelude.{◌≡◌, ◌↔◌, ◌⊎◌, ◌+◌, ◌<◌, ◌≤◌, [], ◌∷◌, length, None, IsSome, IsTrue, IfOk, IfErr, IfSome};
ghost use Rattle.tree_shapes.specs.Cords.{cord_of_bytes};
ghost use Rattle.tree_shapes.specs.Flats.{new_shape};
ghost use Rattle.tree_shapes.specs.Shape.{IsTree};
ghost use Rattle.node_edges.specs.Text.{text};
ghost use Rattle.node_edges.specs.Trees.{shape_of, IsFilled};
ghost use Rattle.node_pool.specs.Refusals.{IsNoted};
ghost use Rattle.flat_nodes.specs.Flats.{IsAdded};
ghost use Rattle.btree_node.specs.Made.{IsMadeFrom, IsRefusedFrom};
ghost use Rattle.cord_value.specs.Grown.{inline_cord};
ghost use Rattle.cord_value.specs.Workers.{Keeps, KeepsCount};
ghost use Rattle.cord_value.specs.Refusals.{IsMakeRefused, IsMakeUndone, IsBalanced};
ghost use Rattle.cord_value.specs.Views.{IsTreeOf, cord_shape, nodes_of, numbers_of, passes_of, sum_in_cord};

use crate::inline::{MOST_INLINE, inline_of};
use crate::refusals::CordError;
use arrayvec::ArrayVec;
use btree_edit::from_pieces;
use cord_port::Releaser;
use flat_nodes::new_flat;
use node_edges::{texts_are_as_long_as_edges_say, ways_down_are_short};
use node_pool::{Edge, Naming, NodeError, Pass, Pool, Worker};
use std::alloc::Global;
use std::marker::Model;
use std::mem;

/// The most bytes of a cord.
pub(crate) const MOST_BYTES: usize = 2_147_483_647;

/// The highest capacity of a flat.
const MOST_IN_A_FLAT: usize = 4083;

/// A list of bytes that is cheap to copy. At most 15 bytes stand inline. More, and any number with an expected sum, stand in a tree, which a
/// pass keeps between calls. Contracts see its bytes, and its tree where it has one.
#[derive(Drop)]
pub struct Cord<P: Naming> {
    pub(crate) form: Form<P>,
}

/// The two kinds of cords.
#[derive(Drop)]
pub(crate) enum Form<P: Naming> {
    Inline(ArrayVec<u8, 15>),
    Tree { pass: Pass<P>, root: Edge },
}

impl<P: Naming> Model for Cord<P> {
    ghost use Rattle.cord_value.specs.Views.{CordView, coded_cord};

    ghost Value = { CordView };

    ghost coded = { coded_cord };

    ghost use Rattle.cord_value.specs.Forms.{view_of, IsForm};

    ghost view = { λ c. view_of c.form };

    ghost invariant = { λ c. IsForm c.form };
}

impl<P: Naming> Cord<P> {
    /// The empty cord.
    pub fn new() -> Cord<P>
        ensures bytes { result.bytes ≡ [] }
        ensures tree { result.tree ≡ None }
    {
        Cord {
            form: Form::Inline(ArrayVec::new()),
        }
    }

    /// A cord of these bytes. More than 15 take a pass first, and then a number for each node of their tree.
    pub fn from_bytes<B: Releaser>(
        alloc: Global,
        pool: &Pool<P, B>,
        w: &mut Worker<P>,
        bytes: &[u8],
    ) -> Result<Cord<P>, CordError>
        requires room { length w.old.holds ≤ 96 }
        ensures bytes { IfOk result (λ c. c.bytes ≡ bytes.now) }
        ensures tree { IfOk result (λ c. IsSome c.tree ↔ (15 < length bytes.now)) }
        ensures formed { IfOk result (λ c. IsTreeOf c.bytes c.tree) }
        ensures shape { IfOk result (λ c. cord_shape c ≡ cord_of_bytes (length bytes.now)) }
        ensures numbers { IfOk result (λ c. KeepsCount P.limit (nodes_of c.tree) (passes_of c.tree) 0 w.old w.new) }
        ensures worker { length bytes.now ≤ 4083 → IfOk result (λ c. Keeps P.limit (numbers_of c.tree) (passes_of c.tree) 0 w.old w.new) }
        ensures unshared { length bytes.now ≤ 4083 → IfOk result (λ _. w.new.shares ≡ w.old.shares) }
        ensures short { IfOk result (λ _. length bytes.now ≤ 2147483647) }
        ensures refused { IfErr result (λ x. IsMakeRefused P.size P.limit (length bytes.now) x w.old w.new) }
        ensures steps { IfErr result (λ x. IsMakeUndone P.limit (length bytes.now) x w.old w.new) }
        ensures balanced { IfErr result (λ x. IsBalanced P.limit x w.old w.new) }
        ensures untaken { length bytes.now ≤ 4083 → IfErr result (λ _. w.new.taken ≡ w.old.taken) }
    {
        if bytes.len() <= MOST_INLINE {
            return Ok(Cord {
                form: Form::Inline(inline_of(bytes)),
            });
        }
        if bytes.len() > MOST_BYTES {
            let asked = bytes.len() as u64;
            return Err(CordError::LengthLimit { asked });
        }
        let mut pass = pool.pass(w)?;
        match new_tree(alloc, pool, w, bytes) {
            Ok(root) => {
                pool.fill(w, &mut pass, &root);
                Ok(Cord {
                    form: Form::Tree { pass, root },
                })
            }
            Err(error) => {
                pool.end(w, pass);
                Err(error.into())
            }
        }
    }

    /// How many bytes there are.
    pub fn len(&self) -> u64
        ensures len { result ≡ length self.now.bytes }
        ensures short { length self.now.bytes ≤ 2147483647 }
        ensures formed { IsTreeOf self.now.bytes self.now.tree }
    {
        texts_are_as_long_as_edges_say();
        match &self.form {
            Form::Inline(bytes) => bytes.len() as u64,
            Form::Tree { root, .. } => root.length(),
        }
    }

    /// Whether the bytes stand in a tree, which is so exactly where there are more than 15 or a sum.
    pub fn is_tree(&self) -> bool
        ensures tree { IsTrue result ↔ IsSome self.now.tree }
        ensures long { IsTrue result ↔ ((15 < length self.now.bytes) ⊎ IsSome (sum_in_cord self.now)) }
        ensures formed { IsTreeOf self.now.bytes self.now.tree }
    {
        matches!(&self.form, Form::Tree { .. })
    }

    /// Makes the cord an inline one of these bytes. Its tree is left, and its pass ends.
    pub(crate) fn set_inline<B: Releaser>(
        &mut self,
        pool: &Pool<P, B>,
        w: &mut Worker<P>,
        bytes: ArrayVec<u8, 15>,
    )
        requires few { length bytes.items ≤ 15 }
        requires room { length w.old.holds ≤ 96 }
        ensures set { self.new ≡ inline_cord bytes.items }
        ensures worker { Keeps P.limit [] 0 (passes_of self.old.tree) w.old w.new }
    {
        let form = Form::Inline(bytes);
        mem::replace(self, Cord { form }).release(pool, w);
    }

    /// Leaves the tree and ends its pass.
    pub fn release<B: Releaser>(self, pool: &Pool<P, B>, w: &mut Worker<P>)
        requires room { length w.old.holds ≤ 96 }
        ensures worker { Keeps P.limit [] 0 (passes_of self.tree) w.old w.new }
        ensures unshared { w.new.shares ≡ w.old.shares }
        ensures untried { w.new.full ≡ w.old.full }
    {
        let Cord { form } = self;
        match form {
            Form::Inline(_) => {}
            Form::Tree { pass, root } => {
                pool.draw_and_end(w, pass);
                pool.finish(w, &root);
            }
        }
    }
}

/// A tree of these bytes: one flat, or Branches over flats.
pub(crate) fn new_tree<P: Naming, B: Releaser>(
    alloc: Global,
    pool: &Pool<P, B>,
    w: &mut Worker<P>,
    bytes: &[u8],
) -> Result<Edge, NodeError>
    requires some { 0 < length bytes.now }
    requires short { length bytes.now ≤ 2147483647 }
    requires room { length w.old.holds ≤ 128 }
    ensures tree { IfOk result (λ e. IsTree (shape_of e) × IsFilled e) }
    ensures shape { IfOk result (λ e. shape_of e ≡ new_shape (length bytes.now)) }
    ensures text { IfOk result (λ e. text e ≡ bytes.now) }
    ensures made { IfOk result (λ e. IsMadeFrom [] [] w.old w.new e) }
    ensures added { length bytes.now ≤ 4083 → IfOk result (λ e. IsAdded P.size w.old w.new e) }
    ensures refused { IfErr result (λ x. IsRefusedFrom P.size [] x w.old w.new) }
    ensures noted { length bytes.now ≤ 4083 → IfErr result (λ x. IsNoted x w.old w.new) }
{
    if bytes.len() <= MOST_IN_A_FLAT {
        new_flat(alloc, pool, w, bytes)
    } else {
        from_pieces(alloc, pool, w, bytes)
    }
}
