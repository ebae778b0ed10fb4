//! Nodes that are made, shared and left.
ghost use Rattle.std.specs.Prelude.{◌≡◌, ◌+◌, ◌*◌, ◌<◌, ◌≤◌, [], ◌∷◌, length, IfOk, IfErr};
ghost use Rattle.node_forest.specs.Forest.{children};
ghost use Rattle.node_edges.specs.Body.{IsBody, edges_in_body, node_of};
ghost use Rattle.pool_rule.specs.Trades.{HasHolds, SameHolds, Stands, Trades};
ghost use Rattle.pool_rule.specs.Views.{sharing};
ghost use Rattle.node_pool.specs.declared.calls.Left.TheVariants.{Shared};
ghost use Rattle.node_pool.specs.Answers.{IsNextSlot, IsTaken, wrapped, freed, left_by};
ghost use Rattle.node_pool.specs.Refusals.{refusal_of, IsCause, IsNoted};

use crate::naming::Naming;
use crate::pool::Pool;
use crate::tokens::Worker;
use cord_port::Releaser;
use node_edges::{Body, Edge};
use std::alloc::Global;
use std::marker::Brand;

/// Why no node was made. The worker's holds are as before.
#[derive(Clone, Copy, Debug, PartialEq, Eq)]
pub enum TakeError {
    /// Each of so many numbers, which are all, was found in use.
    NoNumber { seen: u32 },
    /// Want of memory.
    Memory,
}

/// Whether a leaver was the last.
#[derive(Clone, Copy, Debug, PartialEq, Eq)]
pub enum Left {
    Shared,
    Last,
}

impl<P: Naming, B: Releaser> Pool<P, B> {
    /// A node of this body under a number that was free. The edges in the body were direct holds of the worker and are the
    /// node's now. A refusal has tried each number once. No clause says which number is tried first; it is the one behind that
    /// which this worker took last.
    pub fn take(&self, alloc: Global, w: &mut Worker<P>, body: Body) -> Result<Edge, TakeError>
        requires body { IsBody body }
        requires held { HasHolds w.old.holds (edges_in_body body) }
        requires room { length w.old.holds < 256 + length (edges_in_body body) }
        requires slot { IsNextSlot body w.old.unused }
        ensures edge { IfOk result (λ e. e ≡ node_of e.0.number body) }
        ensures taken { IfOk result (λ e. IsTaken P.size w.old w.new e) }
        ensures traded { IfOk result (λ e. Trades w.old.holds (edges_in_body body) (e ∷ []) w.new.holds) }
        ensures cause { IfErr result (λ x. IsCause P.size (refusal_of x) w.old w.new) }
        ensures noted { IfErr result (λ x. IsNoted (refusal_of x) w.old w.new) }
        ensures same { IfErr result (λ _. SameHolds w.old.holds w.new.holds) }
    {
        let Ok(mut edge) = Edge::new(alloc, 0, body) else {
            return Err(TakeError::Memory);
        };
        let start = w.next as usize;
        for i in 0..self.numbers {
            let number = self.place(start + i);
            edge.renumber(number);
            if self.take_word::<Brand>(w, &edge) == 0 {
                w.next = self.place(number as usize + 1);
                return Ok(edge);
            }
        }
        Err(TakeError::NoNumber {
            seen: self.numbers as u32,
        })
    }

    /// A place behind the last number is one from the first.
    fn place(&self, n: usize) -> u32
        requires { n < P.size + P.size }
        ensures wrapped { result ≡ wrapped P.size n }
        ensures low { result < P.size }
    {
        if n < self.numbers {
            n as u32
        } else {
            (n - self.numbers) as u32
        }
    }

    /// One direct hold more of an edge that stands in a tree that the worker holds.
    pub fn share(&self, w: &mut Worker<P>, edge: &Edge)
        requires stands { Stands w.old.holds edge.now }
        requires room { length w.old.holds < 256 }
        ensures shared { w.new ≡ sharing edge.now w.old }
        ensures traded { Trades w.old.holds [] (edge.now ∷ []) w.new.holds }
    {
        self.share_word::<Brand>(w, edge);
    }

    /// A direct hold goes. The last leaver gets the edges in the node's body as direct holds.
    pub fn leave(&self, w: &mut Worker<P>, edge: &Edge) -> Left
        requires held { HasHolds w.old.holds (edge.now ∷ []) }
        requires room { length w.old.holds + length (children edge.now) ≤ 257 }
        ensures left { w.new ≡ left_by result edge.now w.old }
        ensures traded { Trades w.old.holds (edge.now ∷ []) (freed result edge.now) w.new.holds }
        ensures standing { Stands w.new.holds edge.now → result ≡ Shared }
    {
        if self.leave_word::<Brand>(w, edge) == 1 {
            Left::Last
        } else {
            Left::Shared
        }
    }
}
