//! A direct hold goes, with all that nobody else holds below it.
ghost use Rattle.std.specs.Prelude.{◌≡◌, ◌+◌, ◌*◌, ◌≤◌, [], ◌∷◌, length, All};
ghost use Rattle.node_forest.specs.Forest.{children};
ghost use Rattle.node_edges.specs.Ways.{branches_down};
ghost use Rattle.pool_rule.specs.Trades.{HasHolds, Trades};
ghost use Rattle.node_pool.specs.Finishes.{IsFinished};

use crate::calls::Left;
use crate::naming::Naming;
use crate::pool::Pool;
use crate::tokens::Worker;
use cord_port::Releaser;
use node_edges::{Body, Edge};
use std::slice;

impl<P: Naming, B: Releaser> Pool<P, B> {
    /// Leaves a direct hold, and then each of the edges that its last leaving hands over, and so on down. What others hold stays.
    pub fn finish(&self, w: &mut Worker<P>, edge: &Edge)
        requires held { HasHolds w.old.holds (edge.now ∷ []) }
        requires short { branches_down edge.now ≤ 12 }
        requires room { length w.old.holds ≤ 196 }
        ensures traded { Trades w.old.holds (edge.now ∷ []) [] w.new.holds }
        ensures finished { IsFinished edge.now w.old w.new }
    {
        self.finish_edge(w, edge);
    }

    /// The same where the ways down are as short as the room for direct holds asks.
    fn finish_edge(&self, w: &mut Worker<P>, edge: &Edge)
        requires held { HasHolds w.old.holds (edge.now ∷ []) }
        requires room { length w.old.holds + 5 * branches_down edge.now ≤ 256 }
        ensures traded { Trades w.old.holds (edge.now ∷ []) [] w.new.holds }
        ensures finished { IsFinished edge.now w.old w.new }
    {
        let edges = edges_of(edge);
        match self.leave(w, edge) {
            Left::Shared => {}
            Left::Last => {
                for child in edges {
                    self.finish_edge(w, child);
                }
            }
        }
    }
}

// The edges in a node's body.
fn edges_of(edge: &Edge) -> &[Edge]
    ensures edges { result.now ≡ children edge.now }
    ensures ways { All (λ c. length (children edge.now) + 5 * branches_down c ≤ 5 * branches_down edge.now + 1) (children edge.now) }
{
    match edge.body() {
        Body::Part { child, .. } => slice::from_ref(child),
        Body::Sum { child, .. } => match child {
            Some(child) => slice::from_ref(child),
            None => &[],
        },
        Body::Branch { edges, .. } => edges,
        _ => &[],
    }
}
