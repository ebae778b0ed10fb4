//! Looks at words down a path.
ghost use Rattle.std.specs.Prelude.{◌≡◌, ◌<◌, [], ◌∷◌, length, drop, slice_index_or};
ghost use Rattle.node_forest.specs.Forest.{children};
ghost use Rattle.node_forest.specs.Label.{number};
ghost use Rattle.pool_rule.specs.Pools.{IsReached};
ghost use Rattle.pool_rule.specs.Trades.{HasHolds};
ghost use Rattle.pool_rule.specs.Views.{looking};
ghost use Rattle.node_pool.specs.Paths.{child_at, node_at, IsPathIn, IsLooked};

use crate::naming::{Chosen, Naming};
use crate::plays::Looks;
use crate::pool::Pool;
use crate::tokens::Worker;
use crate::view::TokenSeat;
use atomic_table::Badge;
use cord_port::Releaser;
use node_edges::Edge;
use std::marker::Brand;
use std::mem;

impl<P: Naming, B: Releaser> Pool<P, B> {
    /// Whether the word of the node at the end of a path was found 1. Where it was, its number is a lone number of the worker. The
    /// path begins at a direct hold, and all nodes above its end are lone.
    pub fn look(&self, w: &mut Worker<P>, root: &Edge, path: &[u8]) -> bool
        requires held { HasHolds w.old.holds (root.now ∷ []) }
        requires path { IsPathIn w.old.lone root.now path.now }
        ensures looked { IsLooked result (node_at root.now path.now) w.old w.new }
        ensures holds { w.new.holds ≡ w.old.holds }
    {
        let mut edge = root;
        for i in 0..path.len() {
            edge = child_of(edge, path[i]);
        }
        self.look_word::<Brand>(w, edge) == 1
    }

    /// The word found. Where it is 1, the number is lone.
    fn look_word<T: Chosen>(&self, w: &mut Worker<P>, edge: &Edge) -> u64
        requires node { edge.now ≡ T.node }
        requires reached { IsReached T.node w.old }
        ensures looked { w.new ≡ looking result T.node w.old }
        ensures holds { w.new.holds ≡ w.old.holds }
    {
        let mut seat: TokenSeat<B> = mem::replace(&mut w.badge, Badge::blank()).into_seat();
        let found = self
            .table
            .shared
            .load::<Looks<T>>(&mut seat, edge.number() as usize);
        w.badge = seat.into_badge();
        found
    }
}

// The edge at a place.
fn child_of(edge: &Edge, place: u8) -> &Edge
    requires { place < length (children edge.now) }
    ensures { result.now ≡ child_at edge.now place }
{
    &edge.edges()[place as usize]
}
