//! The same calls for each edge of a slice, from left to right.
ghost use Rattle.std.specs.Prelude.{◌≡◌, ◌+◌, ◌≤◌, [], length, All};
ghost use Rattle.node_edges.specs.Ways.{branches_down};
ghost use Rattle.pool_rule.specs.Gains.{no_gain, Gained};
ghost use Rattle.pool_rule.specs.Trades.{HasHolds, Stands, Trades, AreSpare};
ghost use Rattle.node_pool.specs.Slices.{AreFinished};

use crate::naming::Naming;
use crate::pool::Pool;
use crate::tokens::Worker;
use cord_port::Releaser;
use node_edges::Edge;

impl<P: Naming, B: Releaser> Pool<P, B> {
    /// One direct hold more of each edge.
    pub fn share_all(&self, w: &mut Worker<P>, edges: &[Edge])
        requires stand { All (Stands w.old.holds) edges.now }
        requires room { length w.old.holds + length edges.now ≤ 256 }
        ensures traded { Trades w.old.holds [] edges.now w.new.holds }
        ensures gained { Gained (record no_gain { shares = length edges.now }) w.old w.new }
    {
        for edge in edges {
            self.share(w, edge);
        }
    }

    /// A direct hold of each edge goes, of edges that stand below other direct holds. So no leave is the last, and each other
    /// hold stays.
    pub fn unshare_all(&self, w: &mut Worker<P>, edges: &[Edge])
        requires spare { AreSpare w.old.holds edges.now }
        requires room { length w.old.holds ≤ 251 }
        ensures traded { Trades w.old.holds edges.now [] w.new.holds }
        ensures gained { Gained no_gain w.old w.new }
    {
        for edge in edges {
            w.nodes_are_narrow();
            self.leave(w, edge);
        }
    }

    /// A direct hold of each edge goes, with all that nobody else holds below it.
    pub fn finish_all(&self, w: &mut Worker<P>, edges: &[Edge])
        requires held { HasHolds w.old.holds edges.now }
        requires short { All (λ e. branches_down e ≤ 12) edges.now }
        requires room { length w.old.holds ≤ 196 }
        ensures traded { Trades w.old.holds edges.now [] w.new.holds }
        ensures finished { AreFinished edges.now w.old w.new }
    {
        for edge in edges {
            self.finish(w, edge);
        }
    }
}
