//! The tree that a pass keeps: shared with an empty pass, or drawn as the pass ends.
ghost use Rattle.std.specs.Prelude.{◌≡◌, ◌⊎◌, ◌+◌, ◌≤◌, [], ◌∷◌, length};
ghost use Rattle.pool_rule.specs.Trades.{Trades, SameHolds};
ghost use Rattle.pool_rule.specs.Views.{sharing};
ghost use Rattle.node_pool.specs.Passes.{uncounted, filled, drawn};

use crate::naming::{Chosen, Naming};
use crate::plays::{Draws, Ends, Hands, Shares};
use crate::pool::Pool;
use crate::tokens::{Pass, Worker};
use crate::view::TokenSeat;
use atomic_table::Badge;
use cord_port::Releaser;
use node_edges::Edge;
use std::marker::Brand;
use std::mem;

impl<P: Naming, B: Releaser> Pool<P, B> {
    /// The pass's tree becomes the worker's last direct hold, and the pass ends.
    pub fn draw_and_end(&self, w: &mut Worker<P>, p: Pass<P>)
        requires room { length w.old.holds + length p.holds ≤ 256 }
        ensures drawn { w.new ≡ uncounted (drawn w.old p) }
        ensures traded { Trades w.old.holds [] p.holds w.new.holds }
    {
        self.take_in(w, p);
    }

    /// What a pass holds becomes the worker's last direct hold, if it holds anything, and the pass ends.
    pub(crate) fn take_in(&self, w: &mut Worker<P>, p: Pass<P>)
        requires room { (length p.holds ≡ 0) ⊎ (length w.old.holds + length p.holds ≤ 256) }
        ensures drawn { w.new ≡ uncounted (drawn w.old p) }
    {
        let mut seat: TokenSeat<B> = mem::replace(&mut w.badge, Badge::blank()).into_seat();
        let Pass { badge, of: _ } = p;
        self.table
            .shared
            .join_seat::<Draws<P>>(&mut seat, badge.into_seat());
        self.table
            .shared
            .fetch_sub::<Ends>(&mut seat, self.numbers, 1);
        w.badge = seat.into_badge();
    }

    /// One hold more of the tree that a pass keeps goes into an empty pass.
    pub fn share_pass(&self, w: &mut Worker<P>, own: &mut Pass<P>, other: &mut Pass<P>, edge: &Edge)
        requires room { length w.old.holds ≤ 254 }
        requires own { own.old.holds ≡ edge.now ∷ [] }
        requires other { other.old.holds ≡ [] }
        ensures own { own.new.holds ≡ edge.now ∷ [] }
        ensures other { other.new.holds ≡ edge.now ∷ [] }
        ensures shared { w.new ≡ filled edge.now (filled edge.now (sharing edge.now (drawn w.old own.old))) }
        ensures same { SameHolds w.old.holds w.new.holds }
    {
        self.share_node::<Brand>(w, own, other, edge);
    }

    fn share_node<T: Chosen>(
        &self,
        w: &mut Worker<P>,
        own: &mut Pass<P>,
        other: &mut Pass<P>,
        edge: &Edge,
    )
        requires node { edge.now ≡ T.node }
        requires room { length w.old.holds ≤ 254 }
        requires own { own.old.holds ≡ T.node ∷ [] }
        requires other { other.old.holds ≡ [] }
        ensures own { own.new.holds ≡ T.node ∷ [] }
        ensures other { other.new.holds ≡ T.node ∷ [] }
        ensures shared { w.new ≡ filled T.node (filled T.node (sharing T.node (drawn w.old own.old))) }
        ensures same { SameHolds w.old.holds w.new.holds }
    {
        let mut seat: TokenSeat<B> = mem::replace(&mut w.badge, Badge::blank()).into_seat();
        let first: TokenSeat<B> = mem::replace(&mut own.badge, Badge::blank()).into_seat();
        let second: TokenSeat<B> = mem::replace(&mut other.badge, Badge::blank()).into_seat();
        let shared = &self.table.shared;
        shared.join_seat::<Draws<P>>(&mut seat, first);
        shared.join_seat::<Draws<P>>(&mut seat, second);
        shared.fetch_add::<Shares<T>>(&mut seat, edge.number() as usize, 1);
        let kept = shared.split_seat::<Hands<T>>(&mut seat);
        let given = shared.split_seat::<Hands<T>>(&mut seat);
        w.badge = seat.into_badge();
        own.badge = kept.into_badge();
        other.badge = given.into_badge();
    }
}
