//! Passes: one is made, ended, emptied into a worker and filled by it.
ghost use Rattle.std.specs.Prelude.{◌≡◌, ◌+◌, ◌≤◌, [], ◌∷◌, length, IfOk, IfErr};
ghost use Rattle.pool_rule.specs.Trades.{HasHolds, Trades};
ghost use Rattle.node_pool.specs.Passes.{counted, uncounted, filled, drawn, IsPassMade};

use crate::naming::{Chosen, Naming};
use crate::outlet::Outlet;
use crate::plays::{Counts, Draws, Hands, Parts, Undoes};
use crate::pool::Pool;
use crate::tokens::{Pass, Worker};
use crate::view::TokenSeat;
use atomic_table::Badge;
use cord_port::Releaser;
use node_edges::Edge;
use std::marker::{Brand, PhantomData};
use std::mem;

/// A counted step found so many live passes, which is at least the pool's limit.
#[derive(Clone, Copy, Debug, PartialEq, Eq)]
pub struct PassLimit {
    pub found: u64,
}

impl<P: Naming, B: Releaser> Pool<P, B> {
    /// A pass that holds nothing. Where the limit was reached the step that found it so is undone.
    pub fn pass(&self, w: &mut Worker<P>) -> Result<Pass<P>, PassLimit>
        ensures empty { IfOk result (λ p. p.holds ≡ []) }
        ensures made { IfOk result (λ _. IsPassMade P.limit w.old w.new) }
        ensures limit { IfErr result (λ r. P.limit ≤ r.found) }
        ensures refused { IfErr result (λ r. w.new ≡ uncounted (counted r.found w.old)) }
    {
        let mut seat: TokenSeat<B> = mem::replace(&mut w.badge, Badge::blank()).into_seat();
        let found = self
            .table
            .shared
            .fetch_add::<Counts>(&mut seat, self.numbers, 1);
        if found >= self.passes {
            self.table
                .shared
                .fetch_sub::<Undoes>(&mut seat, self.numbers, 1);
            w.badge = seat.into_badge();
            return Err(PassLimit { found });
        }
        let made = self.table.shared.split_seat::<Parts>(&mut seat);
        w.badge = seat.into_badge();
        Ok(Pass {
            badge: made.into_badge(),
            of: PhantomData,
        })
    }

    /// An empty pass ends.
    pub fn end(&self, w: &mut Worker<P>, p: Pass<P>)
        requires empty { p.holds ≡ [] }
        ensures ended { w.new ≡ uncounted w.old }
    {
        self.take_in(w, p);
    }

    /// The pass's tree becomes the worker's last direct hold.
    pub fn draw(&self, w: &mut Worker<P>, p: &mut Pass<P>)
        requires room { length w.old.holds + length p.old.holds ≤ 256 }
        ensures drawn { w.new ≡ drawn w.old p.old }
        ensures traded { Trades w.old.holds [] p.old.holds w.new.holds }
        ensures empty { p.new.holds ≡ [] }
    {
        let mut seat: TokenSeat<B> = mem::replace(&mut w.badge, Badge::blank()).into_seat();
        let other: TokenSeat<B> = mem::replace(&mut p.badge, Badge::blank()).into_seat();
        self.table.shared.join_seat::<Draws<P>>(&mut seat, other);
        let empty = self.table.shared.split_seat::<Parts>(&mut seat);
        w.badge = seat.into_badge();
        p.badge = empty.into_badge();
    }

    /// A direct hold of the worker goes into an empty pass.
    pub fn fill(&self, w: &mut Worker<P>, p: &mut Pass<P>, edge: &Edge)
        requires held { HasHolds w.old.holds (edge.now ∷ []) }
        requires empty { p.old.holds ≡ [] }
        ensures filled { w.new ≡ filled edge.now w.old }
        ensures traded { Trades w.old.holds (edge.now ∷ []) [] w.new.holds }
        ensures full { p.new.holds ≡ edge.now ∷ [] }
    {
        self.hand::<Brand>(w, p, edge);
    }

    fn hand<T: Chosen>(&self, w: &mut Worker<P>, p: &mut Pass<P>, edge: &Edge)
        requires node { edge.now ≡ T.node }
        requires held { HasHolds w.old.holds (T.node ∷ []) }
        requires empty { p.old.holds ≡ [] }
        ensures filled { w.new ≡ filled T.node w.old }
        ensures traded { Trades w.old.holds (T.node ∷ []) [] w.new.holds }
        ensures full { p.new.holds ≡ T.node ∷ [] }
    {
        let mut seat: TokenSeat<B> = mem::replace(&mut w.badge, Badge::blank()).into_seat();
        let other: TokenSeat<B> = mem::replace(&mut p.badge, Badge::blank()).into_seat();
        self.table.shared.join_seat::<Draws<P>>(&mut seat, other);
        let filled = self.table.shared.split_seat::<Hands<T>>(&mut seat);
        w.badge = seat.into_badge();
        p.badge = filled.into_badge();
    }
}
