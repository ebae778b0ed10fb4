//! One that owns a record.
ghost use Rattle.std.specs.Prelude.{◌≤◌, length, IfSome};
ghost use Rattle.pool_rule.specs.Trades.{SameHolds};
ghost use Rattle.cordz_desk.specs.Shares.{IsShare};
ghost use Rattle.cordz_desk.specs.Tickets.{IsAtRest};

use crate::shares::{Boxes, give_back};
use cordz_desk::{CordzDesk, DeskNaming, RecordRule, Share, Ticket};
use node_pool::{Naming, Pool, Worker};
use record_rule::Note;
use std::marker::PhantomData;
use std::sync::Wait;
use turn_desk::DeskPass;

/// A ticket whose record's turn isn't taken by it, and the slot of its record.
pub struct Owned<P: Naming, D: DeskNaming> {
    pub ticket: Ticket<P, D>,
    pub slot: u16,
    pub(crate) of: PhantomData<DeskPass<RecordRule<Share<P>>>>,
    ghost rest: { IsAtRest ticket },
}

impl<P: Naming, D: DeskNaming> Owned<P, D> {
    /// Publishes a new share. The old one comes back, if there was one.
    pub fn exchange<R: Wait>(
        &mut self,
        rt: &R,
        desk: &CordzDesk<P, D>,
        share: Share<P>,
    ) -> (Note, Option<Share<P>>)
        requires share { IsShare share }
        ensures old { IfSome result.1 (λ x. IsShare x) }
    {
        let mut change = desk.begin(rt, &mut self.ticket);
        let old = change.share.take();
        let note = desk.publish(&mut self.ticket, change, share, 0);
        (note, old)
    }

    /// Publishes a new share, and the old one is given back.
    pub fn publish<R: Wait>(
        &mut self,
        rt: &R,
        desk: &CordzDesk<P, D>,
        pool: &Pool<P, Boxes>,
        w: &mut Worker<P>,
        share: Share<P>,
    ) -> Note
        requires share { IsShare share }
        requires room { length w.old.holds ≤ 96 }
        ensures same { SameHolds w.old.holds w.new.holds }
    {
        let (note, old) = self.exchange(rt, desk, share);
        if let Some(old) = old {
            give_back(pool, w, old);
        }
        note
    }

    /// Begins a change and leaves the record as it was.
    pub fn keep<R: Wait>(&mut self, rt: &R, desk: &CordzDesk<P, D>) {
        let change = desk.begin(rt, &mut self.ticket);
        desk.keep(&mut self.ticket, change);
    }

    /// Leaves the record bare. Whether it had a share, which is given back.
    pub fn strip<R: Wait>(
        &mut self,
        rt: &R,
        desk: &CordzDesk<P, D>,
        pool: &Pool<P, Boxes>,
        w: &mut Worker<P>,
    ) -> bool
        requires room { length w.old.holds ≤ 96 }
        ensures same { SameHolds w.old.holds w.new.holds }
    {
        let mut change = desk.begin(rt, &mut self.ticket);
        let old = change.share.take();
        desk.strip(&mut self.ticket, change);
        match old {
            Some(old) => {
                give_back(pool, w, old);
                true
            }
            None => false,
        }
    }
}
