//! One that tracks and walks records.
ghost use Rattle.std.specs.Prelude.{◌≡◌, ◌<◌, ◌≤◌, ◌^◌, ◌+◌, true, false, length, Some, None, IfSome, IfErr};
ghost use Rattle.std.proofs.Props.{props};
ghost use Rattle.cordz_core.specs.Queue.{has, Apart};
ghost use Rattle.record_rule.specs.Log.{made_of, is_walking, walk_of};
ghost use Rattle.cordz_desk.specs.Shares.{IsShare};
ghost use Rattle.record_rule.specs.Views.{claim_at};
ghost use Rattle.cordz_desk.specs.Tokens.{token_of, IsCleared, IsSameBut};
ghost use Rattle.desk_seats.specs.Cleared.{AllCleared};

use crate::owners::Owned;
use crate::shares::{Boxes, give_back, leave};
use arrayvec::ArrayVec;
use cordz_core::RecordsFull;
use cordz_desk::{CordzDesk, CordzPass, DeskNaming, RecordRefused, Share};
use node_pool::{Naming, Pool, Worker};
use record_rule::Note;
use std::marker::PhantomData;
use std::sync::Wait;

/// How many actions a seat has made at most when it begins another.
pub const MOST: u64 = 1 << 33;

/// A pass with a count of its actions, whether it has a snapshot, and the slot that its walk gave last; and a worker that holds nothing.
#[derive(Drop)]
pub struct Seat<P: Naming, D: DeskNaming> {
    pub pass: CordzPass<P, D>,
    pub worker: Worker<P>,
    pub made: u64,
    pub walks: bool,
    pub at: Option<u16>,
    ghost few: { made_of (token_of pass).own ≤ made },
    ghost small: { made ≤ 2 ^ 33 + 2 ^ 10 },
    ghost walking: { is_walking (token_of pass).own ≡ walks },
    ghost given: { IfSome at (λ s. (s < 256) × (has s (walk_of (token_of pass).own) ≡ true)) } by { Prim.hlevel props },
    ghost idle: { length worker.holds ≡ 0 },
    ghost walker: { (token_of pass).number < 16 },
}

impl<P: Naming, D: DeskNaming> Seat<P, D> {
    /// Tracks a record of this share. Where no slot is free, the number of those in use comes back with the share.
    pub fn track<R: Wait>(
        &mut self,
        rt: &R,
        desk: &CordzDesk<P, D>,
        share: Share<P>,
    ) -> Result<Owned<P, D>, (u16, Share<P>)>
        requires few { self.old.made < 2 ^ 33 }
        requires share { IsShare share }
        ensures made { self.new.made ≡ self.old.made + 2 }
        ensures share { IfErr result (λ e. IsShare e.1) }
    {
        self.made += 2;
        match desk.reserve(rt, &mut self.pass) {
            Ok(reserved) => {
                let slot = reserved.slot;
                let ticket = desk.track(rt, &mut self.pass, reserved, share, 0);
                Ok(Owned {
                    ticket,
                    slot,
                    of: PhantomData,
                })
            }
            Err(RecordsFull { in_use }) => Err((in_use, share)),
        }
    }

    /// Reserves a slot, and gives it back. What was reserved, if a slot was free.
    pub fn give_up<R: Wait>(&mut self, rt: &R, desk: &CordzDesk<P, D>) -> Option<(u16, u64)>
        requires few { self.old.made < 2 ^ 33 }
    {
        self.made += 2;
        match desk.reserve(rt, &mut self.pass) {
            Ok(reserved) => {
                let told = (reserved.slot, reserved.stamp);
                desk.give_up(rt, &mut self.pass, reserved);
                Some(told)
            }
            Err(_) => None,
        }
    }

    /// Gives a record up. Whether its share came back.
    pub fn untrack<R: Wait>(
        &mut self,
        rt: &R,
        desk: &CordzDesk<P, D>,
        pool: &Pool<P, Boxes>,
        owned: Owned<P, D>,
    ) -> bool
        requires few { self.old.made < 2 ^ 33 }
    {
        let Owned {
            ticket,
            slot: _,
            of: _,
        } = owned;
        self.made += 3;
        match desk.untrack(rt, &mut self.pass, ticket) {
            Some(share) => {
                give_back(pool, &mut self.worker, share);
                true
            }
            None => false,
        }
    }

    /// Begins a snapshot.
    pub fn snap<R: Wait>(&mut self, rt: &R, desk: &CordzDesk<P, D>)
        requires few { self.old.made < 2 ^ 33 }
        requires none { self.old.walks ≡ false }
        ensures walking { self.new.walks ≡ true }
        ensures made { self.new.made ≡ self.old.made + 1 }
    {
        self.made += 1;
        desk.snapshot(rt, &mut self.pass);
        self.walks = true;
        self.at = None;
    }

    /// The newest record's slot.
    pub fn first<R: Wait>(&mut self, rt: &R, desk: &CordzDesk<P, D>) -> Option<u16>
        requires few { self.old.made < 2 ^ 33 }
        requires walking { self.old.walks ≡ true }
    {
        self.at = desk.first(rt, &mut self.pass);
        self.at
    }

    /// The slot behind the one that the walk gave last.
    pub fn next<R: Wait>(&mut self, rt: &R, desk: &CordzDesk<P, D>, slot: u16) -> Option<u16>
        requires few { self.old.made < 2 ^ 33 }
        requires walking { self.old.walks ≡ true }
        requires at { self.old.at ≡ Some slot }
    {
        self.at = desk.next(rt, &mut self.pass, slot);
        self.at
    }

    /// The note of the record that the walk gave last.
    pub fn read<R: Wait>(
        &mut self,
        rt: &R,
        desk: &CordzDesk<P, D>,
        pool: &Pool<P, Boxes>,
        slot: u16,
    ) -> Result<Note, RecordRefused>
        requires walking { self.old.walks ≡ true }
        requires at { self.old.at ≡ Some slot }
        ensures walking { self.new.walks ≡ true }
        ensures at { self.new.at ≡ Some slot }
        ensures made { self.new.made ≡ self.old.made }
    {
        let (note, edge) = desk.read_record(rt, &mut self.pass, slot, pool, &mut self.worker)?;
        leave(pool, &mut self.worker, &edge);
        Ok(note)
    }

    /// Is shown the update of a ticket.
    pub fn show(&mut self, desk: &CordzDesk<P, D>, owned: &mut Owned<P, D>)
        ensures made { self.new.made ≡ self.old.made }
    {
        desk.show(&mut self.pass, &mut owned.ticket);
    }

    /// Ends the snapshot, and clears the slots of the records that are deleted with it.
    pub fn end<R: Wait>(
        &mut self,
        rt: &R,
        desk: &CordzDesk<P, D>,
        pool: &Pool<P, Boxes>,
    ) -> ArrayVec<u16, 256>
        requires few { self.old.made < 2 ^ 33 }
        requires walking { self.old.walks ≡ true }
    {
        self.made += 1;
        let gone = desk.end_snapshot(rt, &mut self.pass);
        self.walks = false;
        self.at = None;
        self.collect(rt, desk, pool, gone.as_slice());
        gone
    }

    // Clears these slots.
    fn collect<R: Wait>(
        &mut self,
        rt: &R,
        desk: &CordzDesk<P, D>,
        pool: &Pool<P, Boxes>,
        gone: &[u16],
    )
        requires few { self.old.made ≤ 2 ^ 33 + 1 }
        requires walking { self.old.walks ≡ false }
        requires at { self.old.at ≡ None }
        requires cleared { AllCleared (token_of self.old.pass).claims gone.now }
        requires once { Apart gone.now }
        requires most { length gone.now ≤ 256 }
        ensures walking { self.new.walks ≡ false }
    {
        for slot in gone {
            self.collect_one(rt, desk, pool, *slot);
        }
    }

    fn collect_one<R: Wait>(
        &mut self,
        rt: &R,
        desk: &CordzDesk<P, D>,
        pool: &Pool<P, Boxes>,
        slot: u16,
    )
        requires few { self.old.made < 2 ^ 33 + 2 ^ 9 }
        requires walking { self.old.walks ≡ false }
        requires at { self.old.at ≡ None }
        requires slot { slot < 256 }
        requires cleared { IsCleared (claim_at (token_of self.old.pass).claims slot) }
        ensures made { self.new.made ≡ self.old.made + 1 }
        ensures walking { self.new.walks ≡ false }
        ensures at { self.new.at ≡ None }
        ensures same { IsSameBut slot (token_of self.old.pass) (token_of self.new.pass) }
    {
        self.made += 1;
        match desk.collect(rt, &mut self.pass, slot) {
            Some(share) => give_back(pool, &mut self.worker, share),
            None => {}
        }
    }
}
