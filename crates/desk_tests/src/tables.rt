//! A desk with seats, and the tickets of its records.
ghost use Rattle.std.specs.Prelude.{◌≡◌, vec_len};

use crate::moves::{Answer, Move, told};
use cordz_desk::{CordzDesk, DeskNaming, RecordRefused};
use desk_seats::{Boxes, MOST, Owned, Seat, give_back, new_share};
use node_pool::{Naming, Pool};
use std::alloc::{AllocFailed, Global};
use std::sync::Wait;

/// A desk and its pool, who sits there, and the tickets, which any seat may give up.
pub struct Table<P: Naming, D: DeskNaming> {
    pub desk: CordzDesk<P, D>,
    pub pool: Pool<P, Boxes>,
    pub seats: Vec<Seat<P, D>>,
    pub tickets: Vec<Owned<P, D>>,
}

impl<P: Naming, D: DeskNaming> Table<P, D> {
    pub fn act<R: Wait>(&mut self, rt: &R, alloc: Global, step: Move) -> Answer
        ensures { vec_len self.new.seats ≡ vec_len self.old.seats }
    {
        match step {
            Move::Track(seat, size) => self.track(rt, alloc, seat, size),
            Move::GiveUp(seat) => self.give_up(rt, seat),
            Move::Publish(seat, ticket, size) => self.publish(rt, alloc, seat, ticket, size),
            Move::Keep(ticket) => self.keep(rt, ticket),
            Move::Strip(seat, ticket) => self.strip(rt, seat, ticket),
            Move::Untrack(seat, ticket) => self.untrack(rt, seat, ticket),
            Move::Snap(seat) => self.snap(rt, seat),
            Move::First(seat) => self.first(rt, seat),
            Move::Next(seat) => self.next(rt, seat),
            Move::Read(seat) => self.read(rt, seat),
            Move::End(seat) => self.end(rt, seat),
            Move::Show(seat, ticket) => self.show(seat, ticket),
        }
    }

    fn track<R: Wait>(&mut self, rt: &R, alloc: Global, seat: usize, size: u16) -> Answer
        ensures { vec_len self.new.seats ≡ vec_len self.old.seats }
    {
        let Some(seat) = self.seats.get_mut(seat) else {
            return Answer::Idle;
        };
        if seat.made >= MOST - 2 || size == 0 || size > 4083 {
            return Answer::Idle;
        }
        let Some(share) = new_share(alloc, &self.pool, &mut seat.worker, size) else {
            return Answer::Idle;
        };
        match seat.track(rt, &self.desk, share) {
            Ok(owned) => {
                let answer = Answer::Given(owned.slot, owned.ticket.note().stamp);
                match self.tickets.push(owned) {
                    Ok(()) => answer,
                    Err(AllocFailed { value }) => {
                        seat.untrack(rt, &self.desk, &self.pool, value);
                        Answer::Idle
                    }
                }
            }
            Err((in_use, share)) => {
                give_back(&self.pool, &mut seat.worker, share);
                Answer::Full(in_use)
            }
        }
    }

    fn give_up<R: Wait>(&mut self, rt: &R, seat: usize) -> Answer
        ensures { vec_len self.new.seats ≡ vec_len self.old.seats }
    {
        match self.seats.get_mut(seat) {
            Some(seat) if seat.made < MOST => match seat.give_up(rt, &self.desk) {
                Some((slot, stamp)) => Answer::Given(slot, stamp),
                None => Answer::Full(256),
            },
            _ => Answer::Idle,
        }
    }

    fn publish<R: Wait>(
        &mut self,
        rt: &R,
        alloc: Global,
        seat: usize,
        ticket: usize,
        size: u16,
    ) -> Answer
        ensures { vec_len self.new.seats ≡ vec_len self.old.seats }
    {
        let Some(seat) = self.seats.get_mut(seat) else {
            return Answer::Idle;
        };
        let Some(owned) = self.tickets.get_mut(ticket) else {
            return Answer::Idle;
        };
        if size == 0 || size > 4083 {
            return Answer::Idle;
        }
        match new_share(alloc, &self.pool, &mut seat.worker, size) {
            Some(share) => {
                let w = &mut seat.worker;
                Answer::Noted(owned.publish(rt, &self.desk, &self.pool, w, share))
            }
            None => Answer::Idle,
        }
    }

    fn keep<R: Wait>(&mut self, rt: &R, ticket: usize) -> Answer
        ensures { vec_len self.new.seats ≡ vec_len self.old.seats }
    {
        match self.tickets.get_mut(ticket) {
            Some(owned) => {
                owned.keep(rt, &self.desk);
                Answer::Done
            }
            None => Answer::Idle,
        }
    }

    fn strip<R: Wait>(&mut self, rt: &R, seat: usize, ticket: usize) -> Answer
        ensures { vec_len self.new.seats ≡ vec_len self.old.seats }
    {
        let Some(seat) = self.seats.get_mut(seat) else {
            return Answer::Idle;
        };
        match self.tickets.get_mut(ticket) {
            Some(owned) => {
                let w = &mut seat.worker;
                Answer::Back(owned.strip(rt, &self.desk, &self.pool, w))
            }
            None => Answer::Idle,
        }
    }

    fn untrack<R: Wait>(&mut self, rt: &R, seat: usize, ticket: usize) -> Answer
        ensures { vec_len self.new.seats ≡ vec_len self.old.seats }
    {
        if ticket >= self.tickets.len() {
            return Answer::Idle;
        }
        match self.seats.get_mut(seat) {
            Some(seat) if seat.made < MOST => {
                let owned = self.tickets.swap_remove(ticket);
                Answer::Back(seat.untrack(rt, &self.desk, &self.pool, owned))
            }
            _ => Answer::Idle,
        }
    }

    fn snap<R: Wait>(&mut self, rt: &R, seat: usize) -> Answer
        ensures { vec_len self.new.seats ≡ vec_len self.old.seats }
    {
        match self.seats.get_mut(seat) {
            Some(seat) if seat.made < MOST && !seat.walks => {
                seat.snap(rt, &self.desk);
                Answer::Done
            }
            _ => Answer::Idle,
        }
    }

    fn first<R: Wait>(&mut self, rt: &R, seat: usize) -> Answer
        ensures { vec_len self.new.seats ≡ vec_len self.old.seats }
    {
        match self.seats.get_mut(seat) {
            Some(seat) if seat.made < MOST && seat.walks => {
                Answer::Slot(seat.first(rt, &self.desk))
            }
            _ => Answer::Idle,
        }
    }

    fn next<R: Wait>(&mut self, rt: &R, seat: usize) -> Answer
        ensures { vec_len self.new.seats ≡ vec_len self.old.seats }
    {
        match self.seats.get_mut(seat) {
            Some(seat) if seat.made < MOST && seat.walks => match seat.at {
                Some(slot) => Answer::Slot(seat.next(rt, &self.desk, slot)),
                None => Answer::Idle,
            },
            _ => Answer::Idle,
        }
    }

    fn read<R: Wait>(&mut self, rt: &R, seat: usize) -> Answer
        ensures { vec_len self.new.seats ≡ vec_len self.old.seats }
    {
        let Some(seat) = self.seats.get_mut(seat) else {
            return Answer::Idle;
        };
        if !seat.walks {
            return Answer::Idle;
        }
        let Some(slot) = seat.at else {
            return Answer::Idle;
        };
        match seat.read(rt, &self.desk, &self.pool, slot) {
            Ok(note) => Answer::Noted(note),
            Err(RecordRefused::Bare { stamp }) => Answer::Bare(stamp),
            Err(RecordRefused::Memory) => Answer::Idle,
        }
    }

    fn end<R: Wait>(&mut self, rt: &R, seat: usize) -> Answer
        ensures { vec_len self.new.seats ≡ vec_len self.old.seats }
    {
        match self.seats.get_mut(seat) {
            Some(seat) if seat.made < MOST && seat.walks => {
                let gone = seat.end(rt, &self.desk, &self.pool);
                Answer::Ended(told(gone.as_slice()))
            }
            _ => Answer::Idle,
        }
    }

    fn show(&mut self, seat: usize, ticket: usize) -> Answer
        ensures { vec_len self.new.seats ≡ vec_len self.old.seats }
    {
        let Some(seat) = self.seats.get_mut(seat) else {
            return Answer::Idle;
        };
        match self.tickets.get_mut(ticket) {
            Some(owned) => {
                seat.show(&self.desk, owned);
                Answer::Done
            }
            None => Answer::Idle,
        }
    }
}
