//! The same moves on the plain registry, with a note for each slot.
use crate::moves::{Answer, Move, told};
use cordz_core::{RecordsFull, Registry, Settled, SlotState};
use record_rule::Note;
use std::alloc::{AllocError, Global};

/// A record as it should be: its note, and whether it is bare.
#[derive(Clone, Copy)]
struct Kept {
    note: Note,
    bare: bool,
}

const NEW: Kept = Kept {
    note: Note {
        stamp: 0,
        update: 0,
        length: 0,
    },
    bare: true,
};

/// The registry, the records of its slots, the slots of the tickets, and where the walks are.
#[derive(Drop)]
pub struct Plain {
    registry: Registry,
    kept: Vec<Kept>,
    tickets: Vec<u16>,
    at: Vec<Option<u16>>,
}

impl Plain {
    pub fn new(alloc: Global) -> Result<Plain, AllocError> {
        Ok(Plain {
            registry: Registry::new(16),
            kept: vec![in alloc; NEW; 256]?,
            tickets: Vec::with_capacity(alloc, 256)?,
            at: vec![in alloc; None; 16]?,
        })
    }

    pub fn act(&mut self, step: Move) -> Answer {
        if self.registry.clock() >= u64::MAX - 4 {
            return Answer::Idle;
        }
        match step {
            Move::Track(_, size) => self.track(size),
            Move::GiveUp(_) => self.give_up(),
            Move::Publish(_, ticket, size) => self.publish(ticket, size),
            Move::Keep(ticket) => self.known(ticket),
            Move::Strip(_, ticket) => self.strip(ticket),
            Move::Untrack(_, ticket) => self.untrack(ticket),
            Move::Snap(seat) => self.snap(seat),
            Move::First(seat) => self.first(seat),
            Move::Next(seat) => self.next(seat),
            Move::Read(seat) => self.read(seat),
            Move::End(seat) => self.end(seat),
            Move::Show(_, ticket) => self.known(ticket),
        }
    }

    fn track(&mut self, size: u16) -> Answer {
        if self.registry.clock() >= u64::MAX - 4 {
            return Answer::Idle;
        }
        match self.registry.reserve() {
            Ok((slot, stamp)) => {
                self.registry.track(slot);
                let note = Note {
                    stamp,
                    update: 0,
                    length: u64::from(size),
                };
                if let Some(kept) = self.kept.get_mut(slot as usize) {
                    *kept = Kept { note, bare: false };
                }
                match self.tickets.push(slot) {
                    Ok(()) => Answer::Given(slot, stamp),
                    Err(_) => Answer::Idle,
                }
            }
            Err(RecordsFull { in_use }) => Answer::Full(in_use),
        }
    }

    fn give_up(&mut self) -> Answer {
        if self.registry.clock() >= u64::MAX - 4 {
            return Answer::Idle;
        }
        match self.registry.reserve() {
            Ok((slot, stamp)) => {
                self.registry.free(slot);
                Answer::Given(slot, stamp)
            }
            Err(RecordsFull { in_use }) => Answer::Full(in_use),
        }
    }

    fn record(&mut self, ticket: usize) -> Option<&mut Kept> {
        let slot = *self.tickets.get(ticket)?;
        self.kept.get_mut(slot as usize)
    }

    fn publish(&mut self, ticket: usize, size: u16) -> Answer {
        let Some(kept) = self.record(ticket) else {
            return Answer::Idle;
        };
        kept.note.update = kept.note.update.saturating_add(1);
        kept.note.length = u64::from(size);
        kept.bare = false;
        Answer::Noted(kept.note)
    }

    fn known(&self, ticket: usize) -> Answer {
        if ticket < self.tickets.len() {
            Answer::Done
        } else {
            Answer::Idle
        }
    }

    fn strip(&mut self, ticket: usize) -> Answer {
        let Some(kept) = self.record(ticket) else {
            return Answer::Idle;
        };
        let had = !kept.bare;
        kept.bare = true;
        Answer::Back(had)
    }

    fn untrack(&mut self, ticket: usize) -> Answer {
        if ticket >= self.tickets.len() {
            return Answer::Idle;
        }
        let slot = self.tickets.swap_remove(ticket);
        let bare = match self.kept.get(slot as usize) {
            Some(kept) => kept.bare,
            None => true,
        };
        Answer::Back(self.leaves(slot) && !bare)
    }

    // Unlinks a slot's record and settles it. Whether it is deleted at once; then the slot is free again.
    fn leaves(&mut self, slot: u16) -> bool {
        if slot >= 256 || self.registry.clock() >= u64::MAX - 4 {
            return false;
        }
        if self.registry.state(slot) != SlotState::Linked {
            return false;
        }
        self.registry.unlink(slot);
        match self.registry.settle(slot) {
            Settled::Deleted => {
                self.registry.free(slot);
                true
            }
            Settled::Queued => false,
        }
    }

    fn snap(&mut self, seat: usize) -> Answer {
        if self.registry.clock() >= u64::MAX - 4 || seat >= 16 || self.registry.walkers() != 16 {
            return Answer::Idle;
        }
        if self.registry.is_walking(seat as u8) {
            return Answer::Idle;
        }
        self.registry.snap(seat as u8);
        self.put(seat, None);
        Answer::Done
    }

    fn walks(&self, seat: usize) -> bool {
        seat < 16 && self.registry.walkers() == 16 && self.registry.is_walking(seat as u8)
    }

    fn put(&mut self, seat: usize, slot: Option<u16>) {
        if let Some(at) = self.at.get_mut(seat) {
            *at = slot;
        }
    }

    fn reached(&self, seat: usize) -> Option<u16> {
        if self.walks(seat) {
            *self.at.get(seat)?
        } else {
            None
        }
    }

    fn first(&mut self, seat: usize) -> Answer {
        if !self.walks(seat) {
            return Answer::Idle;
        }
        let slot = self.registry.head();
        self.put(seat, slot);
        Answer::Slot(slot)
    }

    fn next(&mut self, seat: usize) -> Answer {
        let Some(slot) = self.reached(seat) else {
            return Answer::Idle;
        };
        if slot >= 256 {
            return Answer::Idle;
        }
        let state = self.registry.state(slot);
        let next = match state {
            SlotState::Linked | SlotState::Leaving | SlotState::Queued => self.registry.next(slot),
            _ => return Answer::Idle,
        };
        self.put(seat, next);
        Answer::Slot(next)
    }

    fn read(&self, seat: usize) -> Answer {
        let Some(slot) = self.reached(seat) else {
            return Answer::Idle;
        };
        match self.kept.get(slot as usize) {
            Some(kept) if kept.bare => Answer::Bare(kept.note.stamp),
            Some(kept) => Answer::Noted(kept.note),
            None => Answer::Idle,
        }
    }

    fn end(&mut self, seat: usize) -> Answer {
        if !self.walks(seat) || seat >= 16 || self.registry.clock() >= u64::MAX - 4 {
            return Answer::Idle;
        }
        if !self.registry.is_walking(seat as u8) {
            return Answer::Idle;
        }
        let gone = self.registry.unsnap(seat as u8);
        self.put(seat, None);
        for slot in gone.as_slice() {
            self.clear(*slot);
        }
        Answer::Ended(told(gone.as_slice()))
    }

    fn clear(&mut self, slot: u16) {
        if slot >= 256 || self.registry.clock() == u64::MAX {
            return;
        }
        let state = self.registry.state(slot);
        match state {
            SlotState::Clearing => self.registry.free(slot),
            _ => {}
        }
    }
}
