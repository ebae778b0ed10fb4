//! A plain model of the registry: records and snapshots with their times, and each answer computed from these alone.
use crate::SlotState;
use std::alloc::{AllocError, Global};

/// A record's slot, and the places of its track, unlink and settle.
#[derive(Clone, Copy)]
pub struct RecordTimes {
    pub slot: u16,
    pub track: u64,
    pub unlink: Option<u64>,
    pub settle: Option<u64>,
}

impl RecordTimes {
    fn is_linked_at(&self, place: u64) -> bool {
        let left = match self.unlink {
            Some(unlink) => unlink <= place,
            None => false,
        };
        self.track <= place && !left
    }
}

/// A snapshot's walker, and the places of its birth and end.
#[derive(Clone, Copy)]
pub struct SnapshotTimes {
    pub walker: u8,
    pub birth: u64,
    pub end: Option<u64>,
}

/// Whose a slot is.
#[derive(Clone, Copy, PartialEq, Eq, Debug)]
pub enum Use {
    Nobody,
    Holder,
    Tracked,
}

/// A registry told by its actions: for each slot what it is, and the times of records and snapshots.
#[derive(Drop)]
pub struct Model {
    pub place: u64,
    pub stamps: u64,
    pub uses: [Use; 256],
    pub records: Vec<RecordTimes>,
    pub snapshots: Vec<SnapshotTimes>,
}

impl Model {
    /// No record and no snapshot.
    pub fn new(alloc: Global) -> Model {
        Model {
            place: 0,
            stamps: 0,
            uses: [Use::Nobody; 256],
            records: Vec::new(alloc),
            snapshots: Vec::new(alloc),
        }
    }

    fn newest_linked(&self, before: u64, place: u64) -> Option<RecordTimes> {
        let mut newest: Option<RecordTimes> = None;
        for record in &self.records {
            if record.track < before && record.is_linked_at(place) {
                let newer = match newest {
                    Some(other) => other.track < record.track,
                    None => true,
                };
                if newer {
                    newest = Some(*record);
                }
            }
        }
        newest
    }

    /// The linked record with the greatest track place.
    pub fn head(&self) -> Option<u16> {
        match self.newest_linked(u64::MAX, self.place) {
            Some(record) => Some(record.slot),
            None => None,
        }
    }

    /// The record that the slot had last.
    pub fn record_in(&self, slot: u16) -> Option<RecordTimes> {
        let mut last: Option<RecordTimes> = None;
        for record in &self.records {
            if record.slot == slot {
                last = Some(*record);
            }
        }
        last
    }

    /// Of the slot's record, the newest of the records before it that were linked at the earlier of now and its unlink.
    pub fn next(&self, slot: u16) -> Option<u16> {
        let record = self.record_in(slot)?;
        let place = match record.unlink {
            Some(unlink) => unlink.min(self.place),
            None => self.place,
        };
        match self.newest_linked(record.track, place) {
            Some(other) => Some(other.slot),
            None => None,
        }
    }

    /// Whether no snapshot that was born before this settling is unended at a place from then on.
    pub fn is_deleted_at(&self, settle: u64, place: u64) -> bool {
        for snapshot in &self.snapshots {
            let ended = match snapshot.end {
                Some(end) => end <= place,
                None => false,
            };
            if snapshot.birth < settle && !ended {
                return false;
            }
        }
        settle <= place
    }

    /// What the slot is now.
    pub fn state(&self, slot: u16) -> SlotState {
        let Some(holder) = self.uses.get(slot as usize) else {
            return SlotState::Free;
        };
        match holder {
            Use::Nobody => SlotState::Free,
            Use::Holder => SlotState::Reserved,
            Use::Tracked => self.tracked_state(slot),
        }
    }

    fn tracked_state(&self, slot: u16) -> SlotState {
        let Some(record) = self.record_in(slot) else {
            return SlotState::Free;
        };
        match (record.unlink, record.settle) {
            (None, _) => SlotState::Linked,
            (Some(_), None) => SlotState::Leaving,
            (Some(_), Some(settle)) => {
                if self.is_deleted_at(settle, self.place) {
                    SlotState::Clearing
                } else {
                    SlotState::Queued
                }
            }
        }
    }

    /// Whether the walker has a snapshot.
    pub fn is_walking(&self, walker: u8) -> bool {
        for snapshot in &self.snapshots {
            if snapshot.walker == walker && snapshot.end.is_none() {
                return true;
            }
        }
        false
    }

    /// The number of slots that are in use.
    pub fn in_use(&self) -> u16 {
        let mut count = 0u16;
        for holder in &self.uses {
            if *holder != Use::Nobody {
                count = count.saturating_add(1);
            }
        }
        count
    }

    /// An action: the clock goes on by one.
    pub fn tick(&mut self) {
        self.place = self.place.saturating_add(1);
    }

    /// The slot is this from now on.
    pub fn give(&mut self, slot: u16, to: Use) {
        self.tick();
        if let Some(holder) = self.uses.get_mut(slot as usize) {
            *holder = to;
        }
    }

    /// A record is linked in the slot.
    pub fn track(&mut self, slot: u16) -> Result<(), AllocError> {
        self.give(slot, Use::Tracked);
        self.records.push(RecordTimes {
            slot,
            track: self.place,
            unlink: None,
            settle: None,
        })?;
        Ok(())
    }

    /// The slot's record is unlinked.
    pub fn unlink(&mut self, slot: u16) {
        self.tick();
        let place = self.place;
        for record in self.records.iter_mut() {
            if record.slot == slot && record.unlink.is_none() {
                record.unlink = Some(place);
            }
        }
    }

    /// The slot's record settles.
    pub fn settle(&mut self, slot: u16) {
        self.tick();
        let place = self.place;
        for record in self.records.iter_mut() {
            if record.slot == slot && record.settle.is_none() {
                record.settle = Some(place);
            }
        }
    }

    /// The walker's snapshot begins.
    pub fn snap(&mut self, walker: u8) -> Result<(), AllocError> {
        self.tick();
        self.snapshots.push(SnapshotTimes {
            walker,
            birth: self.place,
            end: None,
        })?;
        Ok(())
    }

    /// Ends a snapshot, and gives the slots of the records whose deletion place this is, in the order of their settling.
    pub fn unsnap(&mut self, alloc: Global, walker: u8) -> Result<Vec<u16>, AllocError> {
        let before = self.place;
        self.tick();
        let place = self.place;
        for snapshot in self.snapshots.iter_mut() {
            if snapshot.walker == walker && snapshot.end.is_none() {
                snapshot.end = Some(place);
            }
        }
        let mut deleted = Vec::new(alloc);
        for record in &self.records {
            if let Some(settle) = record.settle {
                if self.is_deleted_at(settle, place) && !self.is_deleted_at(settle, before) {
                    deleted.push((settle, record.slot))?;
                }
            }
        }
        deleted.sort()?;
        let mut slots = Vec::new(alloc);
        for (_, slot) in &deleted {
            slots.push(*slot)?;
        }
        Ok(slots)
    }
}
