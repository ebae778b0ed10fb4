//! Slots, walkers and clocks, and what a registry keeps of each slot.

/// The number of a record's place, 0 to 255.
#[derive(Clone, Copy, PartialEq, Eq, Debug)]
pub struct Slot {
    pub number: u8,
}

/// The number of one that may hold a snapshot, 0 to 15.
#[derive(Clone, Copy, PartialEq, Eq, Debug)]
pub struct Walker {
    pub number: u8,
}

/// A moment: how many actions had changed the registry by then.
#[derive(Clone, Copy, PartialEq, Eq, Debug)]
pub struct Clock {
    pub ticks: u64,
}

/// Where a slot stands.
#[derive(Clone, Copy, PartialEq, Eq, Debug)]
pub enum SlotState {
    Free,
    Reserved,
    /// Its record is in the list.
    Linked,
    /// Its record was unlinked and isn't settled yet.
    Leaving,
    /// Its record waits for the snapshots that are older than its settling.
    Queued,
    /// Its record is deleted: no walk can reach it.
    Clearing,
}

/// What a registry keeps of a slot.
#[derive(Clone, Copy, PartialEq, Eq, Debug)]
pub struct Entry {
    pub state: SlotState,
    /// The stamp that was given with the slot, from 1 on; 0 before the first.
    pub stamp: u64,
    /// The next older record of the list, as it was when this record left the list.
    pub next: Option<Slot>,
    /// When the record was linked.
    pub linked: Clock,
}

impl Entry {
    /// A slot that was never used.
    pub const FREE: Entry = Entry {
        state: SlotState::Free,
        stamp: 0,
        next: None,
        linked: Clock { ticks: 0 },
    };
}
