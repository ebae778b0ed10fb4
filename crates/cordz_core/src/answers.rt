//! What the calls of a registry answer.

/// No slot is free.
#[derive(Clone, Copy, PartialEq, Eq, Debug)]
pub struct RecordsFull {
    /// How many slots are in use.
    pub in_use: u16,
}

/// What became of a record that was given up.
#[derive(Clone, Copy, PartialEq, Eq, Debug)]
pub enum Settled {
    /// No snapshot lives: the caller clears the record and frees its slot.
    Deleted,
    /// The record waits behind the snapshots that may still see it.
    Queued,
}
