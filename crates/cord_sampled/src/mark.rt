//! What a call tells of the records of cords.
use record_rule::Note;

/// What became of a cord's record by a call.
#[derive(Clone, Copy, Debug, PartialEq, Eq)]
pub enum Mark {
    /// Nothing.
    Plain,
    /// The cord is sampled, and this is its record's note now.
    Noted(Note),
    /// The cord was to be sampled, and each of so many slots was in use.
    Full { in_use: u16 },
    /// The record of this stamp was given up.
    Gone { stamp: u64 },
}
