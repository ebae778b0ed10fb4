//! Moves at a desk, as data, and their answers.
use record_rule::Note;

/// A move of a seat, or on a ticket, by their places. A size is a length in bytes.
#[derive(Clone, Copy, PartialEq, Debug)]
pub enum Move {
    /// A seat, and the size of the new record's tree.
    Track(usize, u16),
    GiveUp(usize),
    /// A seat whose worker makes the tree, a ticket, and a size.
    Publish(usize, usize, u16),
    Keep(usize),
    /// A seat whose worker leaves the tree, and a ticket.
    Strip(usize, usize),
    Untrack(usize, usize),
    Snap(usize),
    First(usize),
    Next(usize),
    Read(usize),
    End(usize),
    /// A seat, and the ticket that is shown to it.
    Show(usize, usize),
}

/// What a move gave.
#[derive(Clone, Copy, PartialEq, Debug)]
pub enum Answer {
    /// A slot and its stamp.
    Given(u16, u64),
    /// So many slots are in use.
    Full(u16),
    Noted(Note),
    /// The stamp of a record without a share.
    Bare(u64),
    Slot(Option<u16>),
    /// Whether a share came back.
    Back(bool),
    /// The slots of the deleted records in their order, told as one number.
    Ended(u64),
    Done,
    /// There is no such seat or ticket, or the seat can't do it now, or memory is wanting.
    Idle,
}

/// Slots as one number, which tells lists of up to six from each other.
pub fn told(slots: &[u16]) -> u64 {
    let mut sum = 0u64;
    for slot in slots {
        sum = sum.wrapping_mul(257).wrapping_add(u64::from(*slot) + 1);
    }
    sum
}
