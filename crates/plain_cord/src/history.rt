//! What the board's history keeps of an action.

/// The kind of an action.
#[derive(Clone, Copy, Debug, PartialEq, Eq)]
pub enum Act {
    Put,
    Take,
    Peek,
    Swap,
}

/// One action of a session on a cell. Lengths are in bytes.
#[derive(Clone, Copy, Debug, PartialEq, Eq)]
pub struct Entry {
    pub session: u16,
    /// The action's place among those of its session, counted from 1.
    pub place: u32,
    pub act: Act,
    pub cell: u8,
    /// The length that a put, or a swap that was done, handed in.
    pub came: Option<u64>,
    /// The length that a take, a peek, or a swap that was done, found.
    pub was: Option<u64>,
}
