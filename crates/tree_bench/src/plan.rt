//! What is measured.

/// What a cord's first bytes stand in: flats of 4,083 bytes, flats of 100, or parts of 600 bytes of such flats.
#[derive(Clone, Copy, Debug, PartialEq, Eq)]
pub enum Kind {
    Full,
    Small,
    Parts,
}

/// A block of 65,536 letters of so many kinds, which is doubled so often.
#[derive(Clone, Copy, Debug)]
pub struct Shape {
    pub kind: Kind,
    pub letters: u8,
    pub doublings: u32,
}

/// What is asked of a cord, and of its bytes in one piece.
#[derive(Clone, Copy, Debug, PartialEq, Eq)]
pub enum Question {
    /// The place of two letters that don't occur.
    FindNone,
    /// The place of `aaab`.
    FindRun,
    /// The place of 300 `a` and a `b`.
    FindLong,
    /// The order of the cord and of one with the same bytes, made apart.
    Compare,
    /// The order of the cord and of its copy.
    CompareCopy,
    Starts,
    Ends,
    /// All bytes go to a sink in memory.
    Write,
    /// A byte at each of 1,000 drawn places.
    At,
    /// 100 bytes from each of 1,000 drawn places on.
    SeekDrawn,
    /// 100 bytes from each of 1,000 places on, one behind another.
    SeekOn,
}

/// What is done to a cord.
#[derive(Clone, Copy, Debug, PartialEq, Eq)]
pub enum Change {
    /// The half in the middle becomes a cord, which is released.
    Half,
    /// 100 bytes after 100 bytes are cut off a copy, down to nothing.
    Front,
    Back,
}
