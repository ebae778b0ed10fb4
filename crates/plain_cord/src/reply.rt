//! What a session answers to its commands.
use crate::items::Items;
use crate::statistics::Statistics;

/// What the mark behind `ok` says of the cord that the command made or changed: nothing, its new note in the
/// profiler's list, or that the list was full.
#[derive(Clone, Copy, Debug, PartialEq, Eq)]
pub enum NewMark {
    Plain,
    Noted {
        stamp: u64,
        update: u64,
        length: u64,
    },
    Full,
}

/// What a walk tells of a record: its note, whose length is the size in the statistics, and what its tree's nodes add up to.
#[derive(Clone, Copy, Debug, PartialEq, Eq)]
pub struct Report {
    pub stamp: u64,
    pub update: u64,
    pub statistics: Statistics,
}

/// One answer. Answers that print the same text are one variant.
#[derive(Debug, Drop)]
pub enum Reply {
    /// `ok`, with the mark of the new cord and the stamp of the record that was given up.
    Done { new: NewMark, gone: Option<u64> },
    /// A size, a byte or a place.
    Number { value: u64 },
    /// An expected sum.
    Sum { value: u32 },
    /// No sum, or no place.
    None,
    /// The first bytes of a cord, and how many more follow.
    Shown { text: Items<u8>, more: u64 },
    Less,
    Equal,
    Greater,
    Yes,
    No,
    /// A name that the command reads was never set.
    Unset { name: Items<u8> },
    /// A sum for an empty cord.
    NoBytes,
    /// A place outside a cord of `size` bytes.
    Position { asked: u64, size: u64 },
    /// The result would have `asked` bytes, more than a cord may have.
    Length { asked: u64 },
    /// A cell of the board was found empty.
    Empty { cell: u8 },
    /// The session has no box of releasers left.
    Releasers,
    /// A node of height 12 is needed.
    Height,
    /// The session has a snapshot.
    HasSnapshot,
    /// The session has no snapshot.
    NoSnapshot,
    /// What a walk found, the newest record first.
    Walked { reports: Items<Report> },
    /// A snapshot was ended, and so many records were deleted with it.
    Ended { deleted: u64 },
    /// So many live passes were found, at least the limit.
    Cords { found: u64 },
    /// Each of the pool's numbers, so many, was found in use.
    Pool { size: u32 },
}

/// A session's answers, one for each of its commands.
#[derive(Debug, Drop)]
pub struct Book {
    pub replies: Items<Reply>,
}
