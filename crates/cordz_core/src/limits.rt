//! The limits of the registry.

/// The records at one time. Abseil has no such limit: a record there is a node of its own, here one of an array, so that an
/// action takes no memory.
pub const MOST_RECORDS: usize = 256;

/// The walkers, each of which has at most one snapshot at one time: few threads walk the list.
pub const MOST_WALKERS: usize = 16;

/// The deletion queue has room for all records and all snapshots.
pub const QUEUE_ROOM: usize = 272;
