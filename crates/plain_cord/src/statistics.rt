//! What a walk over sampled cords tells of a tree.

/// What the nodes of a tree add up to. Each occurrence of a node counts, so a node that stands in the tree twice counts twice.
#[derive(Clone, Copy, Debug, PartialEq, Eq)]
pub struct Statistics {
    /// How many bytes the text has.
    pub size: u64,
    /// How many nodes there are, of all kinds.
    pub nodes: u64,
    pub flat: u64,
    pub external: u64,
    pub part: u64,
    pub sum: u64,
    pub branch: u64,
    /// How many flats were allocated up to 64, 128, 256, 512 and 1,024 bytes, each flat in the first of these that it fits.
    pub buckets: [u64; 5],
    /// How many bytes of memory the nodes take.
    pub memory: u64,
}
