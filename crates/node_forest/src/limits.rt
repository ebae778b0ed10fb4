//! The limits of trees.

/// The edges of a node: the most that a node of Abseil's B-tree has (kMaxCapacity in `cord_rep_btree.h`).
pub const MOST_EDGES: usize = 6;
