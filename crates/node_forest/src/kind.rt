//! The kinds of a node.

/// What a node is (`cord_internal.h`): a flat and an external have bytes of their own, a part is a range of one of these,
/// a sum carries a checksum at the root, and a branch is a node of a B-tree.
#[derive(Clone, Copy, Debug, PartialEq, Eq)]
pub enum Kind {
    Flat,
    External,
    Part,
    Sum,
    Branch,
}
