//! The sides of a branch.

/// The first edges of a branch, or its last.
#[derive(Clone, Copy, Debug, PartialEq, Eq)]
pub enum Side {
    Front,
    Back,
}
