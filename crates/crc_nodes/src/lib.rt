//! Sums: nodes at the root of a tree that carry the checksum which is expected of its text.
#![tactic(auto)]

mod sum;

pub use node_edges::skip_sum;
pub use node_pool::{Edge, NodeError};
pub use sum::{open_sum, with_sum};
