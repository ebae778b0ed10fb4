//! Edges: what a node of a cord's tree is, with its text, its shape and its skeleton, which trees are well formed, and changes
//! of a tree in place along a path. An edge is plain data behind a shared pointer; who holds a node is said by the pool above.
#![tactic(auto)]

mod bytes;
mod change;
mod edge;
mod edges;
mod edit;
#[cfg(test)]
mod edit_tests;
mod exchange;
mod filling;
mod laws;
mod memory;
mod roots;
#[cfg(test)]
mod tests;
mod ways;

pub use change::Change;
pub use edge::{Body, Edge};
pub use laws::{
    branches_join_their_texts, branches_over_trees_are_trees, changed_nodes_keep_their_kinds,
    shapes_follow_edges, texts_are_as_long_as_edges_say,
};
pub use memory::Memory;
pub use node_forest::Side;
pub use roots::skip_sum;
pub use ways::{few_edges_wait_on_a_way_down, ways_down_are_short};
