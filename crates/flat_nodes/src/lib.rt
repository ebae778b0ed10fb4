//! Flats: nodes that have bytes of their own, and room for more of them.
#![tactic(auto)]

mod capacity;
mod filling;
mod flat;

pub use filling::grow_flat;
pub use flat::{new_flat, room_of};
pub use node_pool::{Edge, NodeError};
