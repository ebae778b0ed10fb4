//! Reading a tree's text piece by piece: each chunk is a slice of the bytes of one data edge, borrowed from its node. The way
//! from the root to the present data edge is kept, so that a whole reading enters each node once. No memory is taken.
#![tactic(auto)]

mod bytes;
mod chunks;
mod laws;
mod place;
mod way;

pub use bytes::data_bytes;
pub use chunks::Chunks;
pub use laws::{chunks_are_what_comes_next, offsets_fall_in_one_edge};
pub use place::edge_at;
