//! The list of sampled records, the snapshots and the deletion queue: a state machine in arrays of fixed size.
//! No call takes memory. What each call answers is said by the times of the actions before it.
#![tactic(auto)]

mod answers;
pub mod laws;
mod limits;
mod links;
mod queue;
mod registry;
mod slot;
#[cfg(test)]
mod tests;

pub use answers::{RecordsFull, Settled};
pub use limits::{MOST_RECORDS, MOST_WALKERS};
pub use queue::Waiting;
pub use registry::Registry;
pub use slot::{Clock, Entry, Slot, SlotState, Walker};
