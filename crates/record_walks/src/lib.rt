//! What a session does as the profiler: it begins a snapshot of the records of sampled cords, walks over those that are linked, and ends it.
#![tactic(auto)]

mod snapshots;
#[cfg(test)]
mod tests;
mod walking;

pub use snapshots::{begin, end};
pub use walking::walk;
