//! Times of measurements: what one thread took for so many operations, and the median of several runs.
#![tactic(auto)]

mod lap;
mod times;

pub use lap::Lap;
pub use times::{median, picos};
