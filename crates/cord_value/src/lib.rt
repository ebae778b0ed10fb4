//! Cords: a few bytes inline, or a tree of counted nodes that a pass keeps between calls.
#![tactic(auto)]

mod apart;
mod copies;
mod cord;
mod cutting;
mod external;
mod filling;
mod growing;
mod inline;
mod joining;
mod reading;
mod refusals;
mod settling;
mod sharing;
mod sums;
#[cfg(test)]
mod tests;

pub use cord::Cord;
pub use refusals::{CopyRefused, CordError};
