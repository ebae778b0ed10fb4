//! Names in the order of their bytes, each with a value that nobody else has.
#![tactic(auto)]

mod names;
#[cfg(test)]
mod tests;

pub use names::Names;
