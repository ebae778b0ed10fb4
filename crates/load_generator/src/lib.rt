//! A script of any size, drawn from a seed: the large input of tests and measurements.
#![tactic(auto)]

mod command;
mod course;
mod draws;
mod generator;
mod lines;
#[cfg(test)]
mod tests;

pub use command::{LoadCommand, Side};
pub use generator::load_text;
