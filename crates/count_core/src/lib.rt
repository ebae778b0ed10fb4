//! Worlds of counted nodes as plain data, without atomics: the words of all numbers and what each token holds directly,
//! one step at a time. The rule of shared nodes is proved here over every list of steps; the pool runs it on atomic words.
//! A `World` runs: `apply` does a step on real trees, so that the rule can be tried. No program steps one: the crates above
//! use the rule's definitions and laws alone.
#![tactic(auto)]

mod change;
mod edit;
mod holders;
mod laws;
mod memory;
mod step;
#[cfg(test)]
mod tests;
mod tree;
mod view;
mod world;

pub use change::TreeChange;
pub use laws::{
    every_run_keeps_counts, lone_paths_exclude_others, marks_move_whole_trees,
    one_step_keeps_counts, steps_forget_bytes, takes_and_returns_alternate,
};
pub use memory::Memory;
pub use node_forest::{Kind, Side};
pub use step::Step;
pub use tree::Tree;
pub use view::View;
pub use world::World;
