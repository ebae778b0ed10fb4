//! Statistics of a cord's tree, as a walk over sampled cords reports them.
#![tactic(auto)]

mod laws;
mod tally;
mod walk;

pub use laws::nodes_are_of_five_kinds;
pub use plain_cord::Statistics;
pub use walk::statistics;
