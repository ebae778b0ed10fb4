//! Values that threads take in turns, under a rule over the values and what each thread knows.
#![tactic(auto)]

mod close;
mod desk;
mod knowledge;
mod plays;
mod rule;
mod start;
#[cfg(test)]
mod tests;
mod turn;

pub use desk::{Busy, Desk, DeskPass};
pub use knowledge::{DeskTable, Held, Knowledge, Past};
pub use plays::{Join, Leave, Split};
pub use rule::DeskRule;
pub use start::DeskRefused;
pub use turn::{TakenOut, Turn};
