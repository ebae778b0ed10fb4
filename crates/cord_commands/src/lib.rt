//! One session's names and its commands on cords over the pool. What a command does and answers is `cord_steps`' step; each cord
//! that leaves the names is released.
#![tactic(auto)]

mod answer;
mod asking;
mod changing;
mod commands;
mod edits;
mod external;
mod joining;
mod lending;
mod making;
mod printing;
mod texts;

pub use answer::{Answer, done, told, unset};
pub use commands::run_command;
pub use lending::{put_back, take_out};
pub use making::set_made;
