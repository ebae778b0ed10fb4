//! Runs scripts: the top call, from a source of bytes to a sink.
#![tactic(auto)]

mod asked;
mod boxes;
mod buffered;
mod ending;
mod feeding;
mod laws;
mod running;
mod script_run;
mod telling;
#[cfg(test)]
mod tests;
mod top;

pub use boxes::new_boxes;
pub use buffered::{Served, run_buffered};
pub use cord_seats::{BoardCord, run_session};
pub use ending::{Ending, MOST_SCRIPT};
pub use laws::{printed_replies_are_those_of_byte_strings, scripts_are_done, statuses_are_exact};
pub use running::{Run, RunRefused, run_script};
pub use top::{Finish, check_script, run_program};
