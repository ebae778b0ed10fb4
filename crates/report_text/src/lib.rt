//! The text of what a run answers, written to a sink. No call takes memory.
#![tactic(auto)]

mod history;
mod laws;
mod line;
mod pool;
mod quoting;
mod refusing;
mod replies;
mod reports;
mod summing;
mod writing;

pub use laws::{
    different_books_print_differently, different_histories_print_differently,
    different_replies_print_differently, different_runs_print_differently,
    plain_runs_are_printable,
};
pub use refusing::write_refusal;
pub use summing::write_summary;
pub use writing::write_run;

#[cfg(test)]
mod tests;
