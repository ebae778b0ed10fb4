//! Laws of whole runs: what the text of a run tells about it.
//! Each function does nothing; its contract is the law.
#![tactic(auto)]

mod texts;
mod trees;

pub use texts::{
    different_runs_of_a_script_print_differently, histories_of_a_script_print_differently,
    plain_runs_are_readable, plain_runs_within_limits_are_printable, spelled_texts_are_bytes,
};
pub use trees::tree_runs_within_limits_are_printable;
