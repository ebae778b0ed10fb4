//! The plain step over trees: what a session may answer where cords have shapes and notes, and what it does. Definitions, and laws
//! of them; nothing here runs.
#![tactic(auto)]

mod laws;
mod samples;

pub use laws::{
    commands_are_answered_or_refused, replies_tell_answers, resource_refusals_change_nothing,
    resource_refusals_show_their_cause, runs_without_refusals_are_plain_runs, steps_follow_bytes,
    steps_keep_cords_whole, steps_without_a_stride_have_no_marks,
};
pub use samples::{records_come_and_go_with_trees, refusals_come_to_what_needs_something};
