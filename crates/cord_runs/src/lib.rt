//! Runs of several sessions over trees: in which order their requests are done, which books and histories they may have, and how
//! sessions that know nothing of each other make one run. Definitions, and laws of them; nothing here runs.
#![tactic(auto)]

mod alone;
mod laws;
mod samples;
mod scripts;

pub use alone::{
    actions_stand_alone, requests_apart_from_the_board_stand_alone, sessions_go_on_alone,
};
pub use laws::{
    answers_follow_from_history_and_refusals, refusals_in_runs_show_their_cause,
    run_orders_have_each_line, runs_are_plain_runs, runs_without_a_stride_have_no_marks,
    sessions_alone_make_runs, the_profiler_answers_in_runs,
};
pub use samples::{
    kept_lines_are_those_on_byte_strings, refused_peeks_are_no_actions,
    takes_find_what_was_put_before,
};
pub use scripts::{
    answers_in_runs_are_told_by_their_replies, refusals_in_tree_runs_show_their_cause,
    told_runs_are_tree_runs, tree_runs_are_plain_runs,
};
