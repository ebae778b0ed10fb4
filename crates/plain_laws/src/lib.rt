//! Laws of the definitions: what a user of byte strings and of the board may rely on, over all commands that have a
//! plain step or act on the board, all lists of them, and all plain runs of several sessions.
//! Each function does nothing; its contract is the law.
#![tactic(auto)]

mod board;
mod changes;
mod histories;
mod orders;
mod runs;
mod sums;

pub use board::{
    byte_strings_want_nothing, other_names_and_cells_stay, refused_actions_change_nothing,
};
pub use changes::{cuts_are_parts, other_names_stay, refusals_change_nothing};
pub use histories::{histories_replay, histories_tell_each_action, taken_cords_were_put};
pub use orders::{first_place_is_one, order_is_total};
pub use runs::{
    appended_texts_are_printed, books_are_determined, orders_have_each_line,
    sessions_without_cells_run_alone,
};
pub use sums::{changes_lose_sums, copies_keep_sums, sums_are_carried_or_lost, sums_are_not_seen};
