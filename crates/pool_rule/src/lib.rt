//! The rule of the pool's table: between any two steps its words and what its tokens hold are a world of the count rule,
//! and each step of a token is that rule's step. There is no code here but the laws.
#![tactic(auto)]

mod edge_marks;
mod laws;
mod marks;

pub use edge_marks::{
    edge_changes_are_marks, edge_changes_keep_the_rule, edge_changes_trade_holds,
    held_edges_may_come,
};
pub use laws::{
    held_numbers_are_in_use, idle_pools_are_empty, numbers_in_use_are_held, passes_keep_the_rule,
    pools_start_ruled, steps_are_the_count_rules, steps_keep_the_rule, tokens_divide,
    weights_tell_holds, whole_tokens_know_all_boxes, whole_tokens_know_all_steps,
    worlds_are_the_tables,
};
pub use marks::{marks_are_the_count_rules, marks_keep_the_rule};
