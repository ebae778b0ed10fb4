//! The laws of the table's rule, at a type of slots.
use pool_rule::{
    edge_changes_are_marks, edge_changes_keep_the_rule, edge_changes_trade_holds,
    held_edges_may_come, held_numbers_are_in_use, idle_pools_are_empty, marks_are_the_count_rules,
    marks_keep_the_rule, numbers_in_use_are_held, passes_keep_the_rule, pools_start_ruled,
    steps_are_the_count_rules, steps_keep_the_rule, tokens_divide, weights_tell_holds,
    whole_tokens_know_all_boxes, whole_tokens_know_all_steps, worlds_are_the_tables,
};

#[test]
fn laws_hold_of_slots_of_a_type(_rt: HostRuntime) {
    pools_start_ruled::<Option<u64>>();
    steps_are_the_count_rules::<Option<u64>>();
    worlds_are_the_tables::<Option<u64>>();
    steps_keep_the_rule::<Option<u64>>();
    tokens_divide::<Option<u64>>();
    idle_pools_are_empty::<Option<u64>>();
    numbers_in_use_are_held::<Option<u64>>();
    whole_tokens_know_all_steps::<Option<u64>>();
    whole_tokens_know_all_boxes::<Option<u64>>();
    held_numbers_are_in_use::<Option<u64>>();
    passes_keep_the_rule::<Option<u64>>();
    weights_tell_holds();
    edge_changes_are_marks();
    edge_changes_trade_holds();
    held_edges_may_come();
    edge_changes_keep_the_rule::<Option<u64>>();
    marks_keep_the_rule::<Option<u64>>();
    marks_are_the_count_rules::<Option<u64>>();
}
