//! Shapes of trees: kinds, lengths and what each kind adds, without numbers and bytes, and the rules by which they change.
//! The code does nothing; the definitions stand in specs/, and each function's contract is a law of them.
#![tactic(auto)]

mod cords;
mod examples;
mod laws;

pub use cords::{calls_keep_cords_whole, changes_leave_their_bytes_and_no_sum};
pub use examples::{cut_cords_have_these_shapes, new_and_grown_cords_have_these_shapes};
pub use laws::{
    bytes_are_added, capacities_are_least, groups_come_under_one_node,
    last_flats_are_filled_or_shortened, many_are_added_as_they_are_laid, new_trees_are_well_formed,
    new_trees_have_few_nodes, nodes_are_added, ranges_are_kept, ranges_of_trees_are_trees,
    roots_without_sums_are_trees, texts_are_parted_at_pieces, trees_are_merged,
    trees_never_get_lower, trees_that_grow_stay_trees,
};
