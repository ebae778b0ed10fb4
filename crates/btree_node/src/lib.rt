//! Nodes of B-trees: what they have, Branches over them, and one node added to a tree (`cord_rep_btree.h`).
#![tactic(auto)]

mod adding;
mod branches;
mod lone;
mod opening;
mod roots;
mod widths;

pub use adding::with_node;
pub use branches::{branch_beside, branch_of, new_branch};
pub use lone::lone_depth;
pub use opening::{level_of, opened, outermost, room_at};
pub use roots::add_node;
pub use widths::most_under;
