//! Two trees merged, whose nodes are shared but for those on the way between them (`cord_rep_btree.cc`).
#![tactic(auto)]

mod merging;

pub use merging::{merge_trees, merged};
