//! Ranges of trees: what is kept of a tree where a range of its bytes is kept, and cuts at both ends (`cord_rep_btree.cc`).
#![tactic(auto)]

mod cutting;
mod lowest;
mod ranges;
#[cfg(test)]
mod tests;

pub use ranges::{cut_back, cut_front, sub_tree};
