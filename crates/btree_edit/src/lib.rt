//! Trees over the flats of a text, and bytes added to a tree (`cord_rep_btree.h`).
#![tactic(auto)]

mod behind;
mod edge;
mod growing;
mod opening;
mod packing;
mod widths;

pub use behind::{path_behind, room_behind};
pub use edge::{Outcome, add_edge};
pub use growing::{add_bytes, with_bytes};
pub use packing::from_pieces;
