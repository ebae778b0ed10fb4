//! Those who work at a desk of records, for its tests and measurements: a seat tracks and walks records, and an owner changes one.
#![tactic(auto)]

mod owners;
mod seating;
mod seats;
mod shares;

pub use owners::Owned;
pub use seating::{left, seated};
pub use seats::{MOST, Seat};
pub use shares::{Boxes, give_back, leave, new_share};
