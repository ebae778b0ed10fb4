//! Cords of which some are sampled: a sampled cord has a record, which a walk over records finds, with a share of its tree.
//!
//! No clause names the plain step's mark; marks are told by the records that they stand for. A record's share is held while its cord is changed.
#![tactic(auto)]

mod alters;
mod changes;
mod changing;
mod copies;
mod copying;
mod cord;
mod edits;
mod externals;
mod growing;
mod hand;
mod joining;
mod leaving;
mod making;
mod mark;
mod passes;
mod peeking;
mod publishing;
mod sampling;
mod sharing;
#[cfg(test)]
mod tests;
mod tracking;
mod waiting;

pub use copies::{Copied, adopt};
pub use cord::SampledCord;
pub use edits::Edit;
pub use hand::Hand;
pub use leaving::end_share;
pub use mark::Mark;
pub use passes::Ready;
pub use peeking::Peeker;
pub use waiting::{give_back, ready};
