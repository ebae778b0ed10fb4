//! What the desk of sampled records keeps true: its values, what each token knows, the steps, and the laws over them.
//! Nothing here runs; the calls stand in the crate above.
#![tactic(auto)]

mod holding;
mod values;
mod views;

pub use holding::Holding;
pub use values::{DeskValue, Note, Rep};
pub use views::{Claim, Deed, DeskView, LogEntry, Noted, TokenView};
